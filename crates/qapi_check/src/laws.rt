ghost use Rattle.std.specs.Prelude.{◌≡◌, List, None};
ghost use Rattle.qapi_types.specs.Goodness.{IsCounted, IsGood};
ghost use Rattle.qapi_define.specs.declared.definition.Definition.{Definition};
ghost use Rattle.qapi_check.specs.{Checking.first_fault, Passes.numbered};

/// Where no pass has a fault, the table of definitions makes a schema, if its counts are small
/// enough.
pub fn what_passes_is_good()
    ensures { (definitions : List Definition) → first_fault definitions ≡ None →
        IsCounted (numbered definitions) → IsGood (numbered definitions) }
{}
