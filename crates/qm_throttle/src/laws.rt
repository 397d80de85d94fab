//! Laws of the windows.

ghost use Rattle.std.specs.Prelude.{◌≡◌, List, [], ◌∷◌, ◌++◌};
ghost use Rattle.qm_plan.specs.declared.events.Period.{Period};
ghost use Rattle.qm_throttle.specs.Steps.{stepped};
ghost use Rattle.qm_throttle.specs.Windows.{Call, sent_of, windows_of};

/// One call on the windows that are open after some calls is that call after those.
pub fn a_call_is_one_more()
    ensures { (periods : List Period) (calls : List Call) (call : Call) →
        stepped periods (windows_of periods calls) call
        ≡ record { sent = sent_of periods calls call; windows = windows_of periods (calls ++ call ∷ []) } }
{}
