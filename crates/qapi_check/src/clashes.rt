ghost use Rattle.std.specs.Prelude.{◌≡◌, length, map, IfOk};
ghost use Rattle.std.specs.Option.{option_map};
ghost use Rattle.qapi_rules.specs.{Blames.fault, Blames.told, declared.fault.CheckRule.TheVariants.MemberClash};
ghost use Rattle.qapi_types.specs.Chains.{IsInside, NoneOnCycle};
ghost use Rattle.qapi_types.specs.Goodness.{choices_of};
ghost use Rattle.qapi_types.specs.Types.{branch_types};
ghost use Rattle.qapi_check.specs.Clashes.{clash_of, clashes_pass as clashes_pass_of, defines_type};

use crate::choices::Choices;
use qapi_define::{Definition, Sort};
use qapi_rules::{Blame, CheckRule};
use qapi_types::Kind;
use qm_base::NoMemory;
use std::alloc::Global;

fn is_type(definition: &Definition) -> bool
    ensures { result ≡ defines_type definition.now }
{
    match definition.sort {
        Sort::Command | Sort::Event => false,
        _ => true,
    }
}

/// The clash of a type, which stands in its definition.
fn judge<'a>(
    alloc: Global,
    choices: &Choices<'a>,
    number: usize,
    definition: &'a Definition,
) -> Result<Option<Blame<'a>>, NoMemory>
    ensures { IfOk result (λ blame. option_map told blame
        ≡ fault MemberClash definition.now (clash_of (choices_of choices.now) number)) }
{
    match choices.clash(alloc, number)? {
        None => Ok(None),
        Some(name) => Ok(Some(Blame {
            rule: CheckRule::MemberClash,
            file: definition.file.as_slice(),
            line: definition.line,
            name,
        })),
    }
}

/// The first definition from which a member's name stands a second time along some choice of
/// branches: among the members of its bases, its own, and then those of its branches in order, each
/// with all that it brings (QAPI code generation guide, "Union types"). The types are those of the
/// definitions, by their numbers.
pub fn clashes_pass<'a>(
    alloc: Global,
    kinds: &'a [Kind],
    definitions: &'a [Definition],
) -> Result<Option<Blame<'a>>, NoMemory>
    requires inside { IsInside (map branch_types kinds.now) }
    requires free { NoneOnCycle (map branch_types kinds.now) (length kinds.now) }
    ensures { IfOk result (λ blame. option_map told blame ≡ clashes_pass_of (choices_of kinds.now) definitions.now) }
{
    let choices = Choices::of(alloc, kinds)?;
    let mut number = 0;
    for definition in definitions {
        if is_type(definition) {
            if let Some(blame) = judge(alloc, &choices, number, definition)? {
                return Ok(Some(blame));
            }
            number += 1;
        }
    }
    Ok(None)
}
