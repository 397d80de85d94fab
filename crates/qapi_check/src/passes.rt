ghost use Rattle.std.specs.Prelude.{◌≡◌, None, IfOk};
ghost use Rattle.std.specs.Option.{option_map};
ghost use Rattle.qapi_rules.specs.Blames.{told};
ghost use Rattle.qapi_check.specs.Passes as Steps;

use crate::clashes::clashes_pass;
use qapi_define::{Definition, DefinitionList, definitions};
use qapi_load::Source;
use qapi_number::{parts, with_prelude};
use qapi_rules::{Blame, DefinitionTable, cycles_pass, names_pass, references_pass};
use qapi_types::{Kind, Parts};
use qm_base::{NoMemory, Text};
use std::alloc::Global;

/// The first fault of names.
#[tactic(auto, unfolding(crate::specs::Passes::names_fault))]
pub fn names_fault<'a>(
    alloc: Global,
    definitions: &'a [Definition],
) -> Result<Option<Blame<'a>>, NoMemory>
    ensures { IfOk result (λ blame. option_map told blame ≡ Steps.names_fault definitions.now) }
{
    names_pass(alloc, definitions)
}

/// The first fault of references.
#[tactic(auto, unfolding(crate::specs::Passes::references_fault))]
pub fn references_fault<'a>(table: &DefinitionTable<'a>) -> Option<Blame<'a>>
    ensures { option_map told result ≡ Steps.references_fault table.now }
{
    references_pass(table)
}

/// The first definition on a cycle of bases and branches.
#[tactic(auto, unfolding(crate::specs::Passes::cycle_fault))]
pub fn cycle_fault<'a>(
    alloc: Global,
    table: &DefinitionTable<'a>,
) -> Result<Option<Blame<'a>>, NoMemory>
    ensures { IfOk result (λ blame. option_map told blame ≡ Steps.cycle_fault table.now) }
{
    cycles_pass(alloc, table)
}

/// The commands, events and types by their numbers. Want of memory is also answered where a count
/// passes 2^32.
#[tactic(auto, unfolding(crate::specs::Passes::numbered))]
pub fn numbered(alloc: Global, definitions: &[Definition]) -> Result<Parts, NoMemory>
    ensures { IfOk result (λ p. p ≡ Steps.numbered definitions.now) }
{
    parts(alloc, definitions)
}

/// The first clash along branches.
#[tactic(auto, unfolding(crate::specs::Passes::clash_fault))]
pub fn clash_fault<'a>(
    alloc: Global,
    kinds: &'a [Kind],
    definitions: &'a [Definition],
) -> Result<Option<Blame<'a>>, NoMemory>
    requires types { kinds.now ≡ (Steps.numbered definitions.now).kinds }
    requires early { Steps.early_fault definitions.now ≡ None }
    ensures { IfOk result (λ blame. option_map told blame ≡ Steps.clash_fault definitions.now) }
{
    clashes_pass(alloc, kinds, definitions)
}

/// The definitions that stand before those of each schema, and those of the expressions that
/// conditions and the former's names leave.
#[tactic(auto, unfolding(crate::specs::Passes::all_definitions))]
pub fn all_definitions(
    alloc: Global,
    sources: &[Source],
    defines: &[Text],
) -> Result<DefinitionList, NoMemory>
    ensures { IfOk result (λ all. all ≡ Steps.all_definitions defines.now sources.now) }
{
    let own = definitions(alloc, sources, defines)?;
    with_prelude(alloc, own)
}
