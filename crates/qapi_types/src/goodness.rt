ghost use Rattle.std.specs.Prelude.{◌≡◌, ◌↔◌, ◌++◌, IfOk, OnOk, IsTrue, map};
ghost use Rattle.std.specs.List.{All};
ghost use Rattle.qapi_types.specs.Choices.{AreApart};
ghost use Rattle.qapi_types.specs.Goodness.{HasApartValues, IsGood, definition_names};

use crate::choices::choices_are_good;
use crate::kind::Kind;
use crate::names::{distinct_names, names_of_commands, names_of_values};
use crate::parts::{EventDef, Parts};
use crate::places::are_placed;
use crate::ranges::{is_counted, is_in_range};
use crate::unions::{have_apart_alternatives, have_branches, have_plain_elements, have_tags};
use qm_base::{GrowingList, NoMemory};
use std::alloc::Global;

fn add_names_of_events<'a>(
    names: &mut GrowingList<&'a [u8]>,
    events: &'a [EventDef],
) -> Result<(), NoMemory>
    ensures { OnOk result
        (map (λ k. k.now) names.new ≡ map (λ k. k.now) names.old ++ map (λ e. e.name) events.now) }
{
    for event in events {
        names.push(event.name.as_slice())?;
    }
    Ok(())
}

fn have_apart_names(alloc: Global, parts: &Parts) -> Result<bool, NoMemory>
    ensures { IfOk result (λ yes. IsTrue yes ↔ AreApart (definition_names parts.now)) }
{
    let mut names = names_of_commands(alloc, parts.commands.as_slice())?;
    add_names_of_events(&mut names, parts.events.as_slice())?;
    let set = distinct_names(alloc, names.as_slice())?;
    Ok(set.is_some())
}

fn has_apart_values(alloc: Global, kind: &Kind) -> Result<bool, NoMemory>
    ensures { IfOk result (λ yes. IsTrue yes ↔ HasApartValues kind.now) }
{
    let names = names_of_values(alloc, kind)?;
    let set = distinct_names(alloc, names.as_slice())?;
    Ok(set.is_some())
}

fn have_apart_values(alloc: Global, kinds: &[Kind]) -> Result<bool, NoMemory>
    ensures { IfOk result (λ yes. IsTrue yes ↔ All HasApartValues kinds.now) }
{
    for kind in kinds {
        if !has_apart_values(alloc, kind)? {
            return Ok(false);
        }
    }
    Ok(true)
}

/// Whether the parts make a schema: all its conditions hold. It takes memory for each type's names
/// and for marks; an error says nothing of the parts.
pub fn parts_good(alloc: Global, parts: &Parts) -> Result<bool, NoMemory>
    ensures { IfOk result (λ yes. IsTrue yes ↔ IsGood parts.now) }
{
    if !is_counted(parts) {
        return Ok(false);
    }
    if !is_in_range(parts) {
        return Ok(false);
    }
    let kinds = parts.kinds.as_slice();
    if !have_tags(kinds) {
        return Ok(false);
    }
    if !have_plain_elements(kinds) {
        return Ok(false);
    }
    if !have_apart_alternatives(kinds) {
        return Ok(false);
    }
    if !are_placed(parts.commands.as_slice(), parts.events.as_slice()) {
        return Ok(false);
    }
    if !have_apart_names(alloc, parts)? {
        return Ok(false);
    }
    if !have_apart_values(alloc, kinds)? {
        return Ok(false);
    }
    if !have_branches(alloc, kinds)? {
        return Ok(false);
    }
    choices_are_good(alloc, kinds)
}
