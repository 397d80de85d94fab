ghost use Rattle.std.specs.Prelude.{◌≡◌, ◌++◌, IfOk, OnOk, map, cond, [], ◌∷◌};
ghost use Rattle.std.specs.List.{enumerate_from, filter, flat_map};
ghost use Rattle.qapi_number.specs.Numbering.{numbering_of};
ghost use Rattle.qapi_number.specs.PartsOf.{is_call_sort, call_told, commands_of, events_of, parts_by, parts_of, command_in, event_in};

use crate::calls::{add_command, add_event};
use crate::counting::narrow;
use crate::kinds::kinds;
use crate::numbering::Numbering;
use crate::references::implicit_types;
use crate::types::TypeTable;
use qapi_define::{Definition, Sort};
use qapi_types::{CommandList, EventList, Parts};
use qm_base::{GrowingList, NoMemory};
use std::alloc::Global;

/// A command or an event, with its position among the definitions.
#[derive(Clone, Copy)]
struct Call<'a> {
    at: u32,
    definition: &'a Definition,
}

fn is_call(sort: Sort) -> bool
    ensures { result ≡ is_call_sort sort }
{
    match sort {
        Sort::Command | Sort::Event => true,
        _ => false,
    }
}

fn add_call<'a>(
    calls: &mut GrowingList<Call<'a>>,
    at: usize,
    definition: &'a Definition,
) -> Result<(), NoMemory>
    ensures { OnOk result (map call_told calls.new ≡ map call_told calls.old ++ cond (is_call_sort definition.now.sort) ((at, definition.now) ∷ []) []) }
{
    if is_call(definition.sort) {
        let at = narrow(at)?;
        calls.push(Call { at, definition })
    } else {
        Ok(())
    }
}

fn calls<'a>(
    alloc: Global,
    definitions: &'a [Definition],
) -> Result<GrowingList<Call<'a>>, NoMemory>
    ensures { IfOk result (λ calls. map call_told calls ≡ filter (λ e. is_call_sort e.1.sort) (enumerate_from 0 definitions.now)) }
{
    let mut calls = GrowingList::new(alloc);
    for (at, definition) in definitions.iter().enumerate() {
        add_call(&mut calls, at, definition)?;
    }
    Ok(calls)
}

fn commands_among(
    alloc: Global,
    numbering: &Numbering,
    calls: &[Call],
) -> Result<CommandList, NoMemory>
    ensures { IfOk result (λ commands. commands ≡ flat_map (λ e. command_in numbering.now e.1.1.sort e.0 e.1.0 e.1.1) (enumerate_from 0 (map call_told calls.now))) }
{
    let mut commands = GrowingList::new(alloc);
    for (index, call) in calls.iter().enumerate() {
        add_command(
            alloc,
            numbering,
            index,
            call.at,
            call.definition,
            &mut commands,
        )?;
    }
    Ok(commands)
}

fn events_among(alloc: Global, numbering: &Numbering, calls: &[Call]) -> Result<EventList, NoMemory>
    ensures { IfOk result (λ events. events ≡ flat_map (λ e. event_in numbering.now e.1.1.sort e.0 e.1.0 e.1.1) (enumerate_from 0 (map call_told calls.now))) }
{
    let mut events = GrowingList::new(alloc);
    for (index, call) in calls.iter().enumerate() {
        add_event(
            alloc,
            numbering,
            index,
            call.at,
            call.definition,
            &mut events,
        )?;
    }
    Ok(events)
}

fn parts_numbered(
    alloc: Global,
    numbering: &Numbering,
    definitions: &[Definition],
) -> Result<Parts, NoMemory>
    ensures { IfOk result (λ p. p ≡ parts_by numbering.now definitions.now) }
{
    let calls = calls(alloc, definitions)?;
    let commands = commands_among(alloc, numbering, calls.as_slice())?;
    let events = events_among(alloc, numbering, calls.as_slice())?;
    let kinds = kinds(alloc, numbering, definitions)?;
    Ok(Parts {
        commands,
        events,
        kinds,
    })
}

/// The numbers of the types of definitions.
pub fn numbering<'a>(
    alloc: Global,
    definitions: &'a [Definition],
) -> Result<Numbering<'a>, NoMemory>
    ensures { IfOk result (λ n. n ≡ numbering_of definitions.now) }
{
    let types = TypeTable::of(alloc, definitions)?;
    let implicit = implicit_types(alloc, &types, definitions)?;
    Ok(Numbering { types, implicit })
}

/// The commands, events and types of definitions by their numbers. Want of memory is also answered
/// where a count passes 2^32.
pub fn parts(alloc: Global, definitions: &[Definition]) -> Result<Parts, NoMemory>
    ensures { IfOk result (λ p. p ≡ parts_of definitions.now) }
{
    let numbering = numbering(alloc, definitions)?;
    parts_numbered(alloc, &numbering, definitions)
}
