//! Commands and events in the order of their definitions.
ghost use Rattle.std.specs.Prelude.{◌≡◌, ◌<◌, ◌^◌, ◌++◌, IfOk, OnOk, map, length};
ghost use Rattle.qapi_types.specs.Goodness.{IsGood, command_places};
ghost use Rattle.qapi_mask.specs.Calls.{calls_of};
ghost use Rattle.std.specs.List.{flat_map};
ghost use Rattle.qapi_types.specs.Sets.{is_at};
ghost use Rattle.qapi_mask.specs.Naming.{argument_type as argument_type_of, call_refs};
ghost use Rattle.qapi_mask.specs.Called.{told};

use crate::standing::builtin_at;
use qapi_types::{ArgType, CommandDef, EventDef, Kind, Parts};
use qm_base::NoMemory;
use std::alloc::Global;

/// A command or an event.
#[derive(Clone, Copy, Drop)]
pub enum Called<'a> {
    /// A command.
    Command(&'a CommandDef),
    /// An event.
    Event(&'a EventDef),
}

/// Whether the command at the index is defined at the place.
fn is_command_at(commands: &[CommandDef], index: usize, place: usize) -> bool
    ensures { result ≡ is_at place (command_places commands.now) index }
{
    match commands.get(index) {
        Some(command) => command.place as usize == place,
        None => false,
    }
}

/// All commands and events.
pub fn calls<'a>(alloc: Global, parts: &'a Parts) -> Result<Vec<Called<'a>>, NoMemory>
    requires { IsGood parts.now }
    ensures { IfOk result (λ calls. map told calls.items ≡ calls_of parts.now) }
{
    let commands = parts.commands.as_slice();
    let events = parts.events.as_slice();
    let mut calls = Vec::new(alloc);
    let mut first = 0;
    let mut second = 0;
    for place in 0..commands.len() + events.len() {
        if is_command_at(commands, first, place) {
            calls.push(Called::Command(&commands[first]))?;
            first += 1;
        } else {
            calls.push(Called::Event(&events[second]))?;
            second += 1;
        }
    }
    Ok(calls)
}

/// The type of what a command takes: all values, where it is defined with `gen` false.
pub fn argument_type(kinds: &[Kind], arg: ArgType) -> u32
    requires { length kinds.now < 2 ^ 32 }
    ensures { result ≡ argument_type_of kinds.now arg }
{
    match arg {
        ArgType::Typed(number) => number,
        ArgType::AnyObject => builtin_at(kinds, b"any") as u32,
    }
}

fn add_references(kinds: &[Kind], called: Called<'_>, types: &mut Vec<u32>) -> Result<(), NoMemory>
    requires { length kinds.now < 2 ^ 32 }
    ensures { OnOk result (types.new.items ≡ types.old.items ++ call_refs kinds.now (told called.entry)) }
{
    match called {
        Called::Command(command) => {
            types.push(argument_type(kinds, command.arg))?;
            types.push(command.ret)?;
        }
        Called::Event(event) => types.push(event.arg)?,
    }
    Ok(())
}

/// The types that commands and events refer to.
pub fn first_references(
    alloc: Global,
    kinds: &[Kind],
    calls: &[Called<'_>],
) -> Result<Vec<u32>, NoMemory>
    requires { length kinds.now < 2 ^ 32 }
    ensures { IfOk result (λ types. types.items ≡ flat_map (call_refs kinds.now) (map told calls.now)) }
{
    let mut types = Vec::new(alloc);
    for called in calls {
        add_references(kinds, *called, &mut types)?;
    }
    Ok(types)
}
