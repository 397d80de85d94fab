ghost use Rattle.std.specs.Prelude.{◌≡◌, ◌++◌, IfOk, OnOk, option_copied};
ghost use Rattle.qapi_number.specs.PartsOf.{data_number as number_of_data, returned_number as number_returned, arg_of, command_def as command_told, event_def as event_told, command_in, event_in};

use crate::copies::copy_names;
use crate::counting::narrow;
use crate::implicit::ImplicitType;
use crate::numbering::Numbering;
use qapi_define::{Definition, Member, Sort, TypeName};
use qapi_types::{ArgType, CommandDef, CommandList, EventDef, EventList};
use qm_base::{NoMemory, Text};
use std::alloc::Global;

fn data_number(
    numbering: &Numbering,
    at: u32,
    members: Option<&[Member]>,
    type_name: Option<&Text>,
) -> Result<u32, NoMemory>
    ensures { IfOk result (λ n. n ≡ number_of_data numbering.now at (option_copied members.entry) (option_copied type_name.entry)) }
{
    match members {
        Some(_) => numbering.implicit_number(ImplicitType::Members(at)),
        None => match type_name {
            Some(name) => numbering.types.number(name.as_slice()),
            None => numbering.implicit_number(ImplicitType::Empty),
        },
    }
}

fn returned_number(numbering: &Numbering, of: Option<&TypeName>) -> Result<u32, NoMemory>
    ensures { IfOk result (λ n. n ≡ number_returned numbering.now (option_copied of.entry)) }
{
    match of {
        Some(of) => numbering.type_number(of),
        None => numbering.implicit_number(ImplicitType::Empty),
    }
}

fn arg(numbering: &Numbering, at: u32, definition: &Definition) -> Result<ArgType, NoMemory>
    ensures { IfOk result (λ a. a ≡ arg_of numbering.now at definition.now) }
{
    if !definition.flags.generated {
        return Ok(ArgType::AnyObject);
    }
    let number = data_number(numbering, at, definition.members(), definition.data())?;
    Ok(ArgType::Typed(number))
}

fn command_def(
    alloc: Global,
    numbering: &Numbering,
    place: usize,
    at: u32,
    definition: &Definition,
) -> Result<CommandDef, NoMemory>
    ensures { IfOk result (λ c. c ≡ command_told numbering.now place at definition.now) }
{
    let place = narrow(place)?;
    let name = definition.name.copy(alloc)?;
    let arg = arg(numbering, at, definition)?;
    let ret = returned_number(numbering, definition.returns())?;
    let features = copy_names(alloc, definition.features())?;
    Ok(CommandDef {
        name,
        place,
        arg,
        ret,
        allow_oob: definition.flags.allow_oob,
        allow_preconfig: definition.flags.allow_preconfig,
        features,
    })
}

fn event_def(
    alloc: Global,
    numbering: &Numbering,
    place: usize,
    at: u32,
    definition: &Definition,
) -> Result<EventDef, NoMemory>
    ensures { IfOk result (λ e. e ≡ event_told numbering.now place at definition.now) }
{
    let place = narrow(place)?;
    let name = definition.name.copy(alloc)?;
    let arg = data_number(numbering, at, definition.members(), definition.data())?;
    let features = copy_names(alloc, definition.features())?;
    Ok(EventDef {
        name,
        place,
        arg,
        features,
    })
}

/// Adds the definition, where it is that of a command.
pub fn add_command(
    alloc: Global,
    numbering: &Numbering,
    place: usize,
    at: u32,
    definition: &Definition,
    commands: &mut CommandList,
) -> Result<(), NoMemory>
    ensures { OnOk result (commands.new ≡ commands.old ++ command_in numbering.now definition.now.sort place at definition.now) }
{
    match definition.sort {
        Sort::Command => commands.push(command_def(alloc, numbering, place, at, definition)?),
        _ => Ok(()),
    }
}

/// Adds the definition, where it is that of an event.
pub fn add_event(
    alloc: Global,
    numbering: &Numbering,
    place: usize,
    at: u32,
    definition: &Definition,
    events: &mut EventList,
) -> Result<(), NoMemory>
    ensures { OnOk result (events.new ≡ events.old ++ event_in numbering.now definition.now.sort place at definition.now) }
{
    match definition.sort {
        Sort::Event => events.push(event_def(alloc, numbering, place, at, definition)?),
        _ => Ok(()),
    }
}
