ghost use Rattle.std.specs.Prelude.{◌≡◌, ◌<◌, ◌++◌, length, map, IfOk, OnOk, true};
ghost use Rattle.std.specs.List.{All};
ghost use Rattle.qapi_mask.specs.Below.{IsBelow};
ghost use Rattle.qapi_mask.specs.Called.{told};
ghost use Rattle.qapi_mask.specs.Calls.{Command, Event};
ghost use Rattle.qapi_types.specs.Goodness.{CommandBelow};
ghost use Rattle.qapi_mask.specs.Introspection.{call_json, introspection_of, oob_members, type_json};
ghost use Rattle.qapi_mask.specs.Naming.{is_listed, mask_of};
ghost use Rattle.qapi_types.specs.Prelude.{HasPrelude};

use crate::calls::{Called, argument_type, calls};
use crate::entries::{head, put, put_features, put_text};
use crate::naming::Naming;
use crate::objects::type_object;
use qapi_types::{CommandDef, EventDef, Schema};
use qm_base::{NoMemory, Text};
use qm_json::{Json, Member};
use sqlite_items::Items;
use std::alloc::Global;

fn put_oob(alloc: Global, members: &mut Items<Member>, allowed: bool) -> Result<(), NoMemory>
    ensures { OnOk result (members.new ≡ members.old ++ oob_members allowed) }
{
    if !allowed {
        return Ok(());
    }
    put(alloc, members, b"allow-oob", Json::Bool(true))
}

fn command_object(
    alloc: Global,
    naming: &Naming<'_>,
    command: &CommandDef,
) -> Result<Json, NoMemory>
    requires { CommandBelow (length naming.now.kinds) command.now }
    ensures { IfOk result (λ object. object ≡ call_json naming.now (Command command.now)) }
{
    let mut members = head(alloc, command.name.as_slice(), b"command")?;
    let taken = argument_type(naming.parts().kinds.as_slice(), command.arg);
    let name = naming.name(alloc, taken)?;
    put_text(alloc, &mut members, b"arg-type", name.as_slice())?;
    let name = naming.name(alloc, command.ret)?;
    put_text(alloc, &mut members, b"ret-type", name.as_slice())?;
    put_oob(alloc, &mut members, command.allow_oob)?;
    put_features(alloc, &mut members, command.features.as_slice())?;
    Ok(Json::Obj(members))
}

fn event_object(alloc: Global, naming: &Naming<'_>, event: &EventDef) -> Result<Json, NoMemory>
    requires { event.now.arg < length naming.now.kinds }
    ensures { IfOk result (λ object. object ≡ call_json naming.now (Event event.now)) }
{
    let mut members = head(alloc, event.name.as_slice(), b"event")?;
    let name = naming.name(alloc, event.arg)?;
    put_text(alloc, &mut members, b"arg-type", name.as_slice())?;
    put_features(alloc, &mut members, event.features.as_slice())?;
    Ok(Json::Obj(members))
}

fn call_object(alloc: Global, naming: &Naming<'_>, called: Called<'_>) -> Result<Json, NoMemory>
    requires { IsBelow (length naming.now.kinds) (told called) }
    ensures { IfOk result (λ object. object ≡ call_json naming.now (told called.entry)) }
{
    match called {
        Called::Command(command) => command_object(alloc, naming, command),
        Called::Event(event) => event_object(alloc, naming, event),
    }
}

fn put_calls(
    alloc: Global,
    naming: &Naming<'_>,
    calls: &[Called<'_>],
    entries: &mut Items<Json>,
) -> Result<(), NoMemory>
    requires { All (λ call. IsBelow (length naming.now.kinds) (told call)) calls.now }
    ensures { OnOk result (entries.new ≡ entries.old ++ map (call_json naming.now) (map told calls.now)) }
{
    for called in calls {
        entries.push(call_object(alloc, naming, *called)?)?;
    }
    Ok(())
}

fn put_types(
    alloc: Global,
    naming: &Naming<'_>,
    numbers: &[u32],
    entries: &mut Items<Json>,
) -> Result<(), NoMemory>
    requires { All (λ t. t < length naming.now.kinds) numbers.now }
    ensures { OnOk result (entries.new ≡ entries.old ++ map (type_json naming.now) numbers.now) }
{
    for number in numbers {
        entries.push(type_object(alloc, naming, *number)?)?;
    }
    Ok(())
}

/// The introspection array: commands and events in the order of their definitions, then the types
/// in the order in which entries first refer to them. An error says nothing but that memory was
/// wanting.
pub fn introspect(alloc: Global, schema: &Schema) -> Result<Json, NoMemory>
    requires begun { HasPrelude schema.now }
    ensures { IfOk result (λ array. array ≡ introspection_of schema.now) }
{
    let naming = Naming::of(alloc, schema)?;
    let calls = calls(alloc, naming.parts())?;
    let mut entries = Items::new(alloc);
    put_calls(alloc, &naming, calls.as_slice(), &mut entries)?;
    put_types(alloc, &naming, naming.listed(), &mut entries)?;
    Ok(Json::Arr(entries))
}

/// Whether an entry of the array stands for the type of the number.
pub fn is_listed(alloc: Global, schema: &Schema, type_id: u32) -> Result<bool, NoMemory>
    requires begun { HasPrelude schema.now }
    requires id { type_id < length schema.now.kinds }
    ensures { IfOk result (λ listed. listed ≡ is_listed schema.now type_id) }
{
    let naming = Naming::of(alloc, schema)?;
    Ok(naming.is_listed(type_id))
}

/// The name that the array has for the type of the number.
pub fn masked(alloc: Global, schema: &Schema, type_id: u32) -> Result<Text, NoMemory>
    requires begun { HasPrelude schema.now }
    requires id { type_id < length schema.now.kinds }
    requires listed { is_listed schema.now type_id ≡ true }
    ensures { IfOk result (λ name. name ≡ mask_of schema.now type_id) }
{
    let naming = Naming::of(alloc, schema)?;
    naming.name(alloc, type_id)
}
