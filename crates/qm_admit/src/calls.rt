ghost use Rattle.std.specs.Prelude.{◌≡◌, ◌<◌, ◌↔◌, [], length, option_copied, Option};
ghost use Rattle.qm_json.specs.Cleanness.{IsClean};
ghost use Rattle.qm_admit.specs.Fitting.{Fits};
ghost use Rattle.qm_admit.specs.declared.verdict.Verdict.TheVariants.{Yes};
ghost use Rattle.qm_json.specs.declared.value.Json.TheVariants.{Obj};
ghost use Rattle.qm_admit.specs.Misfits.{Misfit, first_misfit, command_misfit, return_misfit, event_misfit, verdict_of, arguments_of, is_object};
ghost use Rattle.qm_admit.specs.Walks.{Tells};

use crate::admission::{walk_empty, walked};
use crate::alternatives::{is_of, sort_of};
use crate::path::PathList;
use crate::verdict::{Fault, Verdict};
use qapi_types::{ArgType, JsonKind, Schema};
use qm_json::Json;

/// The verdict of a walk.
fn verdict(fault: Option<Fault>, path: PathList) -> Verdict
    ensures { (found : Option Misfit) → Tells found fault path → result ≡ verdict_of found }
{
    match fault {
        None => Verdict::Yes,
        Some(fault) => Verdict::No(fault, path),
    }
}

/// Whether the value fits the type of the number, else its first fault: members in the order of
/// the type, then those of the branch that the tag chooses, then the value's members that the type
/// does not have. It takes no memory.
pub fn admit(schema: &Schema, type_id: u32, value: &Json) -> Verdict
    requires id { type_id < length schema.now.kinds }
    ensures verdict { result ≡ verdict_of (first_misfit schema.now.kinds type_id value.now) }
    ensures fits { IsClean value.now → (result ≡ Yes) ↔ Fits schema.now.kinds type_id value.now }
{
    let _parts = schema.parts();
    let mut path = PathList::new();
    let fault = walked(schema, type_id, value, &mut path);
    verdict(fault, path)
}

/// The same of the empty object.
fn admit_empty(schema: &Schema, type_id: u32) -> Verdict
    requires { type_id < length schema.now.kinds }
    ensures { result ≡ verdict_of (first_misfit schema.now.kinds type_id (Obj [])) }
{
    let mut path = PathList::new();
    let fault = walk_empty(schema, type_id, &mut path);
    verdict(fault, path)
}

/// The same of arguments, where None stands for the empty object.
fn admit_given(schema: &Schema, type_id: u32, arguments: Option<&Json>) -> Verdict
    requires { type_id < length schema.now.kinds }
    ensures { result ≡ verdict_of (first_misfit schema.now.kinds type_id (arguments_of (option_copied arguments.entry))) }
{
    match arguments {
        None => admit_empty(schema, type_id),
        Some(value) => admit(schema, type_id, value),
    }
}

/// Whether arguments are an object, where None stands for the empty one.
fn is_object(arguments: Option<&Json>) -> bool
    ensures { result ≡ is_object (arguments_of (option_copied arguments.entry)) }
{
    match arguments {
        None => true,
        Some(value) => is_of(sort_of(value), Some(JsonKind::Object)),
    }
}

/// The same of the arguments of the command of the number at what it takes; None stands for the
/// empty object. A command that is defined with `gen` false takes each object.
pub fn admit_args(schema: &Schema, command: u32, arguments: Option<&Json>) -> Verdict
    requires id { command < length schema.now.commands }
    ensures { result ≡ verdict_of (command_misfit schema.now command (option_copied arguments.entry)) }
{
    let _parts = schema.parts();
    match schema.command(command).arg {
        ArgType::Typed(type_id) => admit_given(schema, type_id, arguments),
        ArgType::AnyObject if is_object(arguments) => Verdict::Yes,
        ArgType::AnyObject => Verdict::No(Fault::WrongKind, PathList::new()),
    }
}

/// The same of a value at what the command of the number returns.
pub fn admit_return(schema: &Schema, command: u32, value: &Json) -> Verdict
    requires id { command < length schema.now.commands }
    ensures { result ≡ verdict_of (return_misfit schema.now command value.now) }
{
    let _parts = schema.parts();
    admit(schema, schema.command(command).ret, value)
}

/// The same of a value at the data of the event of the number.
pub fn admit_event(schema: &Schema, event: u32, value: &Json) -> Verdict
    requires id { event < length schema.now.events }
    ensures { result ≡ verdict_of (event_misfit schema.now event value.now) }
{
    let _parts = schema.parts();
    admit(schema, schema.event(event).arg, value)
}
