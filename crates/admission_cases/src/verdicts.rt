//! The answers of the calls of admission, against their texts.

use qapi_types::Schema;
use qm_admit::{Fault, PathList, Verdict, admit, admit_args, admit_event, admit_return, path_text};
use qm_json::Json;
use std::alloc::Global;
use std::test::Fail;

fn word_of(fault: Fault) -> &'static str {
    match fault {
        Fault::Missing => "missing",
        Fault::Unexpected => "unexpected",
        Fault::WrongKind => "wrong-kind",
        Fault::OutOfRange => "out-of-range",
        Fault::BadEnum => "bad-enum",
        Fault::NoAlternative => "no-alternative",
    }
}

fn of_args(schema: &Schema, name: &str, value: Option<&Json>) -> Result<Verdict, Fail> {
    match schema.find_command(name.as_bytes()) {
        Some(command) if command < schema.commands() => Ok(admit_args(schema, command, value)),
        _ => Err(Fail::from("no such command")),
    }
}

fn of_return(schema: &Schema, name: &str, value: &Json) -> Result<Verdict, Fail> {
    match schema.find_command(name.as_bytes()) {
        Some(command) if command < schema.commands() => Ok(admit_return(schema, command, value)),
        _ => Err(Fail::from("no such command")),
    }
}

fn of_event(schema: &Schema, name: &str, value: &Json) -> Result<Verdict, Fail> {
    match schema.find_event(name.as_bytes()) {
        Some(event) if event < schema.events() => Ok(admit_event(schema, event, value)),
        _ => Err(Fail::from("no such event")),
    }
}

fn of_type(schema: &Schema, number: &str, value: &Json) -> Result<Verdict, Fail> {
    let number = number.parse::<u32>()?;
    if number >= schema.types() {
        return Err(Fail::from("no such type"));
    }
    Ok(admit(schema, number, value))
}

/// The verdict of a call, which is a word and the name of a command or an event, or the number of
/// a type.
fn verdict(schema: &Schema, call: &str, value: Option<&Json>) -> Result<Verdict, Fail> {
    let (word, name) = call.split_once(" ").unwrap_or((call, ""));
    match (word, value) {
        ("args", value) => of_args(schema, name, value),
        ("return", Some(value)) => of_return(schema, name, value),
        ("event", Some(value)) => of_event(schema, name, value),
        ("type", Some(value)) => of_type(schema, name, value),
        _ => Err(Fail::from("no such call")),
    }
}

fn is_told(
    alloc: Global,
    schema: &Schema,
    value: Option<&Json>,
    (fault, path): (Fault, PathList),
    wanted: &str,
) -> Result<bool, Fail> {
    let (word, way) = wanted.split_once(" ").unwrap_or((wanted, ""));
    let text = path_text(alloc, schema, value, &path)?;
    Ok(word == word_of(fault) && way.as_bytes() == text.as_slice())
}

/// Whether the answer of a call is this one: `yes`, or the fault, and where the way to it has a
/// step, a blank and the way.
pub fn is_answer(
    alloc: Global,
    schema: &Schema,
    call: &str,
    value: Option<&Json>,
    wanted: &str,
) -> Result<bool, Fail> {
    match verdict(schema, call, value)? {
        Verdict::Yes => Ok(wanted == "yes"),
        Verdict::No(fault, path) => is_told(alloc, schema, value, (fault, path), wanted),
    }
}
