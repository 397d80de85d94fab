//! Replies of each class, as they are printed.

ghost use Rattle.qm_core.specs.Inputs.{IsCleanInput};

use crate::playing::{NEGOTIATION, answer, answer_text, input, line_at, opened, take, taken};
use qm_core::{BadInput, FrameWord, Input, JsonWord, Limits, LineList, Monitor};
use std::alloc::Global;
use std::process::Abort;
use std::test::Fail;

/// Rows of whether it is before the negotiation or after it, a request and its reply.
const REPLIES: &str = r#"before | {"execute": "qmp_capabilities"} | {"return": {}}
after | {"execute": "query-version", "id": 7} | {"return": {"qemu": {"micro": 0, "minor": 0, "major": 1}, "package": "qmpd"}, "id": 7}
before | {"execute": "query-version"} | {"error": {"class": "CommandNotFound", "desc": "Expecting capabilities negotiation with 'qmp_capabilities'"}}
after | {"execute": "qmp_capabilities"} | {"error": {"class": "CommandNotFound", "desc": "Capabilities negotiation is already complete, command ignored"}}
after | {"execute": "nope", "id": {"a": null}} | {"error": {"class": "CommandNotFound", "desc": "The command nope has not been found"}, "id": {"a": null}}
after | {"exec-oob": "ping", "id": 1} | {"error": {"class": "GenericError", "desc": "QMP input member 'exec-oob' is unexpected"}, "id": 1}
before | {"id": "x"} | {"error": {"class": "GenericError", "desc": "QMP input lacks member 'execute'"}, "id": "x"}
after | {"execute": 1} | {"error": {"class": "GenericError", "desc": "QMP input member 'execute' must be a string"}}
after | {"execute": "query-version", "arguments": ""} | {"error": {"class": "GenericError", "desc": "QMP input member 'arguments' must be an object"}}
after | {"execute": "query-version", "arguments": {"a": null}} | {"error": {"class": "GenericError", "desc": "Parameter 'a' is unexpected"}}
after | [] | {"error": {"class": "GenericError", "desc": "QMP input must be a JSON object"}}
"#;

/// The lines that answer an input, before or after the negotiation.
fn answered(
    alloc: Global,
    monitor: &mut Monitor,
    negotiated: bool,
    input: Input,
) -> Result<LineList, Fail>
    requires { IsCleanInput input }
{
    if negotiated {
        answer_text(alloc, monitor, NEGOTIATION.as_bytes(), 0)?;
    }
    take(monitor)?;
    answer(alloc, monitor, input, 0)?;
    taken(monitor)
}

fn lines(alloc: Global, negotiated: bool, input: Input) -> Result<LineList, Fail>
    requires { IsCleanInput input }
{
    let limits = Limits {
        entries: 10,
        text: 10_000,
    };
    let mut monitor = opened(alloc, limits)?;
    answered(alloc, &mut monitor, negotiated, input)
}

/// Asserts that an input, before or after the negotiation, has this reply.
fn reply(
    rt: &(impl Abort + AllocGlobal),
    negotiated: bool,
    input: Input,
    line: &str,
) -> Result<(), Fail>
    requires { IsCleanInput input }
{
    let lines = lines(rt.alloc(), negotiated, input)?;
    assert_eq!(rt; lines.len(), 1);
    assert_eq!(rt; line_at(&lines, 0), line.as_bytes());
    Ok(())
}

fn expect_row(rt: &(impl Abort + AllocGlobal), row: &str) -> Result<(), Fail> {
    let (when, later) = row.split_once(" | ").unwrap_or(("", row));
    let (text, line) = later.split_once(" | ").unwrap_or((later, ""));
    let input = input(rt.alloc(), text.as_bytes())?;
    reply(rt, when == "after", input, line)
}

#[test]
fn values_are_answered(rt: HostRuntime) -> Result<(), Fail> {
    for row in REPLIES.lines() {
        expect_row(&rt, row)?;
    }
    assert_eq!(rt; REPLIES.lines().count(), 11);
    Ok(())
}

#[test]
fn bad_inputs_are_answered(rt: HostRuntime) -> Result<(), Fail> {
    let text = Input::Bad(BadInput::Json(JsonWord::Expected(12)));
    let told =
        r#"{"error": {"class": "GenericError", "desc": "Invalid JSON: syntax error at byte 12"}}"#;
    reply(&rt, true, text, told)?;
    let frame = Input::Bad(BadInput::Frame(FrameWord::LexError));
    let told = r#"{"error": {"class": "GenericError", "desc": "Invalid JSON: lexical error"}}"#;
    reply(&rt, false, frame, told)
}
