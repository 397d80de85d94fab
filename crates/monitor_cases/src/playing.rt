//! What the cases share: a session that is opened, inputs, requests that are answered at once, and
//! lines that are handed out.

ghost use Rattle.std.specs.Prelude.{◌≤◌, IfOk};
ghost use Rattle.qm_core.specs.Inputs.{IsCleanInput};
ghost use Rattle.qm_core.specs.declared.TheConstants.{MOST_ENTRIES, MOST_TEXT};

use crate::worlds::prelude_world;
use qm_base::Shared;
use qm_core::{Input, Limits, LineList, Monitor, Offer, RequestName, Started};
use qm_read::read;
use std::alloc::Global;
use std::test::Fail;

/// The request that ends the negotiation.
pub(crate) const NEGOTIATION: &str = r#"{"execute": "qmp_capabilities"}"#;

/// The greeting, as it is printed.
pub(crate) const GREETING: &str =
    r#"{"QMP": {"version": {"qemu": {"micro": 0, "minor": 0, "major": 1}, "package": "qmpd"}, "capabilities": ["oob"]}}"#;

/// A monitor with these limits and no schema's file, whose session 1 was opened.
pub(crate) fn opened(alloc: Global, limits: Limits) -> Result<Monitor, Fail>
    requires some { 1 ≤ limits.entries }
    requires few { limits.entries ≤ MOST_ENTRIES }
    requires short { limits.text ≤ MOST_TEXT }
{
    let mut monitor = Monitor::new(alloc, prelude_world(alloc)?, limits)?;
    monitor.open(alloc)?;
    Ok(monitor)
}

/// The input of a text.
pub(crate) fn input(alloc: Global, text: &[u8]) -> Result<Input, Fail>
    ensures { IfOk result IsCleanInput }
{
    let value = read(alloc, text)?;
    Ok(Input::Doc(Shared::new(alloc, value)?))
}

/// Admits an input of the first session.
pub(crate) fn admit(alloc: Global, monitor: &mut Monitor, input: Input) -> Result<(), Fail>
    requires { IsCleanInput input }
{
    let mut offer = Offer::of(alloc, input)?;
    monitor.admit(1, &mut offer)?;
    Ok(())
}

/// Starts the request whose turn it is.
pub(crate) fn start(monitor: &mut Monitor) -> Result<RequestName, Fail> {
    let Started {
        session,
        number,
        ..
    } = monitor.start()?;
    Ok(RequestName { session, number })
}

fn start_and_finish(alloc: Global, monitor: &mut Monitor, moment: u64) -> Result<(), Fail> {
    let RequestName { session, number } = start(monitor)?;
    let plan = monitor.planned(alloc)?;
    monitor.finish(alloc, session, number, plan, moment)?;
    Ok(())
}

/// Admits an input of the first session, starts it, and finishes it at a moment.
pub(crate) fn answer(
    alloc: Global,
    monitor: &mut Monitor,
    input: Input,
    moment: u64,
) -> Result<(), Fail>
    requires { IsCleanInput input }
{
    admit(alloc, monitor, input)?;
    start_and_finish(alloc, monitor, moment)
}

/// Answers the request of a text.
pub(crate) fn answer_text(
    alloc: Global,
    monitor: &mut Monitor,
    text: &[u8],
    moment: u64,
) -> Result<(), Fail> {
    answer(alloc, monitor, input(alloc, text)?, moment)
}

/// The lines of the first session that are handed out.
pub(crate) fn taken(monitor: &mut Monitor) -> Result<LineList, Fail> {
    Ok(monitor.take(1)?)
}

/// Hands out the lines of the first session, and lets them go.
pub(crate) fn take(monitor: &mut Monitor) -> Result<(), Fail> {
    monitor.take(1)?;
    Ok(())
}

/// The text of the line at this place, from 0 on, or nothing.
pub(crate) fn line_at(lines: &LineList, place: usize) -> &[u8] {
    match lines.as_slice().get(place) {
        Some(line) => line.get().as_slice(),
        None => b"",
    }
}
