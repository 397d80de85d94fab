//! A session from its opening to its end, and one that overruns beside another.

use crate::playing::{GREETING, answer_text, line_at, opened, taken};
use crate::worlds::prelude_world;
use qm_base::Text;
use qm_core::{Cause, Limits, MOST_TEXT, Monitor, StepFault};
use std::alloc::Global;
use std::process::Abort;
use std::test::Fail;

/// Whether nothing runs, and one input of the session was admitted.
fn has_answered_one(monitor: &Monitor) -> bool {
    monitor.running() == None && monitor.is_known(1) && monitor.admitted(1) == 1
}

fn open(alloc: Global, monitor: &mut Monitor) -> Result<u32, Fail> {
    Ok(monitor.open(alloc)?)
}

/// The session that a new monitor opens.
fn first_session(alloc: Global) -> Result<u32, Fail> {
    let limits = Limits {
        entries: 8,
        text: 1000,
    };
    let mut monitor = Monitor::new(alloc, prelude_world(alloc)?, limits)?;
    open(alloc, &mut monitor)
}

fn end_and_drop(monitor: &mut Monitor) -> Result<(), Fail> {
    monitor.end(1)?;
    monitor.drop_session(1, Cause::Ended)?;
    Ok(())
}

/// Whether the session is closed, and the journal has so many entries.
fn is_closed_after(monitor: &Monitor, entries: usize) -> bool {
    monitor.is_closed(1) && monitor.journal().len() == entries
}

const REPLY: &str =
    r#"{"error": {"class": "GenericError", "desc": "QMP input lacks member 'execute'"}}"#;

fn play(rt: &(impl Abort + AllocGlobal), monitor: &mut Monitor) -> Result<(), Fail> {
    answer_text(rt.alloc(), monitor, b"{}", 5)?;
    assert!(rt; has_answered_one(monitor));
    let lines = taken(monitor)?;
    assert_eq!(rt; lines.len(), 2);
    assert_eq!(rt; line_at(&lines, 0), GREETING.as_bytes());
    assert_eq!(rt; line_at(&lines, 1), REPLY.as_bytes());
    end_and_drop(monitor)?;
    assert!(rt; is_closed_after(monitor, 7));
    Ok(())
}

#[test]
fn a_session_from_opening_to_end(rt: HostRuntime) -> Result<(), Fail> {
    let limits = Limits {
        entries: 8,
        text: 1000,
    };
    assert_eq!(rt; first_session(rt.alloc())?, 1);
    let mut monitor = opened(rt.alloc(), limits)?;
    play(&rt, &mut monitor)
}

/// A request whose reply has its id of 4,194,304 bytes.
fn long_request(alloc: Global) -> Result<Text, Fail> {
    let mut id = Text::of(alloc, b"a")?;
    for _ in 0..22 {
        let half = id.copy(alloc)?;
        id.extend(half.as_slice())?;
    }
    let mut text = Text::of(alloc, b"{\"id\": \"")?;
    text.extend(id.as_slice())?;
    text.extend(b"\"}")?;
    Ok(text)
}

/// Answers such a request, and tells whether the session has overrun.
fn overruns(alloc: Global, monitor: &mut Monitor) -> Result<bool, Fail> {
    let request = long_request(alloc)?;
    answer_text(alloc, monitor, request.as_slice(), 0)?;
    Ok(monitor.is_overrun(1))
}

/// Ends the session, which may not be dropped as drained, and drops it as overrun.
fn drop_overrun(monitor: &mut Monitor) -> Result<bool, Fail> {
    monitor.end(1)?;
    let drained = monitor.drop_session(1, Cause::Ended);
    monitor.drop_session(1, Cause::Overrun)?;
    Ok(matches!(drained, Err(StepFault::NotDrained)))
}

/// Whether the second session is handed its greeting, and has not overrun.
fn goes_on(monitor: &mut Monitor) -> Result<bool, Fail> {
    let lines = monitor.take(2)?;
    Ok(lines.len() == 1 && !monitor.is_overrun(2))
}

fn overrun(rt: &(impl Abort + AllocGlobal), monitor: &mut Monitor) -> Result<(), Fail> {
    assert_eq!(rt; open(rt.alloc(), monitor)?, 2);
    for _ in 0..3 {
        assert!(rt; !overruns(rt.alloc(), monitor)?);
    }
    assert!(rt; overruns(rt.alloc(), monitor)?);
    assert_eq!(rt; taken(monitor)?.len(), 4);
    assert!(rt; goes_on(monitor)?);
    assert!(rt; drop_overrun(monitor)?);
    Ok(())
}

// Of 16,777,216 bytes that may be untaken, three of these replies take less, and four more.
#[test]
fn a_session_that_overruns(rt: HostRuntime) -> Result<(), Fail> {
    let limits = Limits {
        entries: 20,
        text: MOST_TEXT,
    };
    let mut monitor = opened(rt.alloc(), limits)?;
    overrun(&rt, &mut monitor)
}
