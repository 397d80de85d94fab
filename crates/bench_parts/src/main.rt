//! Turns of a queue and raises of throttled events, to be timed; `bench/parts` times them.
#![tactic(auto)]

mod raises;
mod turns;

use qm_base::NoMemory;
use std::io::Write;
use std::process::ExitCode;
use std::{env, io};

const USAGE: &str = "bench_parts [turns SESSIONS TURNS | raises PORTS RAISES]";

fn gathered(rt: &HostRuntime) -> io::Result<Vec<String>> {
    let mut words = Vec::new(rt.alloc());
    for word in env::args(rt)? {
        words.push(word)?;
    }
    Ok(words)
}

/// Prints what a run counts. Status 1 is for want of memory.
fn answer(rt: &HostRuntime, counted: Result<u64, NoMemory>) -> io::Result<ExitCode> {
    let Ok(count) = counted else {
        return Ok(ExitCode::from(1));
    };
    println!(rt; "{count}")?;
    Ok(ExitCode::SUCCESS)
}

fn refused(rt: &HostRuntime) -> io::Result<ExitCode> {
    eprintln!(rt; "{USAGE}")?;
    Ok(ExitCode::from(2))
}

fn main(rt: HostRuntime) -> io::Result<ExitCode> {
    let words = gathered(&rt)?;
    match words.as_slice() {
        [] | [_] => Ok(ExitCode::SUCCESS),
        [_, way, sessions, turns] if way.as_str() == "turns" => {
            match (sessions.as_str().parse(), turns.as_str().parse()) {
                (Ok(sessions), Ok(turns)) => answer(&rt, turns::run(rt.alloc(), sessions, turns)),
                _ => refused(&rt),
            }
        }
        [_, way, ports, raises] if way.as_str() == "raises" => {
            match (ports.as_str().parse(), raises.as_str().parse()) {
                (Ok(ports), Ok(raises)) => answer(&rt, raises::run(rt.alloc(), ports, raises)),
                _ => refused(&rt),
            }
        }
        _ => refused(&rt),
    }
}
