//! A run of reading a schema's text, of judging and sealing a table, of admitting a value or of
//! introspection, to be timed; `bench/schema` times it.
#![tactic(auto)]

mod reading;
mod repeating;
mod tables;

use reading::read;
use repeating::repeated;
use std::env;
use std::io::{self, Read};
use std::process::ExitCode;
use tables::sealed;

const USAGE: &str =
    "bench_schema [lex|parse|load|plain N|chain N|bases N|value N|admit N|introspect N]";

fn gathered(rt: &HostRuntime) -> io::Result<Vec<String>> {
    let mut words = Vec::new(rt.alloc());
    for word in env::args(rt)? {
        words.push(word)?;
    }
    Ok(words)
}

fn refused(rt: &HostRuntime) -> io::Result<ExitCode> {
    eprintln!(rt; "{USAGE}")?;
    Ok(ExitCode::from(2))
}

/// Shows a number; status 1 is for want of memory, and for a text or a table that is refused.
fn shown(rt: &HostRuntime, count: Option<usize>) -> io::Result<ExitCode> {
    let Some(count) = count else {
        return Ok(ExitCode::from(1));
    };
    println!(rt; "{count}")?;
    Ok(ExitCode::SUCCESS)
}

/// What stands on standard input.
fn given(rt: &HostRuntime) -> io::Result<Vec<u8>> {
    let mut given = Vec::new(rt.alloc());
    rt.reader().read_to_end(&mut given)?;
    Ok(given)
}

/// A run by a number: over a text on standard input so many times, or over a table of that size.
fn counted(rt: &HostRuntime, way: &str, count: u32) -> io::Result<ExitCode> {
    match way {
        "value" | "admit" | "introspect" => {
            let given = given(rt)?;
            shown(rt, repeated(rt.alloc(), way, given.as_slice(), count))
        }
        shape => shown(rt, sealed(rt.alloc(), shape, count)),
    }
}

fn main(rt: HostRuntime) -> io::Result<ExitCode> {
    let words = gathered(&rt)?;
    match words.as_slice() {
        [] | [_] => Ok(ExitCode::SUCCESS),
        [_, way] => {
            let given = given(&rt)?;
            shown(&rt, read(rt.alloc(), way.as_str(), given.as_slice()))
        }
        [_, way, count] => match count.as_str().parse::<u32>() {
            Ok(count) => counted(&rt, way.as_str(), count),
            Err(_) => refused(&rt),
        },
        _ => refused(&rt),
    }
}
