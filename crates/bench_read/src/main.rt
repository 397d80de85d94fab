//! A run of framing, reading or printing over bytes in memory, to be timed; `bench/read` times it.
#![tactic(auto)]

mod load;
mod work;

use load::{Load, Shape};
use std::io::{Read, Write};
use std::process::ExitCode;
use std::{env, io};
use work::{Way, run};

const USAGE: &str = "bench_read [frame|read|print|show large|small|one|given]";

fn gathered(rt: &HostRuntime) -> io::Result<Vec<String>> {
    let mut words = Vec::new(rt.alloc());
    for word in env::args(rt)? {
        words.push(word)?;
    }
    Ok(words)
}

/// Runs one way, or shows the bytes without one. Status 1 is for want of memory.
fn answer(rt: &HostRuntime, way: Option<Way>, shape: Shape) -> io::Result<ExitCode> {
    let mut given = Vec::new(rt.alloc());
    if matches!(shape, Shape::Given) {
        rt.reader().read_to_end(&mut given)?;
    }
    let Ok(load) = Load::of(rt.alloc(), shape, given.as_slice()) else {
        return Ok(ExitCode::from(1));
    };
    let Some(way) = way else {
        io::writer(rt).write_all(load.block.as_slice())?;
        return Ok(ExitCode::SUCCESS);
    };
    let Ok(count) = run(rt.alloc(), way, &load) else {
        return Ok(ExitCode::from(1));
    };
    println!(rt; "{count}")?;
    Ok(ExitCode::SUCCESS)
}

fn refused(rt: &HostRuntime) -> io::Result<ExitCode> {
    eprintln!(rt; "{USAGE}")?;
    Ok(ExitCode::from(2))
}

fn main(rt: HostRuntime) -> io::Result<ExitCode> {
    let words = gathered(&rt)?;
    match words.as_slice() {
        [] | [_] => Ok(ExitCode::SUCCESS),
        [_, way, shape] => {
            let way = way.as_str();
            match (Way::of(way), Shape::named(shape.as_str())) {
                (None, Some(shape)) if way == "show" => answer(&rt, None, shape),
                (Some(way), Some(shape)) => answer(&rt, Some(way), shape),
                _ => refused(&rt),
            }
        }
        _ => refused(&rt),
    }
}
