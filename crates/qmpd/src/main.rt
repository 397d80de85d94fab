//! qmpd: a monitor server that speaks the QEMU Machine Protocol.
#![tactic(auto)]

#[cfg(test)]
mod edge;
mod outside;

use outside::{FileLibrary, OutSink};
use qm_offline::run_offline;
use std::process::ExitCode;
use std::{env, io};

fn gathered(rt: &HostRuntime) -> io::Result<Vec<String>> {
    let mut words = Vec::new(rt.alloc());
    let mut is_name = true;
    for word in env::args(rt)? {
        if !is_name {
            words.push(word)?;
        }
        is_name = false;
    }
    Ok(words)
}

fn main(rt: HostRuntime) -> ExitCode {
    let mut library = FileLibrary::new(rt.alloc(), &rt);
    let mut sink = OutSink::new(io::writer(&rt));
    match gathered(&rt) {
        Ok(words) => ExitCode::from(run_offline(
            rt.alloc(),
            words.as_slice(),
            &mut library,
            &mut sink,
        )),
        Err(fault) => {
            if fault.kind() == io::ErrorKind::OutOfMemory {
                return ExitCode::from(1);
            }
            ExitCode::from(run_offline(rt.alloc(), &[], &mut library, &mut sink))
        }
    }
}
