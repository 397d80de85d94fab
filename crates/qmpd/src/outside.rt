use qapi_load::{Library, LibraryFault};
use qm_base::{NoMemory, Text};
use qm_link::{Sink, SinkFailed};
use std::alloc::Global;
use std::io::{ErrorKind, Read, Write};
use std::rt::Files;
use std::{fs, str};

const MOST_BYTES: usize = 67_108_864;

/// Why a file was not read.
#[derive(Drop)]
pub enum ReadFault {
    /// There is none.
    Missing,
    /// Opening or reading it failed, or it is too long.
    Failed,
    /// No memory was left.
    Memory,
}

impl From<NoMemory> for ReadFault {
    fn from(_fault: NoMemory) -> ReadFault {
        ReadFault::Memory
    }
}

/// All bytes of a reader, 67,108,864 at most. An interrupted read is tried again.
pub fn read_whole<F: Read>(alloc: Global, file: &mut F) -> Result<Text, ReadFault> {
    let mut text = Text::new(alloc);
    let mut buffer = [0u8; 8192];
    for _ in 0..u64::MAX {
        let count = match file.read(&mut buffer) {
            Ok(count) => count,
            Err(fault) if fault.kind() == ErrorKind::Interrupted => continue,
            Err(_) => return Err(ReadFault::Failed),
        };
        if count == 0 {
            return Ok(text);
        }
        text.extend(&buffer[..count])?;
        if text.len() > MOST_BYTES {
            return Err(ReadFault::Failed);
        }
    }
    Err(ReadFault::Failed)
}

fn read_file<R: Files>(alloc: Global, rt: &R, name: &[u8]) -> Result<Text, ReadFault> {
    let Ok(path) = str::from_utf8(name) else {
        return Err(ReadFault::Missing);
    };
    match fs::open(rt, path) {
        Ok(mut file) => read_whole(alloc, &mut file),
        Err(fault) if fault.kind() == ErrorKind::NotFound => Err(ReadFault::Missing),
        Err(_) => Err(ReadFault::Failed),
    }
}

/// The files of the system by their paths. It tells no texts.
#[derive(Drop)]
pub struct FileLibrary<'a, R> {
    rt: &'a R,
    faults: u64,
    failed_name: Text,
}

impl<'a, R> FileLibrary<'a, R> {
    /// A library of which no call has failed.
    pub fn new(alloc: Global, rt: &'a R) -> FileLibrary<'a, R> {
        FileLibrary {
            rt,
            faults: 0,
            failed_name: Text::new(alloc),
        }
    }
}

impl<R: Files> Library for FileLibrary<'_, R> {
    ghost use Rattle.std.specs.Prelude.{None};

    ghost files = { λ _. None };

    ghost faults = { λ l. l.faults };

    ghost failed_name = { λ l. l.failed_name };

    fn text(&mut self, alloc: Global, name: &[u8]) -> Result<Option<Text>, LibraryFault> {
        match read_file(alloc, self.rt, name) {
            Ok(text) => Ok(Some(text)),
            Err(ReadFault::Missing) => Ok(None),
            Err(ReadFault::Memory) => Err(LibraryFault::Memory),
            Err(ReadFault::Failed) => {
                self.failed_name = Text::of(alloc, name)?;
                self.faults = self.faults.saturating_add(1);
                Err(LibraryFault::Failed)
            }
        }
    }
}

/// A writer, as standard output. It tells no bytes.
#[derive(Drop)]
pub struct OutSink<W> {
    writer: W,
    faults: u64,
}

impl<W> OutSink<W> {
    /// A sink of which no call has failed.
    pub fn new(writer: W) -> OutSink<W> {
        OutSink { writer, faults: 0 }
    }
}

impl<W: Write> Sink for OutSink<W> {
    ghost use Rattle.std.specs.Prelude.{None};

    ghost contents = { λ _. None };

    ghost faults = { λ s. s.faults };

    fn put(&mut self, piece: &[u8]) -> Result<(), SinkFailed> {
        if self.writer.write_all(piece).is_err() {
            self.faults = self.faults.saturating_add(1);
            return Err(SinkFailed);
        }
        Ok(())
    }
}
