//! Real files and outputs that fail, and reads and writes that are interrupted.

ghost use Rattle.std.specs.Prelude.{◌≤◌, IfOk};

use crate::outside::{FileLibrary, OutSink, ReadFault, read_whole};
use qapi_load::{Library, LibraryFault};
use qm_link::{Sink, SinkFailed};
use std::fs::OpenOptions;
use std::io;
use std::io::{Error, ErrorKind, Read, Write};
use std::test::Fail;

/// A reader of letters and a writer: every second call is interrupted, and the others move one
/// byte each. After so many bytes the reader ends, and the writer fails.
#[derive(Drop)]
struct Interrupted {
    is_next: bool,
    left: u8,
}

impl Interrupted {
    fn moved(&mut self) -> io::Result<usize>
        ensures { IfOk result (λ n. n ≤ 1) }
    {
        self.is_next = !self.is_next;
        if self.is_next {
            return Err(Error::from(ErrorKind::Interrupted));
        }
        if self.left == 0 {
            return Ok(0);
        }
        self.left -= 1;
        Ok(1)
    }
}

impl Read for Interrupted {
    fn read(&mut self, buf: &mut [u8]) -> io::Result<usize> {
        if buf.is_empty() {
            return Ok(0);
        }
        buf[0] = b'a';
        self.moved()
    }
}

impl Write for Interrupted {
    fn write(&mut self, buf: &[u8]) -> io::Result<usize> {
        if buf.is_empty() {
            return Ok(0);
        }
        self.moved()
    }

    fn flush(&mut self) -> io::Result<()> {
        Ok(())
    }
}

#[test]
fn an_interrupted_call_is_tried_again(rt: HostRuntime) {
    let mut reader = Interrupted {
        is_next: false,
        left: 3,
    };
    assert!(rt;
        matches!(&read_whole(rt.alloc(), &mut reader), Ok(text) if text.as_slice() == b"aaa".as_slice())
    );
    let mut sink = OutSink::new(Interrupted {
        is_next: false,
        left: 3,
    });
    assert!(rt; sink.put(b"ab") == Ok(()));
    assert!(rt; sink.put(b"cd") == Err(SinkFailed));
}

#[test]
fn a_file_that_fails_to_be_read(rt: HostRuntime) {
    let mut library = FileLibrary::new(rt.alloc(), &rt);
    for name in ["/", "/proc/self/mem"] {
        assert!(rt;
            matches!(
                &library.text(rt.alloc(), name.as_bytes()),
                Err(LibraryFault::Failed)
            )
        );
    }
    assert!(rt; matches!(&library.text(rt.alloc(), b"/no/such/file"), Ok(None)));
    assert!(rt; matches!(&library.text(rt.alloc(), b"\xff"), Ok(None)));
    assert!(rt;
        matches!(&library.text(rt.alloc(), b"/dev/null"), Ok(Some(text)) if text.is_empty())
    );
}

#[test]
fn an_output_that_fails(rt: HostRuntime) -> Result<(), Fail> {
    let full = OpenOptions::new().write(true).open(&rt, "/dev/full")?;
    let mut sink = OutSink::new(full);
    assert!(rt; sink.put(b"a") == Err(SinkFailed));
    let (reader, writer) = io::pipe(&rt)?;
    let mut sink = OutSink::new(writer);
    assert!(rt; sink.put(b"a") == Ok(()));
    drop(reader);
    assert!(rt; sink.put(b"b") == Err(SinkFailed));
    Ok(())
}
