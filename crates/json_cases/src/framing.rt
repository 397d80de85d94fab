//! Streams of bytes, the frames that they have, and where reading goes on after a fault.

use crate::tables::{expect, expect_told, rows};
use qm_frame::{FrameFault, Framer, Step};
use std::process::Abort;
use std::test::Fail;

/// Streams, each with a line for each of its frames.
const STREAMS: &str = r#"
%20%09%0D%0A
{} [1] | {}%0A[1]%0A
}{} | unbalanced%0A{}%0A
"x%0A{} | lex error%0A{}%0A
{%FE}{} | lex error%0Aunbalanced%0A{}%0A
{"a%09b"}%0A{} | lex error%0A{}%0A
{"a\%0A{} | lex error%0A{}%0A
[T]%0A{} | lex error%0A{}%0A
{"execute":"quit"
{"a%0A{} | lex error%0A{}%0A
{ "exec%FF{"execute":"qmp_capabilities"}%0A | lex error%0A{"execute":"qmp_capabilities"}%0A
[1E] | [1E]%0A
[E]%0A | lex error%0A
[+1]%0A | lex error%0A
{'}"'} | {'}"'}%0A
["\"]"] | ["\"]"]%0A
[}{] | [}%0A{]%0A
7 {}%0A[] | lex error%0A[]%0A
[-2.5e+3,true]%0A{'a':[{}],"b":"\u0041"} | [-2.5e+3,true]%0A{'a':[{}],"b":"\u0041"}%0A
[1,+2]%0A[2] | lex error%0A[2]%0A
[1+,2E-]{} | [1+,2E-]%0A{}%0A
[nullnull1true]%00[] | [nullnull1true]%0Alex error%0A[]%0A
[1a2b]{} | [1a2b]%0A{}%0A
["\\"]["\""] | ["\\"]%0A["\""]%0A
['\\']['] | ['\\']%0A
{[}][{]} | {[}]%0A[{]}%0A
[%09%0D%0A ]%09[%0B][] | [%09%0D%0A ]%0Alex error%0Aunbalanced%0A[]%0A
nul{}%0A{}x}%0A] | lex error%0A{}%0Alex error%0Aunbalanced%0A
["%C3%A9%7F"][%C3]%0A{} | ["%C3%A9%7F"]%0Alex error%0A{}%0A
[1:2,,3}%FE%FF[ | [1:2,,3}%0Alex error%0Alex error%0A
"#;

fn name_of(fault: FrameFault) -> &'static str {
    match fault {
        FrameFault::LexError => "lex error",
        FrameFault::Unbalanced => "unbalanced",
        FrameFault::TooDeep => "too deep",
        FrameFault::TooLong => "too long",
    }
}

/// A line for each frame of the bytes: the message, or the name of the fault.
fn frames(rt: &impl AllocGlobal, bytes: &[u8]) -> Result<Vec<u8>, Fail> {
    let mut framer = Framer::new(rt.alloc())?;
    let mut lines = Vec::new(rt.alloc());
    for &byte in bytes {
        match framer.push(byte) {
            Step::More => continue,
            Step::Frame => lines.extend_from_slice(framer.frame())?,
            Step::Bad(fault) => lines.extend_from_slice(name_of(fault).as_bytes())?,
        }
        lines.push(b'\n')?;
    }
    Ok(lines)
}

#[test]
fn streams_have_their_frames(rt: HostRuntime) -> Result<(), Fail> {
    let rows = rows(&rt, STREAMS)?;
    for row in &rows {
        let lines = frames(&rt, row.case.as_slice())?;
        expect_told(&rt, row, lines.as_slice());
    }
    assert_eq!(rt; rows.len(), 31);
    Ok(())
}

/// So many opening brackets, and so many closing ones.
pub(crate) fn nested(
    rt: &impl AllocGlobal,
    openers: usize,
    closers: usize,
) -> Result<Vec<u8>, Fail> {
    let mut bytes = Vec::new(rt.alloc());
    for _ in 0..openers {
        bytes.push(b'[')?;
    }
    for _ in 0..closers {
        bytes.push(b']')?;
    }
    Ok(bytes)
}

/// Asserts that the lines of a stream are the stream and a line feed.
fn expect_one(rt: &(impl Abort + AllocGlobal), mut message: Vec<u8>) -> Result<(), Fail> {
    let lines = frames(rt, message.as_slice())?;
    message.push(b'\n')?;
    assert!(rt; lines.as_slice() == message.as_slice());
    Ok(())
}

/// Asserts that a stream has these lines.
fn expect_lines(rt: &(impl Abort + AllocGlobal), stream: Vec<u8>, told: &[u8]) -> Result<(), Fail> {
    let lines = frames(rt, stream.as_slice())?;
    expect(rt, lines.as_slice(), told);
    Ok(())
}

#[test]
fn nesting_has_a_limit(rt: HostRuntime) -> Result<(), Fail> {
    expect_one(&rt, nested(&rt, 128, 128)?)?;
    expect_lines(&rt, nested(&rt, 129, 129)?, b"too deep\n")
}

/// A text, so many letters, a quotation mark and a closing brace.
pub(crate) fn with_letters(
    rt: &impl AllocGlobal,
    text: &[u8],
    letters: usize,
) -> Result<Vec<u8>, Fail> {
    let mut bytes = Vec::from_slice(rt.alloc(), text)?;
    for _ in 0..letters {
        bytes.push(b'a')?;
    }
    bytes.extend_from_slice(b"\"}")?;
    Ok(bytes)
}

/// A request to query the version under an id of so many letters, and then `{}`.
fn with_id(rt: &impl AllocGlobal, letters: usize) -> Result<Vec<u8>, Fail> {
    let text = b"{\"execute\":\"query-version\",\"id\":\"";
    let mut stream = with_letters(rt, text, letters)?;
    stream.extend_from_slice(b"\n{}")?;
    Ok(stream)
}

#[test]
fn requests_have_a_limit(rt: HostRuntime) -> Result<(), Fail> {
    let longest = with_id(&rt, 1_048_541)?;
    assert_eq!(rt; longest.len(), 1_048_579);
    expect_one(&rt, longest)?;
    expect_lines(&rt, with_id(&rt, 1_048_542)?, b"too long\n{}\n")
}
