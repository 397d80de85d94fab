//! Texts that nest deeply, what they leave in memory, and objects of many keys.

use crate::parsing;
use crate::rows::{Asked, other_answers};
use std::fs;
use std::rt::Files;
use std::test::Fail;

/// Each text by what stands before, the opener, what stands innermost, the closer, and what stands
/// after.
const NESTS: &str = "\
ok 1 |{ 'pragma': { 'a': |[||]|} }
ok 1 |{ 'pragma': { 'a': |[true,|[]|]|} }
ok 1 |{ 'pragma': { 'a': |[|{}|,{'b':[]}]|} }
ok 1 |{ 'event': 'A', 'if': |{'not':|'B'|}|}
wrong-shape 1 data |{ 'struct': 'A', 'data': |[||]|}
syntax 1  |{ 'struct': 'A', 'data': |[||]|]
syntax 1  |{ 'struct': 'A', 'data': |[|||}
syntax 1  |{ 'pragma': |{'a':|true|}|
";

fn repeat(text: &mut Vec<u8>, piece: &str) -> Result<(), Fail> {
    for _ in 0..325_000 {
        text.extend_from_slice(piece.as_bytes())?;
    }
    Ok(())
}

/// The text of a row's parts, in which the opener and the closer stand so many times.
fn nested(rt: &impl AllocGlobal, parts: &str) -> Result<Vec<u8>, Fail> {
    let mut text = Vec::new(rt.alloc());
    for (i, part) in parts.split("|").enumerate() {
        if i == 1 || i == 3 {
            repeat(&mut text, part)?;
        } else {
            text.extend_from_slice(part.as_bytes())?;
        }
    }
    Ok(text)
}

/// How many expressions the text of the parts has, or its first fault.
pub fn answer(rt: &impl AllocGlobal, parts: &str) -> Result<String, Fail> {
    let text = nested(rt, parts)?;
    parsing::answer(rt, text.as_slice())
}

/// How many pages of memory the process has in use.
fn pages(rt: &(impl Files + AllocGlobal)) -> Result<u64, Fail> {
    let text = fs::read_to_string(rt, "/proc/self/statm")?;
    let mut counts = text.split(" ");
    let _ = counts.next();
    Ok(counts.next().unwrap_or("").parse::<u64>()?)
}

/// Of each text the expression or what was open takes some 40 MB, which is let go.
#[test]
fn nesting_has_no_bound_and_leaves_nothing(rt: HostRuntime) -> Result<(), Fail> {
    assert_eq!(rt; other_answers(&rt, Asked::Nested, NESTS)?.as_str(), "");
    let before = pages(&rt)?;
    assert_eq!(rt; other_answers(&rt, Asked::Nested, NESTS)?.as_str(), "");
    let after = pages(&rt)?;
    let more = after.saturating_sub(before);
    assert!(rt;
        before > 0 && more < 4_000,
        "{before} pages, and then {more} more"
    );
    Ok(())
}

/// A pragma of so many members of keys of one beginning, and one more.
fn pragma(rt: &impl AllocGlobal, keys: u32, last: &str) -> Result<String, Fail> {
    let mut text = String::new(rt.alloc());
    text.push_str("{ 'pragma': {")?;
    for key in 0..keys {
        let member = format!(in rt.alloc(); "'a-common-prefix-{key}': true,")?;
        text.push_str(member.as_str())?;
    }
    text.push_str(last)?;
    Ok(text)
}

#[test]
fn an_object_has_many_keys(rt: HostRuntime) -> Result<(), Fail> {
    let text = pragma(&rt, 200_000, "\n'a-common-prefix-7': true } }")?;
    let given = parsing::answer(&rt, text.as_bytes())?;
    assert_eq!(rt; given.as_str(), "duplicate-key 2 a-common-prefix-7 ");
    Ok(())
}
