//! Texts that are read, with their values as they are printed; the pair of surrogates is that of
//! RFC 8259, section 7.

use crate::framing::{nested, with_letters};
use crate::tables::{expect, expect_told, rows};
use qm_base::Text;
use qm_frame::{MAX_DEPTH, MAX_LENGTH};
use qm_json::Json;
use qm_read::{JsonFault, Taken, read};
use std::alloc::Global;
use std::process::Abort;
use std::test::Fail;

/// Texts and their values as they are printed.
const VALUES: &str = r#"{"execute":"query-version"} | {"execute": "query-version"}
{'execute':'quit','id':7} | {"execute": "quit", "id": 7}
%20%09%0D%0A[ ] %0A | []
[null,true , false] | [null, true, false]
{"a":{"b":[{}]}} | {"a": {"b": [{}]}}
{"execute":"nope","id":{"a":[1.50]}} | {"execute": "nope", "id": {"a": [1.50]}}
1.50 | 1.50
[-0, 0, -7, 1e2, -0.0] | [0, 0, -7, 1e2, -0.0]
-9223372036854775808 | -9223372036854775808
18446744073709551615 | 18446744073709551615
18446744073709551616 | 18446744073709551616
"%C3%A9" | "\u00E9"
'\u00e9' | "\u00E9"
"\uD834\uDD1E" | "\uD834\uDD1E"
"%F0%9D%84%9E%EF%BF%BE" | "\uD834\uDD1E\uFFFE"
"\"\'\\\/\b\f\n\r\t\u0000" | "\"'\\/\b\f\n\r\t\u0000"
'"' | "\""
"'" | "'"
"" | ""
{"":1," ":2} | {"": 1, " ": 2}
"%7F" | "\u007F"
{'a':0,'b':0,'c':0,'d':0,'e':0,'f':0,'g':0,'h':0,'i':0,'j':{'a':0}} | {"a": 0, "b": 0, "c": 0, "d": 0, "e": 0, "f": 0, "g": 0, "h": 0, "i": 0, "j": {"a": 0}}
'one\ttwo %C3%A9"three' | "one\ttwo \u00E9\"three"
"#;

/// The text of a value.
pub(crate) fn printed(rt: &impl AllocGlobal, value: &Json) -> Result<Text, Fail> {
    let mut out = Text::new(rt.alloc());
    value.write_text(&mut out)?;
    Ok(out)
}

/// The name and the place of a fault.
fn told(rt: &impl AllocGlobal, fault: JsonFault) -> Result<Text, Fail> {
    let name = format!(in rt.alloc(); "{fault:?}")?;
    Ok(Text::of(rt.alloc(), name.as_bytes())?)
}

/// The printed value of a text, or its first fault.
fn answer(rt: &impl AllocGlobal, text: &[u8]) -> Result<Text, Fail> {
    match read(rt.alloc(), text) {
        Ok(value) => printed(rt, &value),
        Err(fault) => told(rt, fault),
    }
}

/// Asserts that the text of each row is read as what the row tells, and counts the rows.
pub(crate) fn expect_rows(rt: &(impl Abort + AllocGlobal), table: &str) -> Result<usize, Fail> {
    let rows = rows(rt, table)?;
    for row in &rows {
        let answer = answer(rt, row.case.as_slice())?;
        expect_told(rt, row, answer.as_slice());
    }
    Ok(rows.len())
}

#[test]
fn values_are_read(rt: HostRuntime) -> Result<(), Fail> {
    assert_eq!(rt; expect_rows(&rt, VALUES)?, 23);
    Ok(())
}

fn is_read(alloc: Global, text: &[u8]) -> bool {
    read(alloc, text).is_ok()
}

#[test]
fn nesting_has_its_limit(rt: HostRuntime) -> Result<(), Fail> {
    let deepest = nested(&rt, MAX_DEPTH, MAX_DEPTH)?;
    assert!(rt; is_read(rt.alloc(), deepest.as_slice()));
    let deeper = nested(&rt, 129, 129)?;
    let answer = answer(&rt, deeper.as_slice())?;
    expect(&rt, answer.as_slice(), b"Expected(128)");
    Ok(())
}

#[test]
fn requests_of_the_greatest_length_are_read(rt: HostRuntime) -> Result<(), Fail> {
    let text = with_letters(&rt, b"{\"execute\":\"query-version\",\"id\":\"", 1_048_541)?;
    let told = with_letters(
        &rt,
        b"{\"execute\": \"query-version\", \"id\": \"",
        1_048_541,
    )?;
    assert_eq!(rt; text.len(), MAX_LENGTH);
    let answer = answer(&rt, text.as_slice())?;
    assert!(rt; answer.as_slice() == told.as_slice());
    Ok(())
}

/// Whether a message is taken as a value.
fn is_value(alloc: Global, message: &[u8]) -> Result<bool, Fail> {
    Ok(matches!(Taken::of_message(alloc, message)?, Taken::Value(_)))
}

/// Whether a message is taken as a text with its first fault at byte 1.
fn is_bad_at_1(alloc: Global, message: &[u8]) -> Result<bool, Fail> {
    let taken = Taken::of_message(alloc, message)?;
    Ok(matches!(taken, Taken::BadText(JsonFault::Expected(1))))
}

#[test]
fn messages_are_taken(rt: HostRuntime) -> Result<(), Fail> {
    assert!(rt; is_value(rt.alloc(), b"{}")?);
    assert!(rt; is_bad_at_1(rt.alloc(), b"{]")?);
    Ok(())
}
