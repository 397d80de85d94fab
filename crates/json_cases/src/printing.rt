//! Printed texts, with escapes as in RFC 8259, section 7, the greeting, and each call once.

use crate::reading::printed;
use crate::tables::{self, rows};
use qm_base::Text;
use qm_caps::{Mode, bound, greeting, version};
use qm_json::{Json, MemberFault, Members, has_member};
use sqlite_items::Items;
use std::alloc::Global;
use std::process::Abort;
use std::test::Fail;

/// The bytes of strings and their texts.
const STRINGS: &str = r#" | ""
query-version | "query-version"
a"b\c/d' | "a\"b\\c/d'"
%08%0C%0A%0D%09 | "\b\f\n\r\t"
%00%1F | "\u0000\u001F"
~%7F | "~\u007F"
%C3%A9 | "\u00E9"
%EF%BF%BF | "\uFFFF"
%F0%90%80%80 | "\uD800\uDC00"
%F0%9D%84%9E | "\uD834\uDD1E"
%F0%9F%98%80 | "\uD83D\uDE00"
%F4%8F%BF%BF | "\uDBFF\uDFFF"
a%FFb | "a\uFFFDb"
%E2%82 | "\uFFFD"
"#;

fn has_length(value: &Json, length: usize) -> bool {
    value.written_length() == length as u64
}

/// Asserts that a value is printed as this text.
fn expect(rt: &(impl Abort + AllocGlobal), value: Json, text: &[u8]) -> Result<(), Fail> {
    let out = printed(rt, &value)?;
    tables::expect(rt, out.as_slice(), text);
    assert!(rt; has_length(&value, text.len()));
    Ok(())
}

#[test]
fn strings_print_with_escapes(rt: HostRuntime) -> Result<(), Fail> {
    let rows = rows(&rt, STRINGS)?;
    for row in &rows {
        let value = Json::string(rt.alloc(), row.case.as_slice())?;
        expect(&rt, value, row.told.as_slice())?;
    }
    assert_eq!(rt; rows.len(), 14);
    Ok(())
}

#[test]
fn literals_print(rt: HostRuntime) -> Result<(), Fail> {
    expect(&rt, Json::Null, b"null")?;
    expect(&rt, Json::Bool(true), b"true")?;
    expect(&rt, Json::Bool(false), b"false")?;
    expect(&rt, Json::Arr(Items::new(rt.alloc())), b"[]")?;
    expect(&rt, Members::new(rt.alloc()).into_json(), b"{}")
}

#[test]
fn numbers_print(rt: HostRuntime) -> Result<(), Fail> {
    let least = b"-9223372036854775808";
    let greatest = b"18446744073709551615";
    expect(&rt, Json::Int(0), b"0")?;
    expect(&rt, Json::Int(-9223372036854775808), least)?;
    expect(&rt, Json::Int(18446744073709551615), greatest)?;
    let number = Text::of(rt.alloc(), b"-1.50E+2")?;
    expect(&rt, Json::Num(number), b"-1.50E+2")
}

const GREETING: &str =
    "{\"QMP\": {\"version\": {\"qemu\": {\"micro\": 0, \"minor\": 0, \"major\": 1}, \"package\": \"qmpd\"}, \"capabilities\": [\"oob\"]}}";

const VERSION: &str =
    "{\"qemu\": {\"micro\": 0, \"minor\": 0, \"major\": 1}, \"package\": \"qmpd\"}";

#[test]
fn a_greeting_is_printed(rt: HostRuntime) -> Result<(), Fail> {
    expect(&rt, greeting(rt.alloc())?, GREETING.as_bytes())?;
    expect(&rt, version(rt.alloc())?, VERSION.as_bytes())
}

fn is_same(value: &Json, other: &Json) -> bool {
    value.same(other)
}

#[test]
fn a_greeting_is_copied(rt: HostRuntime) -> Result<(), Fail> {
    let value = greeting(rt.alloc())?;
    let copied = value.copy(rt.alloc())?;
    assert!(rt; is_same(&copied, &value));
    assert!(rt; !is_same(&copied, &Json::Null));
    expect(&rt, copied, GREETING.as_bytes())
}

/// Whether a value has a member of the one name, and in that one of the other.
fn has_within(value: &Json, name: &[u8], inner: &[u8]) -> bool {
    match value.member(name) {
        Some(value) => value.member(inner).is_some(),
        None => false,
    }
}

#[test]
fn a_greeting_has_its_members(rt: HostRuntime) -> Result<(), Fail> {
    let value = greeting(rt.alloc())?;
    assert!(rt; value.member(b"QMP").is_some());
    assert!(rt; has_within(&value, b"QMP", b"version"));
    assert!(rt; !has_within(&value, b"QMP", b"QMP"));
    Ok(())
}

#[test]
fn modes_have_bounds(rt: HostRuntime) -> Result<(), Fail> {
    assert_eq!(rt; bound(Mode::Negotiating), 1);
    assert_eq!(rt; bound(Mode::Command), 1);
    assert_eq!(rt; bound(Mode::CommandOob), 8);
    Ok(())
}

/// Pushes a member of this name and number.
fn push(
    alloc: Global,
    members: &mut Members,
    name: &[u8],
    number: i128,
) -> Result<Result<(), MemberFault>, Fail> {
    let name = Text::of(alloc, name)?;
    Ok(members.push(name, Json::Int(number)))
}

/// Whether there is a member of the one name and none of the other.
fn has_one(members: &Members, name: &[u8], other: &[u8]) -> bool {
    has_member(members.as_slice(), name) && !has_member(members.as_slice(), other)
}

#[test]
fn a_name_is_taken_once(rt: HostRuntime) -> Result<(), Fail> {
    let mut members = Members::new(rt.alloc());
    assert!(rt; push(rt.alloc(), &mut members, b"id", 1)? == Ok(()));
    let again = push(rt.alloc(), &mut members, b"id", 2)?;
    assert!(rt; again == Err(MemberFault::Twice));
    assert!(rt; push(rt.alloc(), &mut members, b"ID", 3)? == Ok(()));
    assert!(rt; has_one(&members, b"ID", b"Id"));
    expect(&rt, members.into_json(), b"{\"id\": 1, \"ID\": 3}")
}
