//! Numerals, and each call of texts, lists and shared values once.

use crate::tables::{expect, expect_told, rows};
use qm_base::{GrowingList, History, ReservedList, Shared, Text, are_digits, is_space, number};
use std::alloc::Global;
use std::test::Fail;

/// Texts and their values.
const NUMERALS: &str = "\
0 | Some(0)
7 | Some(7)
18446744073709551615 | Some(18446744073709551615)
 | None
00 | None
01 | None
+1 | None
-1 | None
18446744073709551616 | None
1a | None
";

/// The number of a text, as it is printed for debugging.
fn value(rt: &impl AllocGlobal, text: &[u8]) -> Result<String, Fail> {
    Ok(format!(in rt.alloc(); "{:?}", number(text))?)
}

#[test]
fn numerals_are_read(rt: HostRuntime) -> Result<(), Fail> {
    let rows = rows(&rt, NUMERALS)?;
    for row in &rows {
        let value = value(&rt, row.case.as_slice())?;
        expect_told(&rt, row, value.as_bytes());
    }
    assert_eq!(rt; rows.len(), 10);
    Ok(())
}

#[test]
fn bytes_have_their_kinds(rt: HostRuntime) {
    assert!(rt; are_digits(b"0123456789"));
    assert!(rt; !are_digits(b"1-"));
    assert!(rt; is_space(b'\t'));
    assert!(rt; !is_space(b'\x0B'));
}

/// A text of `ab`, to which the others were added.
fn abcde(alloc: Global) -> Result<Text, Fail> {
    let mut text = Text::of(alloc, b"ab")?;
    text.push(b'c')?;
    text.extend(b"de")?;
    Ok(text)
}

#[test]
fn a_text_grows(rt: HostRuntime) -> Result<(), Fail> {
    let text = abcde(rt.alloc())?;
    expect(&rt, text.as_slice(), b"abcde");
    assert_eq!(rt; text.len(), 5);
    assert!(rt; !text.is_empty());
    assert!(rt; Text::new(rt.alloc()).is_empty());
    Ok(())
}

fn is_same(text: &Text, other: &Text) -> bool {
    text.same(other)
}

#[test]
fn a_text_is_copied(rt: HostRuntime) -> Result<(), Fail> {
    let mut text = abcde(rt.alloc())?;
    let copied = text.copy(rt.alloc())?;
    assert!(rt; is_same(&copied, &text));
    text.push(b'f')?;
    assert!(rt; !is_same(&copied, &text));
    Ok(())
}

#[test]
fn a_value_is_shared(rt: HostRuntime) -> Result<(), Fail> {
    let first = Shared::new(rt.alloc(), 5u64)?;
    let second = first.again()?;
    assert_eq!(rt; *first.get(), 5);
    assert_eq!(rt; *second.get(), 5);
    History::new().note(&first);
    Ok(())
}

#[test]
fn a_reserved_list_is_filled(rt: HostRuntime) -> Result<(), Fail> {
    let mut reserved = ReservedList::new(rt.alloc(), 2)?;
    reserved.put(3u64);
    reserved.put(9u64);
    assert_eq!(rt; reserved.as_slice(), [3u64, 9u64].as_slice());
    assert_eq!(rt; reserved.len(), 2);
    Ok(())
}

/// A list of 3 and 9.
fn grown(alloc: Global) -> Result<GrowingList<u64>, Fail> {
    let mut growing = GrowingList::new(alloc);
    growing.push(3u64)?;
    growing.push(9u64)?;
    Ok(growing)
}

fn has(list: &GrowingList<u64>, value: u64) -> bool {
    list.has(value)
}

#[test]
fn a_list_grows(rt: HostRuntime) -> Result<(), Fail> {
    let growing = grown(rt.alloc())?;
    assert!(rt; has(&growing, 3));
    assert!(rt; has(&growing, 9));
    assert!(rt; !has(&growing, 4));
    let growing = GrowingList::from_vec(growing.into_vec());
    assert_eq!(rt; growing.as_slice(), [3u64, 9u64].as_slice());
    assert_eq!(rt; growing.len(), 2);
    Ok(())
}
