ghost use Rattle.std.specs.Prelude.{◌≡◌, ◌≢◌, ◌+◌, ◌<◌, ◌≤◌, ◌++◌, ◌^◌, ◌&&◌, length, drop, slice_index, IsTrue, IfOk, IfSome, IsSome, OnOk, Ok, Err};
ghost use Rattle.std.specs.Char as chars;
ghost use Rattle.std.specs.Char.Utf16.{is_high_surrogate as is_high, is_low_surrogate as is_low};
ghost use Rattle.std.specs.Str as str;
ghost use Rattle.qm_read.specs.Escapes as escapes;
ghost use Rattle.qm_read.specs.Progress.{Advances, decoded_from};
ghost use Rattle.qm_read.specs.Strings as strings;
ghost use Rattle.qm_read.specs.Strings.{text_in, more_in};

use crate::JsonFault;
use crate::spans::{Span, span_length};
use qm_base::{NoMemory, Text};
use std::alloc::Global;

/// A part of a string: bytes that stand for themselves, or an escape and its character; with how
/// many bytes it has after the first.
#[derive(Clone, Copy, Drop)]
pub enum Part {
    Same(usize),
    Char(char, usize),
}

fn digit_value(byte: u8) -> u16
    ensures { result ≡ chars.digit_value byte }
{
    let code = byte as u16;
    if code < 48 {
        36
    } else if code < 58 {
        code - 48
    } else if code < 65 {
        36
    } else if code < 91 {
        code - 55
    } else if code < 97 {
        36
    } else if code < 123 {
        code - 87
    } else {
        36
    }
}

fn is_hex(byte: u8) -> bool
    ensures value { result ≡ escapes.is_hex byte }
    ensures small { IsTrue result → chars.digit_value byte < 16 }
{
    digit_value(byte) < 16
}

fn are_hex(a: u8, b: u8, c: u8, d: u8) -> bool
    ensures value { result ≡ (escapes.is_hex a && escapes.is_hex b && escapes.is_hex c && escapes.is_hex d) }
    ensures first { IsTrue result → chars.digit_value a < 16 }
    ensures second { IsTrue result → chars.digit_value b < 16 }
    ensures third { IsTrue result → chars.digit_value c < 16 }
    ensures fourth { IsTrue result → chars.digit_value d < 16 }
{
    is_hex(a) && is_hex(b) && is_hex(c) && is_hex(d)
}

fn hex_of(text: &[u8]) -> Option<u16>
    ensures value { result ≡ escapes.hex_of text.now }
    ensures long { IfSome result (λ c. 4 ≤ length text.now) }
{
    match text {
        [a, b, c, d, ..] => {
            if are_hex(*a, *b, *c, *d) {
                let high = digit_value(*a) * 16 + digit_value(*b);
                Some((high * 16 + digit_value(*c)) * 16 + digit_value(*d))
            } else {
                None
            }
        }
        _ => None,
    }
}

fn unicode_of(text: &[u8]) -> Option<u16>
    ensures value { result ≡ escapes.unicode_of text.now }
    ensures long { IfSome result (λ c. 6 ≤ length text.now) }
{
    match text {
        [x, y, rest @ ..] => {
            if *x == b'\\' && *y == b'u' {
                hex_of(rest)
            } else {
                None
            }
        }
        _ => None,
    }
}

fn is_high_surrogate(unit: u16) -> bool
    ensures { result ≡ is_high unit }
{
    0xD800 <= unit && unit < 0xDC00
}

fn is_low_surrogate(unit: u16) -> bool
    ensures { result ≡ is_low unit }
{
    0xDC00 <= unit && unit < 0xE000
}

/// The part of an escape whose number is no surrogate's.
fn escaped_char(code: u32, more: usize) -> Part
    requires { chars.InScalarRange code }
    ensures { result ≡ Part.Char code more }
{
    match char::from_u32(code) {
        Some(c) => Part::Char(c, more),
        None => Part::Same(0),
    }
}

/// The part of two surrogates, the second of which follows at once.
fn pair_of(high: u16, low: Option<u16>, place: u64) -> Result<Part, JsonFault>
    ensures value { result ≡ escapes.pair_of place high low }
    ensures long { IfOk result (λ p. IsSome low × (more_in p ≡ 11)) }
{
    match low {
        None => Err(JsonFault::BadEscape(place)),
        Some(low) => {
            if is_high_surrogate(high) && is_low_surrogate(low) {
                let code = 0x1_0000 + (high as u32 - 0xD800) * 0x400 + (low as u32 - 0xDC00);
                Ok(escaped_char(code, 11))
            } else {
                Err(JsonFault::BadEscape(place))
            }
        }
    }
}

/// The part of an escape by what follows its `\u`.
fn unicode_escape(text: &[u8], place: u64) -> Result<Part, JsonFault>
    ensures value { result ≡
        escapes.unicode_escape place (escapes.hex_of text.now) (drop 4 text.now) }
    ensures long { IfOk result (λ p. more_in p ≤ length text.now + 1) }
{
    match hex_of(text) {
        None => Err(JsonFault::BadEscape(place)),
        Some(c) => {
            if is_high_surrogate(c) || is_low_surrogate(c) {
                pair_of(c, unicode_of(past(text, 4)), place)
            } else {
                Ok(escaped_char(c as u32, 5))
            }
        }
    }
}

/// What a backslash and this byte stand for.
fn escaped_byte(byte: u8) -> Option<u8>
    ensures { result ≡ escapes.escaped_byte byte }
{
    if byte == b'"' || byte == b'\'' || byte == b'\\' || byte == b'/' {
        Some(byte)
    } else if byte == b'b' {
        Some(8)
    } else if byte == b'f' {
        Some(12)
    } else if byte == b'n' {
        Some(10)
    } else if byte == b'r' {
        Some(13)
    } else if byte == b't' {
        Some(9)
    } else {
        None
    }
}

/// What stands after so many bytes.
pub fn past(text: &[u8], count: usize) -> &[u8]
    ensures { result.now ≡ drop count text.now }
{
    if count < text.len() {
        &text[count..]
    } else {
        &[]
    }
}

/// The part whose backslash stands before these bytes.
fn escape(rest: &[u8], place: u64) -> Result<Part, JsonFault>
    ensures value { result ≡ escapes.escape place rest.now }
    ensures long { IfOk result (λ p. more_in p ≤ length rest.now) }
{
    match rest {
        [] => Err(JsonFault::BadEscape(place)),
        [x, rest @ ..] => {
            if *x == b'u' {
                unicode_escape(rest, place)
            } else {
                match escaped_byte(*x) {
                    Some(c) => Ok(Part::Char(c as char, 1)),
                    None => Err(JsonFault::BadEscape(place)),
                }
            }
        }
    }
}

fn continuation_len(byte: u8) -> usize
    ensures value { result ≡ str.continuation_len byte }
    ensures small { result ≤ 3 }
{
    if byte < 128 {
        0
    } else if byte < 224 {
        1
    } else if byte < 240 {
        2
    } else {
        3
    }
}

fn is_utf8(bytes: &[u8]) -> bool
    ensures { result ≡ str.is_utf8 bytes.now }
{
    match str::from_utf8(bytes) {
        Ok(_) => true,
        Err(_) => false,
    }
}

/// The part that is the character at the front.
#[tactic(auto, using(crate::proofs::StringLemmas::character_ascii))]
fn character(bytes: &[u8], place: u64) -> Result<Part, JsonFault>
    requires { 0 < length bytes.now }
    ensures value { result ≡ strings.character place (slice_index bytes.now 0) (drop 1 bytes.now) }
    ensures long { IfOk result (λ p. more_in p < length bytes.now) }
{
    let first = bytes[0];
    if first < 0x80 {
        return Ok(Part::Same(0));
    }
    let more = continuation_len(first).min(bytes.len() - 1);
    if is_utf8(&bytes[..more + 1]) {
        Ok(Part::Same(more))
    } else {
        Err(JsonFault::BadUtf8(place))
    }
}

/// The part at the front of these bytes.
fn first_part(bytes: &[u8], place: u64) -> Result<Part, JsonFault>
    requires { 0 < length bytes.now }
    ensures value { result ≡ strings.part place (slice_index bytes.now 0) (drop 1 bytes.now) }
    ensures long { IfOk result (λ p. more_in p < length bytes.now) }
{
    if bytes[0] == b'\\' {
        escape(past(bytes, 1), place)
    } else {
        character(bytes, place)
    }
}

/// Appends what a part at the front of these bytes stands for.
fn append(text: &mut Text, bytes: &[u8], part: Part) -> Result<(), NoMemory>
    requires { more_in part < length bytes.now }
    ensures { OnOk result (text.new ≡ text.old ++ text_in part bytes.now) }
{
    match part {
        Part::Same(more) => text.extend(&bytes[..more + 1]),
        Part::Char(c, _) => {
            let mut buffer = [0u8; 4];
            text.extend(c.encode_utf8(&mut buffer).as_bytes())
        }
    }
}

fn length_after_first(part: Part) -> usize
    ensures { result ≡ more_in part }
{
    match part {
        Part::Same(more) => more,
        Part::Char(_, more) => more,
    }
}

/// Appends what the first of these bytes stand for, and answers how many they are: bytes that stand
/// for themselves are taken as a run, any other part alone.
#[tactic(auto, using(crate::proofs::StringLemmas::plain_taken, crate::proofs::StringLemmas::part_taken))]
fn take_part(text: &mut Text, bytes: &[u8], place: u64) -> Result<usize, JsonFault>
    requires { 0 < length bytes.now }
    ensures { Advances decoded_from text.old place bytes.now result text.new }
{
    let count = span_length(Span::Plain(b'\\'), bytes);
    if count > 0 {
        text.extend(&bytes[..count])?;
        return Ok(count);
    }
    let part = first_part(bytes, place)?;
    append(text, bytes, part)?;
    Ok(1 + length_after_first(part))
}

/// What the bytes of a string stand for, whose quote stands at the start.
#[tactic(auto, using(crate::proofs::StringLemmas::no_parts))]
pub fn text_of(alloc: Global, raw: &[u8], start: u64) -> Result<Text, JsonFault>
    requires { start + 1 + length raw.now < 2 ^ 64 }
    ensures { result ≢ Err JsonFault.Memory → result ≡ strings.text_of start raw.now }
{
    let mut out = Text::new(alloc);
    let mut i = 0;
    while i < raw.len() {
        i += take_part(&mut out, past(raw, i), start + 1 + i as u64)?;
    }
    Ok(out)
}
