ghost use Rattle.std.specs.Prelude.{◌≡◌, ◌+◌, ◌<◌, ◌≤◌, ◌^◌, false, ◌∷◌, length, take, drop, slice_index, IfOk};
ghost use Rattle.qm_read.specs.Strings as strings;
ghost use Rattle.qm_read.specs.Tokens as tokens;

use crate::JsonFault;
use crate::literals::{is_literal, whole_of};
use crate::spans::{Span, span_length};
use crate::strings::text_of;
use crate::token::{Lexeme, Token};
use qm_base::{NoMemory, Text};
use qm_frame::bytes::{begins_number, is_letter, is_quote, is_space};
use std::alloc::Global;

/// The token of a number's bytes.
fn number_token(alloc: Global, text: &[u8], place: u64) -> Result<Token, NoMemory>
    ensures { IfOk result (λ token. token ≡ tokens.number_token place text.now) }
{
    if !is_literal(text) {
        return Ok(Token::Bad(JsonFault::Expected(place)));
    }
    match whole_of(text) {
        Some(number) => Ok(Token::Int(number)),
        None => Ok(Token::Num(Text::of(alloc, text)?)),
    }
}

/// The token of a word's letters.
fn word_token(text: &[u8], place: u64) -> Token
    ensures { result ≡ tokens.word_token place text.now }
{
    if text == b"null".as_slice() {
        Token::Null
    } else if text == b"true".as_slice() {
        Token::Bool(true)
    } else if text == b"false".as_slice() {
        Token::Bool(false)
    } else {
        Token::Bad(JsonFault::Expected(place))
    }
}

/// The token of a byte at which no other piece begins.
fn mark_token(byte: u8, place: u64) -> Token
    ensures { result ≡ tokens.mark_token place byte }
{
    if byte == b'{' {
        Token::OpenObject
    } else if byte == b'}' {
        Token::CloseObject
    } else if byte == b'[' {
        Token::OpenArray
    } else if byte == b']' {
        Token::CloseArray
    } else if byte == b':' {
        Token::Colon
    } else if byte == b',' {
        Token::Comma
    } else {
        Token::Bad(JsonFault::Expected(place))
    }
}

/// The token of a string whose quote stands at the start, and that stops at a place unless a quote
/// closes it.
fn string_token(alloc: Global, raw: &[u8], start: u64, stop: Option<u64>) -> Result<Token, NoMemory>
    requires { start + 1 + length raw.now < 2 ^ 64 }
    ensures { IfOk result (λ token. token ≡ tokens.string_token (strings.text_of start raw.now) stop) }
{
    match text_of(alloc, raw, start) {
        Ok(text) => match stop {
            None => Ok(Token::Str(text)),
            Some(place) => Ok(Token::Bad(JsonFault::Expected(place))),
        },
        Err(JsonFault::Memory) => Err(NoMemory),
        Err(fault) => Ok(Token::Bad(fault)),
    }
}

/// Whether the byte ends a string of the quote.
fn ends_string(quote: u8, taken: bool, byte: u8) -> bool
    ensures { result ≡ strings.ends_string quote taken byte }
{
    byte < 0x20 || (!taken && byte == quote)
}

/// Whether the byte takes the next one with it, as a backslash does that none took itself (RFC 8259,
/// section 7).
fn takes_next(taken: bool, byte: u8) -> bool
    ensures { result ≡ strings.takes_next taken byte }
{
    !taken && byte == b'\\'
}

/// How many bytes of a string stand before the one that ends it.
fn string_length(quote: u8, text: &[u8]) -> usize
    ensures value { result ≡ strings.string_length quote false text.now }
    ensures within { result ≤ length text.now }
{
    let mut taken = false;
    let mut count = 0;
    while count < text.len() && !ends_string(quote, taken, text[count]) {
        taken = takes_next(taken, text[count]);
        count += 1;
    }
    count
}

/// The place where a string stops, unless a quote closes it.
fn stop_at(place: u64, quote: u8, rest: &[u8]) -> Option<u64>
    ensures { result ≡ tokens.stop_at place quote rest.now }
{
    match rest {
        [] => Some(place),
        [byte, ..] => { if *byte == quote { None } else { Some(place) } }
    }
}

/// The lexeme of any string, by what follows its quote.
fn any_string(alloc: Global, quote: u8, rest: &[u8], place: u64) -> Result<Lexeme, NoMemory>
    requires { place + 1 + length rest.now < 2 ^ 64 }
    ensures value { IfOk result (λ l. l ≡ tokens.string_lexeme place quote rest.now
        (strings.string_length quote false rest.now)) }
    ensures short { IfOk result (λ l. l.more ≤ length rest.now) }
{
    let count = string_length(quote, rest);
    let stop = stop_at(place + 1 + count as u64, quote, &rest[count..]);
    let token = Some(string_token(alloc, &rest[..count], place, stop)?);
    let more = (count + 1).min(rest.len());
    Ok(Lexeme { token, more })
}

/// The lexeme of a string. One that stands for its own bytes is copied at once.
fn string_lexeme(alloc: Global, quote: u8, rest: &[u8], place: u64) -> Result<Lexeme, NoMemory>
    requires { place + 1 + length rest.now < 2 ^ 64 }
    ensures value { IfOk result (λ l. l ≡ tokens.string_lexeme place quote rest.now
        (strings.string_length quote false rest.now)) }
    ensures short { IfOk result (λ l. l.more ≤ length rest.now) }
{
    let count = span_length(Span::Plain(quote), rest);
    if count < rest.len() && rest[count] == quote {
        let text = Text::of(alloc, &rest[..count])?;
        let token = Some(Token::Str(text));
        let more = count + 1;
        return Ok(Lexeme { token, more });
    }
    any_string(alloc, quote, rest, place)
}

/// The first byte and so many after it.
#[tactic(auto, using(crate::proofs::Advancing::front_taken))]
fn front(text: &[u8], more: usize) -> &[u8]
    requires { more < length text.now }
    ensures { result.now ≡ slice_index text.now 0 ∷ take more (drop 1 text.now) }
{
    &text[..more + 1]
}

/// The lexeme at the front of a text, whose first byte stands at the place.
pub fn lexeme(alloc: Global, text: &[u8], place: u64) -> Result<Lexeme, NoMemory>
    requires some { 0 < length text.now }
    requires within { place + length text.now < 2 ^ 64 }
    ensures value { IfOk result (λ l.
        l ≡ tokens.lexeme_of place (slice_index text.now 0) (drop 1 text.now)) }
    ensures short { IfOk result (λ l. l.more < length text.now) }
{
    let first = text[0];
    let rest = &text[1..];
    if is_space(first) {
        let more = span_length(Span::Space, rest);
        Ok(Lexeme { token: None, more })
    } else if begins_number(first) {
        let more = span_length(Span::Number, rest);
        let token = Some(number_token(alloc, front(text, more), place)?);
        Ok(Lexeme { token, more })
    } else if is_letter(first) {
        let more = span_length(Span::Word, rest);
        let token = Some(word_token(front(text, more), place));
        Ok(Lexeme { token, more })
    } else if is_quote(first) {
        string_lexeme(alloc, first, rest, place)
    } else {
        let token = Some(mark_token(first, place));
        Ok(Lexeme { token, more: 0 })
    }
}
