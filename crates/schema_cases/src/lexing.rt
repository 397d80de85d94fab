//! Texts and their tokens with places, and texts with a first fault.

use crate::rows::{Asked, other_answers};
use qapi_lex::{LexFault, Token, TokenKind, lex};
use std::test::Fail;

const TOKENS: &str = "\
3:1 : |# one\r^# two\r^:
1:1 true 1:5 false |truefalse
1:1 = ~\"#{ |' ~\"#{'
1:1 =\\ 1:5 =x |'\\\\''x'
1:1 { 1:3 =if 1:7 : 2:2 =A 2:6 } 3:1 , |{ 'if':\r^\t'A' } # end^,
";

const FAULTS: &str = "\
bad-byte 1 |{ 'a': \"b\" }
bad-byte 3 |^^tru
bad-byte 1 |trues
bad-byte 1 |\x0B
bad-byte 1 |'a\x7F'
bad-byte 2 |# x^'a\tb'
bad-escape 1 |'a\\n'
bad-escape 2 |^'a\\^'
bad-escape 1 |'\\
unclosed 2 |{^'a: 1 }^'
unclosed 1 |'a\\\\
";

/// Writes what a token is: a string after `=`, as what it stands for.
fn put(out: &mut String, kind: &TokenKind) -> Result<(), Fail> {
    match kind {
        TokenKind::Mark(byte) => out.push(char::from(*byte))?,
        TokenKind::Flag(true) => out.push_str("true")?,
        TokenKind::Flag(false) => out.push_str("false")?,
        TokenKind::Str(text) => {
            out.push_str("=")?;
            out.push_str(str::from_utf8(text.as_slice())?)?;
        }
    }
    Ok(())
}

/// The line and the column of each token, and what it is.
fn all_shown(rt: &impl AllocGlobal, tokens: &[Token]) -> Result<String, Fail> {
    let mut all = String::new(rt.alloc());
    for token in tokens {
        let place = format!(in rt.alloc(); "{}:{} ", token.line, token.column)?;
        all.push_str(place.as_str())?;
        put(&mut all, &token.kind)?;
        all.push_str(" ")?;
    }
    Ok(all)
}

fn word_of(fault: LexFault) -> &'static str {
    match fault {
        LexFault::BadByte(_) => "bad-byte",
        LexFault::BadEscape(_) => "bad-escape",
        LexFault::Unclosed(_) => "unclosed",
        LexFault::Memory => "memory",
    }
}

fn line_of(fault: LexFault) -> u32 {
    match fault {
        LexFault::BadByte(line) | LexFault::BadEscape(line) | LexFault::Unclosed(line) => line,
        LexFault::Memory => 0,
    }
}

fn told(rt: &impl AllocGlobal, fault: LexFault) -> Result<String, Fail> {
    Ok(format!(in rt.alloc(); "{} {} ", word_of(fault), line_of(fault))?)
}

/// The tokens of the text, or its first fault.
pub fn answer(rt: &impl AllocGlobal, text: &[u8]) -> Result<String, Fail> {
    match lex(rt.alloc(), text) {
        Ok(tokens) => all_shown(rt, tokens.as_slice()),
        Err(fault) => told(rt, fault),
    }
}

#[test]
fn each_text_has_its_tokens_or_its_fault(rt: HostRuntime) -> Result<(), Fail> {
    assert_eq!(rt; other_answers(&rt, Asked::Tokens, TOKENS)?.as_str(), "");
    assert_eq!(rt; other_answers(&rt, Asked::Tokens, FAULTS)?.as_str(), "");
    assert_eq!(rt; answer(&rt, b"#\xFF\x80\x00 'x' {\n")?.as_str(), "");
    Ok(())
}
