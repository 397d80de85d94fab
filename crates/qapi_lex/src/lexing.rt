ghost use Rattle.std.specs.Prelude.{◌≡◌, ◌≢◌, ◌≤◌, ◌++◌, ◌↔◌, List, ℕ, length, drop, OnOk, Result, Ok, Err};
ghost use Rattle.qapi_lex.specs.declared.fault.LexFault.{LexFault};
ghost use Rattle.qapi_lex.specs.declared.token.Token.{Token};
ghost use Rattle.qapi_lex.specs.Splitting.{Lexes};
ghost use Rattle.qapi_lex.specs.Spots.{beginning};
ghost use Rattle.qapi_lex.specs.Tokens.{tokens_in, tokens_of};

use crate::LexFault;
use crate::piece::{Piece, first_piece};
use crate::spot::Spot;
use crate::token::{Token, TokenList};
use qm_base::NoMemory;
use std::alloc::Global;

/// Appends the token, if the piece is one, which stands at the spot.
fn keep(tokens: &mut TokenList, piece: Piece, spot: Spot) -> Result<(), NoMemory>
    ensures { OnOk result (tokens.new ≡ tokens.old ++ tokens_in piece spot) }
{
    match piece {
        Piece::Blank(_) => Ok(()),
        Piece::Whole(kind, _) => tokens.push(Token {
            kind,
            line: spot.line,
            column: spot.column,
        }),
    }
}

/// The bytes from a place on.
fn from(text: &[u8], place: usize) -> &[u8]
    requires { place ≤ length text.now }
    ensures { result.now ≡ drop place text.now }
{
    &text[place..]
}

/// The tokens of a schema's text, or its first fault (QAPI code generation guide, "Schema
/// syntax"). Strings stand in single quotes, and `\\` is their only escape.
///
/// - `BadByte`: a byte that begins no token outside comments and strings, or a byte below 0x20
///   other than LF, or above 0x7E, in a string.
/// - `BadEscape`: a backslash in a string without another one after it.
/// - `Unclosed`: the line, or the text, ends in a string.
/// - `Memory`: no memory was left.
pub fn lex(alloc: Global, text: &[u8]) -> Result<TokenList, LexFault>
    ensures { result ≢ Err LexFault.Memory → result ≡ tokens_of text.now }
{
    let mut tokens = TokenList::new(alloc);
    let mut spot = Spot::first();
    let mut i = 0;
    while i < text.len() {
        let rest = from(text, i);
        let piece = first_piece(alloc, spot.line, rest)?;
        let length = piece.more() + 1;
        let next = spot.past_all(&rest[..length]);
        keep(&mut tokens, piece, spot)?;
        spot = next;
        i += length;
    }
    Ok(tokens)
}

/// A text has these tokens, or this first fault, exactly where it splits so by cases: into white
/// space, comments and tokens.
pub fn each_text_splits()
    ensures { (text : List ℕ) (answer : Result (List Token) LexFault) →
        (tokens_of text ≡ answer) ↔ Lexes beginning text answer }
{}

/// Want of memory is no fault of a text.
pub fn memory_is_no_fault()
    ensures { (text : List ℕ) → tokens_of text ≢ Err LexFault.Memory }
{}
