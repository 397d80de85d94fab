ghost use Rattle.std.specs.Prelude.{◌≡◌, ◌≤◌};
ghost use Rattle.qm_frame.specs.Pieces;
ghost use Rattle.qm_frame.specs.Machine;

use crate::bytes::{
    begins_number, in_number, is_barred, is_closer, is_letter, is_opener, is_quote, is_single,
};
use crate::step::MAX_DEPTH;

/// The piece that a text ends in.
#[derive(Clone, Copy)]
pub enum LastPiece {
    /// None that a further byte can lengthen.
    Whole,
    /// A run of a number.
    Number,
    /// A run of letters.
    Word,
    /// An unclosed string with this quote.
    Str(u8),
    /// An unclosed string with this quote, after a backslash.
    Escape(u8),
    /// A byte that no piece has.
    Broken,
}

fn begin(byte: u8) -> LastPiece
    ensures { result ≡ (Machine.begun byte).rest }
{
    if is_single(byte) {
        LastPiece::Whole
    } else if begins_number(byte) {
        LastPiece::Number
    } else if is_letter(byte) {
        LastPiece::Word
    } else if is_quote(byte) {
        LastPiece::Str(byte)
    } else {
        LastPiece::Broken
    }
}

fn next_in_string(quote: u8, byte: u8) -> LastPiece
    ensures { result ≡ (Machine.moved (LastPiece.Str quote) byte).rest }
{
    if is_barred(byte) {
        LastPiece::Broken
    } else if byte == quote {
        LastPiece::Whole
    } else if byte == b'\\' {
        LastPiece::Escape(quote)
    } else {
        LastPiece::Str(quote)
    }
}

/// Whether the byte is one more of a string with this quote, and is no backslash.
pub fn is_plain(quote: u8, byte: u8) -> bool
    ensures { result ≡ Machine.is_plain quote byte }
{
    !is_barred(byte) && byte != quote && byte != b'\\'
}

/// The piece that a text ends in with one more byte.
pub fn next(last: LastPiece, byte: u8) -> LastPiece
    ensures { result ≡ (Machine.moved last byte).rest }
{
    match last {
        LastPiece::Whole => begin(byte),
        LastPiece::Number => {
            if in_number(byte) {
                LastPiece::Number
            } else {
                begin(byte)
            }
        }
        LastPiece::Word => {
            if is_letter(byte) {
                LastPiece::Word
            } else {
                begin(byte)
            }
        }
        LastPiece::Str(quote) => next_in_string(quote, byte),
        LastPiece::Escape(quote) => {
            if is_barred(byte) {
                LastPiece::Broken
            } else {
                LastPiece::Str(quote)
            }
        }
        LastPiece::Broken => LastPiece::Broken,
    }
}

/// Whether a bracket after this piece does not count.
fn hides(last: LastPiece) -> bool
    ensures { result ≡ Machine.hides last }
{
    matches!(
        last,
        LastPiece::Str(_) | LastPiece::Escape(_) | LastPiece::Broken
    )
}

/// Whether the text does not scan.
pub fn is_broken(last: LastPiece) -> bool
    ensures { result ≡ Pieces.is_broken last }
{
    matches!(last, LastPiece::Broken)
}

/// The level with one more byte.
pub fn depth_after(last: LastPiece, depth: usize, byte: u8) -> usize
    requires low { 1 ≤ depth }
    requires high { depth ≤ MAX_DEPTH }
    ensures { result ≡ Machine.depth_after last depth byte }
{
    if hides(last) {
        depth
    } else if is_opener(byte) {
        depth + 1
    } else if is_closer(byte) {
        depth - 1
    } else {
        depth
    }
}
