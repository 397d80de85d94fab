ghost use Rattle.std.specs.Prelude.{◌≡◌, ◌≢◌, ◌<◌, ◌≤◌, length, drop, slice_index, ◌==◌, IfOk, IfSome, Ok, Err};
ghost use Rattle.std.specs.List.{position};
ghost use Rattle.qapi_lex.specs.Pieces.{is_mark as mark, comment_length as length_of_comment, more_in, piece};

use crate::LexFault;
use crate::quoted::{Quoted, string};
use crate::token::TokenKind;
use qm_base::is_space;
use std::alloc::Global;

/// What stands at the front of a text, with how many bytes it has after the first.
#[derive(Drop)]
pub enum Piece {
    /// White space or a comment.
    Blank(usize),
    /// A token.
    Whole(TokenKind, usize),
}

fn is_mark(byte: u8) -> bool
    ensures { result ≡ mark byte }
{
    matches!(byte, b'{' | b'}' | b'[' | b']' | b':' | b',')
}

fn line_end(bytes: &[u8]) -> Option<usize>
    ensures value { result ≡ position (λ x. x == 10) bytes.now }
    ensures within { IfSome result (λ n. n ≤ length bytes.now) }
{
    bytes.iter().position(|byte| *byte == b'\n')
}

/// How many bytes a comment has after its `#`: those before the line's end.
fn comment_length(bytes: &[u8]) -> usize
    ensures value { result ≡ length_of_comment bytes.now }
    ensures within { result ≤ length bytes.now }
{
    match line_end(bytes) {
        Some(length) => length,
        None => bytes.len(),
    }
}

/// The piece at the front of these bytes, which stand in this line.
pub fn first_piece(alloc: Global, line: u32, bytes: &[u8]) -> Result<Piece, LexFault>
    requires { 0 < length bytes.now }
    ensures value { result ≢ Err LexFault.Memory →
        result ≡ piece line (slice_index bytes.now 0) (drop 1 bytes.now) }
    ensures within { IfOk result (λ piece. more_in piece < length bytes.now) }
{
    let first = bytes[0];
    if is_space(first) {
        Ok(Piece::Blank(0))
    } else if first == b'#' {
        Ok(Piece::Blank(comment_length(&bytes[1..])))
    } else if is_mark(first) {
        Ok(Piece::Whole(TokenKind::Mark(first), 0))
    } else if bytes.starts_with(b"true") {
        Ok(Piece::Whole(TokenKind::Flag(true), 3))
    } else if bytes.starts_with(b"false") {
        Ok(Piece::Whole(TokenKind::Flag(false), 4))
    } else if first == b'\'' {
        let Quoted { text, length } = string(alloc, line, &bytes[1..])?;
        Ok(Piece::Whole(TokenKind::Str(text), length))
    } else {
        Err(LexFault::BadByte(line))
    }
}

impl Piece {
    /// How many bytes it has after the first.
    pub fn more(&self) -> usize
        ensures { result ≡ more_in self.now }
    {
        match self {
            Piece::Blank(more) => *more,
            Piece::Whole(_, more) => *more,
        }
    }
}
