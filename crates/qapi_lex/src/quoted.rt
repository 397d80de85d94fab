ghost use Rattle.std.specs.Prelude.{◌≡◌, ◌≢◌, ◌≤◌, length, false, IfOk, Ok, Err};
ghost use Rattle.qapi_lex.specs.Strings.{is_printable as printable, role_of, cut_of, quoted};

use crate::LexFault;
use qm_base::Text;
use std::alloc::Global;

/// What a string stands for, and how many bytes it has after its opening quote.
#[derive(Drop)]
pub struct Quoted {
    pub text: Text,
    pub length: usize,
}

/// What a byte does in a string.
#[derive(Clone, Copy, Drop)]
pub enum Role {
    /// It stands for itself.
    Part,
    /// It is a backslash, which takes the next byte.
    Escape,
    /// It closes the string.
    Close,
    /// It stands in no string.
    Bad(LexFault),
}

fn is_printable(byte: u8) -> bool
    ensures { result ≡ printable byte }
{
    byte >= 0x20 && byte <= 0x7E
}

/// The role of a byte, of which it matters whether a backslash took it.
fn role_at(line: u32, escaped: bool, byte: u8) -> Role
    ensures { result ≡ role_of line escaped byte }
{
    if escaped {
        if byte == b'\\' {
            Role::Part
        } else {
            Role::Bad(LexFault::BadEscape(line))
        }
    } else if byte == b'\'' {
        Role::Close
    } else if byte == b'\\' {
        Role::Escape
    } else if byte == b'\n' {
        Role::Bad(LexFault::Unclosed(line))
    } else if is_printable(byte) {
        Role::Part
    } else {
        Role::Bad(LexFault::BadByte(line))
    }
}

/// The fault of a string that the text's end cuts.
fn cut(line: u32, escaped: bool) -> LexFault
    ensures { result ≡ cut_of line escaped }
{
    if escaped {
        LexFault::BadEscape(line)
    } else {
        LexFault::Unclosed(line)
    }
}

/// The string whose opening quote stands before these bytes, in this line.
pub fn string(alloc: Global, line: u32, bytes: &[u8]) -> Result<Quoted, LexFault>
    ensures value { result ≢ Err LexFault.Memory → result ≡ quoted line false bytes.now }
    ensures within { IfOk result (λ quoted. quoted.length ≤ length bytes.now) }
{
    let mut text = Text::new(alloc);
    let mut escaped = false;
    for (i, byte) in bytes.iter().enumerate() {
        match role_at(line, escaped, *byte) {
            Role::Part => {
                escaped = false;
                text.push(*byte)?;
            }
            Role::Escape => escaped = true,
            Role::Close => {
                return Ok(Quoted {
                    text,
                    length: i + 1,
                });
            }
            Role::Bad(fault) => return Err(fault),
        }
    }
    Err(cut(line, escaped))
}
