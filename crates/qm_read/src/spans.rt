ghost use Rattle.std.specs.Prelude.{◌≡◌, ◌≤◌, length};
ghost use Rattle.std.specs.List.{prefix_len};
ghost use Rattle.qm_read.specs.Spans.{has as has_byte, is_plain as plain};

use qm_frame::bytes::{in_number, is_letter, is_space};

/// A kind of bytes that stand in a run.
#[derive(Clone, Copy)]
pub enum Span {
    /// White space.
    Space,
    /// Digits.
    Digit,
    /// The bytes of numbers.
    Number,
    /// Letters.
    Word,
    /// The bytes that stand for themselves in a string of the quote.
    Plain(u8),
}

fn is_plain(quote: u8, byte: u8) -> bool
    ensures { result ≡ plain quote byte }
{
    byte >= 0x20 && byte < 0x80 && byte != b'\\' && byte != quote
}

fn has(span: Span, byte: u8) -> bool
    ensures { result ≡ has_byte span byte }
{
    match span {
        Span::Space => is_space(byte),
        Span::Digit => byte.is_ascii_digit(),
        Span::Number => in_number(byte),
        Span::Word => is_letter(byte),
        Span::Plain(quote) => is_plain(quote, byte),
    }
}

/// How many bytes of the kind stand at the front.
pub fn span_length(span: Span, text: &[u8]) -> usize
    ensures value { result ≡ prefix_len (has_byte span) text.now }
    ensures within { result ≤ length text.now }
{
    let mut count = 0;
    while count < text.len() && has(span, text[count]) {
        count += 1;
    }
    count
}
