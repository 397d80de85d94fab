ghost use Rattle.std.specs.Prelude.{◌≡◌};
ghost use Rattle.qm_frame.specs.Bytes;

pub use qm_base::is_space;

/// Whether the byte is an opening bracket.
pub fn is_opener(byte: u8) -> bool
    ensures { result ≡ Bytes.is_opener byte }
{
    byte == b'{' || byte == b'['
}

/// Whether the byte is a closing bracket.
pub fn is_closer(byte: u8) -> bool
    ensures { result ≡ Bytes.is_closer byte }
{
    byte == b'}' || byte == b']'
}

/// Whether the byte is a piece of a text by itself: white space, a bracket, `:` or `,`.
pub fn is_single(byte: u8) -> bool
    ensures { result ≡ Bytes.is_single byte }
{
    is_space(byte) || is_opener(byte) || is_closer(byte) || byte == b':' || byte == b','
}

fn is_digit(byte: u8) -> bool
    ensures { result ≡ Bytes.is_digit byte }
{
    byte >= b'0' && byte <= b'9'
}

/// Whether a number may begin with the byte: a digit or `-`.
pub fn begins_number(byte: u8) -> bool
    ensures { result ≡ Bytes.begins_number byte }
{
    is_digit(byte) || byte == b'-'
}

/// Whether a number may have the byte: a digit, `+`, `-`, `.`, `e` or `E`.
pub fn in_number(byte: u8) -> bool
    ensures { result ≡ Bytes.in_number byte }
{
    is_digit(byte) || byte == b'+' || byte == b'-' || byte == b'.' || byte == b'e' || byte == b'E'
}

/// Whether the byte is one of `a` to `z`.
pub fn is_letter(byte: u8) -> bool
    ensures { result ≡ Bytes.is_letter byte }
{
    byte >= b'a' && byte <= b'z'
}

/// Whether the byte is a double or a single quote.
pub fn is_quote(byte: u8) -> bool
    ensures { result ≡ Bytes.is_quote byte }
{
    byte == b'"' || byte == b'\''
}

/// Whether no string has the byte: a control character, 0xFE or 0xFF.
pub fn is_barred(byte: u8) -> bool
    ensures { result ≡ Bytes.is_barred byte }
{
    byte < 0x20 || byte == 0xFE || byte == 0xFF
}

/// Whether reading goes on after the byte: a control character other than tab, 0xFE or 0xFF.
pub fn is_reset(byte: u8) -> bool
    ensures { result ≡ Bytes.is_reset byte }
{
    is_barred(byte) && byte != b'\t'
}
