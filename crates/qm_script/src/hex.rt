ghost use Rattle.std.specs.Prelude.{◌≡◌, ◌<◌, IfOk};
ghost use Rattle.std.specs.List.{list_all};
ghost use Rattle.qm_script.specs.Orders.{hex_bytes_of, hex_value as hex_value_of, is_hex as is_hex_text, is_hex_digit as is_digit};

use qm_base::{NoMemory, Text};
use std::alloc::Global;

fn is_hex_digit(byte: u8) -> bool
    ensures { result ≡ is_digit byte }
{
    (byte >= b'0' && byte <= b'9') || (byte >= b'a' && byte <= b'f')
}

fn are_hex_digits(text: &[u8]) -> bool
    ensures { result ≡ list_all is_digit text.now }
{
    text.iter().all(|byte| is_hex_digit(*byte))
}

/// Whether a text is pairs of hexadecimal digits in lower case, at least one.
pub fn is_hex(text: &[u8]) -> bool
    ensures { result ≡ is_hex_text text.now }
{
    text.len() > 0 && text.len() % 2 == 0 && are_hex_digits(text)
}

fn hex_value(byte: u8) -> u8
    ensures value { result ≡ hex_value_of byte }
    ensures small { result < 16 }
{
    if byte >= b'0' && byte <= b'9' {
        byte - b'0'
    } else if byte >= b'a' && byte <= b'f' {
        byte - b'a' + 10
    } else {
        0
    }
}

/// The bytes that pairs of hexadecimal digits write.
pub fn hex_bytes(alloc: Global, text: &[u8]) -> Result<Text, NoMemory>
    ensures { IfOk result (λ bytes. bytes ≡ hex_bytes_of text.now) }
{
    let mut bytes = Text::new(alloc);
    let mut rest = text;
    while let [high, low, later @ ..] = rest {
        bytes.push(hex_value(*high) * 16 + hex_value(*low))?;
        rest = later;
    }
    Ok(bytes)
}
