ghost use Rattle.std.specs.Prelude.{◌≡◌, ◌<◌, length, position, IfSome};
ghost use Rattle.qm_history.specs.Words.{after_blank as after_blank_of, before_blank as before_blank_of, is_blank, session_number};

use qm_base::number;

/// The session number that a word writes.
pub fn session(text: &[u8]) -> Option<u32>
    ensures { result ≡ session_number text.now }
{
    match number(text) {
        Some(n) if n < 0x1_0000_0000 => Some(n as u32),
        _ => None,
    }
}

fn blank_at(text: &[u8]) -> Option<usize>
    ensures place { result ≡ position is_blank text.now }
    ensures within { IfSome result (λ at. at < length text.now) }
{
    text.iter().position(|byte| *byte == b' ')
}

/// What stands before the first blank of a text; all of it without one.
pub fn before_blank(text: &[u8]) -> &[u8]
    ensures { result.now ≡ before_blank_of text.now }
{
    match blank_at(text) {
        Some(at) => &text[..at],
        None => text,
    }
}

/// What follows the first blank of a text; nothing without one.
pub fn after_blank(text: &[u8]) -> &[u8]
    ensures { result.now ≡ after_blank_of text.now }
{
    match blank_at(text) {
        Some(at) => &text[at + 1..],
        None => &[],
    }
}
