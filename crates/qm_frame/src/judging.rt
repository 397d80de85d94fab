ghost use Rattle.std.specs.Prelude.{◌≡◌};
ghost use Rattle.qm_frame.specs.Machine.{judged, is_run, IsWithin};

use crate::piece::{LastPiece, depth_after, is_broken, is_plain, next};
use crate::step::{FrameFault, MAX_DEPTH, MAX_LENGTH};

/// What is known of an open text.
#[derive(Clone, Copy)]
pub struct State {
    pub last: LastPiece,
    pub depth: usize,
}

/// What one more byte makes of an open text.
pub enum Judged {
    Taken(State),
    Ends,
    Wrong(FrameFault),
}

/// Whether an open text of so many bytes ends in an unclosed string that the byte lengthens.
pub fn lengthens(last: LastPiece, length: usize, byte: u8) -> bool
    ensures { result ≡ is_run last length byte }
{
    match last {
        LastPiece::Str(quote) => length < MAX_LENGTH && is_plain(quote, byte),
        _ => false,
    }
}

/// What one more byte makes of an open text of so many bytes, of which this is known.
pub fn judge(state: State, length: usize, byte: u8) -> Judged
    requires { IsWithin state }
    ensures { result ≡ judged state length byte }
{
    let last = next(state.last, byte);
    let depth = depth_after(state.last, state.depth, byte);
    if length == MAX_LENGTH {
        Judged::Wrong(FrameFault::TooLong)
    } else if is_broken(last) {
        Judged::Wrong(FrameFault::LexError)
    } else if depth > MAX_DEPTH {
        Judged::Wrong(FrameFault::TooDeep)
    } else if depth == 0 {
        Judged::Ends
    } else {
        Judged::Taken(State { last, depth })
    }
}
