ghost use Rattle.std.specs.Prelude.{◌≡◌};

/// How many bytes a message may have.
pub const MAX_LENGTH: usize = 1_048_576;

/// How many brackets may be open at a time.
pub const MAX_DEPTH: usize = 128;

/// Why bytes are no message.
#[derive(Clone, Copy, PartialEq, Eq, Debug)]
pub enum FrameFault {
    /// A byte that no piece of a JSON text begins with or has.
    LexError,
    /// A closing bracket where none is open.
    Unbalanced,
    /// An opening bracket where `MAX_DEPTH` are open.
    TooDeep,
    /// A byte after `MAX_LENGTH` bytes of a message.
    TooLong,
}

/// What one more byte completes.
#[derive(Clone, Copy, PartialEq, Eq, Debug)]
pub enum Step {
    /// Nothing yet.
    More,
    /// A message.
    Frame,
    /// A fault.
    Bad(FrameFault),
}

/// The limits, as numbers.
pub fn limits_are_these()
    ensures length { MAX_LENGTH ≡ 1048576 }
    ensures depth { MAX_DEPTH ≡ 128 }
{}
