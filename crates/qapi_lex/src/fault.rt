ghost use Rattle.std.specs.Prelude.{◌≡◌};

use qm_base::NoMemory;
use thiserror::Error;

/// Why a text has no tokens, with the line of the fault, counted from 1 as far as 32 bits count.
#[derive(Clone, Copy, PartialEq, Eq, Debug, Drop, Error)]
pub enum LexFault {
    /// A byte that begins no token, or that no string has.
    #[error("line {0}: a byte that stands in no token")]
    BadByte(u32),
    /// A backslash without another one after it, in a string.
    #[error("line {0}: a backslash that begins no escape")]
    BadEscape(u32),
    /// A string that its line does not close.
    #[error("line {0}: a string that is not closed")]
    Unclosed(u32),
    /// No memory was left.
    #[error("no memory is left")]
    Memory,
}

impl From<NoMemory> for LexFault {
    ghost use Rattle.qapi_lex.specs.declared.fault.LexFault.TheVariants.{Memory};

    ghost from_gives = { λ _ fault. fault ≡ Memory };

    fn from(_error: NoMemory) -> LexFault {
        LexFault::Memory
    }
}
