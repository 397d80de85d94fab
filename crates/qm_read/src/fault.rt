ghost use Rattle.std.specs.Prelude.{◌≡◌};

use qm_base::NoMemory;

/// Why a text is no value's, with the place of the fault: the number of bytes before it.
#[derive(Clone, Copy, PartialEq, Eq, Debug, Drop)]
pub enum JsonFault {
    /// Something else would have to stand here.
    Expected(u64),
    /// The object has a member of this name already.
    Duplicate(u64),
    /// This backslash begins no escape.
    BadEscape(u64),
    /// This byte begins no character in UTF-8.
    BadUtf8(u64),
    /// No memory was left.
    Memory,
}

impl From<NoMemory> for JsonFault {
    ghost use Rattle.qm_read.specs.declared.fault.JsonFault.TheVariants.{Memory};

    ghost from_gives = { λ _ fault. fault ≡ Memory };

    fn from(_fault: NoMemory) -> JsonFault {
        JsonFault::Memory
    }
}
