ghost use Rattle.std.specs.Prelude.{◌≡◌, ◌≢◌, ℕ, List, Option, Some, IfOk, Err};
ghost use Rattle.qm_base.specs.Faults.{Rose};
ghost use Rattle.qapi_load.specs.Files.{NamedText, text_of};

use qm_base::{NoMemory, Text};
use std::alloc::Global;

/// Why a library gave no answer.
#[derive(Clone, Copy, Debug, PartialEq, Eq)]
pub enum LibraryFault {
    /// Reading failed.
    Failed,
    /// No memory was left.
    Memory,
}

impl From<NoMemory> for LibraryFault {
    ghost use Rattle.std.specs.Prelude.{◌≡◌};
    ghost use Rattle.qapi_load.specs.declared.library.LibraryFault.TheVariants.{Memory};

    ghost from_gives = { λ _ e. e ≡ Memory };

    fn from(_fault: NoMemory) -> LibraryFault {
        LibraryFault::Memory
    }
}

/// Texts by name. Its faults are counted.
pub trait Library {
    /// The texts by name, where it tells them.
    ghost files: { Self → Option (List NamedText) };

    /// How many calls failed, as far as 64 bits count.
    ghost faults: { Self → ℕ };

    /// The name that was handed to the latest call that failed; empty before the first.
    ghost failed_name: { Self → List ℕ };

    /// The text of the name, or None where there is none. It fails exactly where the count of
    /// faults rises, and leaves the texts as they were.
    fn text(&mut self, alloc: Global, name: &[u8]) -> Result<Option<Text>, LibraryFault>
        ensures value { (told : List NamedText) → files self.old ≡ Some told → IfOk result (λ text. text ≡ text_of name.now told) }
        ensures same { files self.new ≡ files self.old }
        ensures failed { result ≡ Err LibraryFault.Failed → Rose (faults self.old) (faults self.new) }
        ensures kept { result ≢ Err LibraryFault.Failed → faults self.new ≡ faults self.old }
        ensures name { result ≡ Err LibraryFault.Failed → failed_name self.new ≡ name.now }
        ensures kept_name { result ≢ Err LibraryFault.Failed → failed_name self.new ≡ failed_name self.old };
}
