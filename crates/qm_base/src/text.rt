ghost use Rattle.std.specs.Prelude.{◌≡◌, [], ◌∷◌, ◌++◌, length, IfOk, OnOk, OnErr, IsTrue, ◌↔◌};

use std::alloc::{AllocError, AllocFailed, Global};
use std::marker::Model;
use std::mem;

/// No memory was left.
#[derive(Clone, Copy, Debug, PartialEq, Eq)]
pub struct NoMemory;

impl From<AllocError> for NoMemory {
    fn from(_fault: AllocError) -> NoMemory {
        NoMemory
    }
}

impl<T: Drop> From<AllocFailed<T>> for NoMemory {
    fn from(_fault: AllocFailed<T>) -> NoMemory {
        NoMemory
    }
}

/// A text as bytes, which contracts see as their list.
#[derive(Debug, Drop)]
pub struct Text {
    bytes: Vec<u8>,
}

impl Model for Text {
    ghost use Rattle.std.specs.Prelude.{List, ℕ};

    ghost Value = { List ℕ };

    ghost view = { λ t. t.bytes.items };
}

impl Text {
    /// The empty text. It takes no memory.
    pub fn new(alloc: Global) -> Text
        ensures { result ≡ [] }
    {
        Text {
            bytes: Vec::new(alloc),
        }
    }

    /// A text of these bytes.
    pub fn of(alloc: Global, bytes: &[u8]) -> Result<Text, NoMemory>
        ensures { IfOk result (λ text. text ≡ bytes.now) }
    {
        let bytes = Vec::from_slice(alloc, bytes)?;
        Ok(Text { bytes })
    }

    /// The bytes.
    pub fn as_slice(&self) -> &[u8]
        ensures { result.now ≡ self.now }
    {
        self.bytes.as_slice()
    }

    /// How many bytes there are.
    pub fn len(&self) -> usize
        ensures { result ≡ length self.now }
    {
        self.bytes.len()
    }

    /// Whether there is no byte.
    pub fn is_empty(&self) -> bool
        ensures { IsTrue result ↔ (self.now ≡ []) }
    {
        self.bytes.is_empty()
    }

    /// Appends a byte. An error leaves the text as it was.
    pub fn push(&mut self, byte: u8) -> Result<(), NoMemory>
        ensures ok { OnOk result (self.new ≡ self.old ++ byte ∷ []) }
        ensures err { OnErr result (self.new ≡ self.old) }
    {
        self.bytes.push(byte)?;
        Ok(())
    }

    /// Appends bytes. An error leaves the text as it was.
    pub fn extend(&mut self, bytes: &[u8]) -> Result<(), NoMemory>
        ensures ok { OnOk result (self.new ≡ self.old ++ bytes.now) }
        ensures err { OnErr result (self.new ≡ self.old) }
    {
        self.bytes.extend_from_slice(bytes)?;
        Ok(())
    }

    /// Moves all bytes out. It takes no memory.
    pub fn take_all(&mut self) -> Text
        ensures bytes { result ≡ self.old }
        ensures empty { self.new ≡ [] }
    {
        let alloc = *self.bytes.allocator();
        Text {
            bytes: mem::replace(&mut self.bytes, Vec::new(alloc)),
        }
    }

    /// An equal text.
    pub fn copy(&self, alloc: Global) -> Result<Text, NoMemory>
        ensures { IfOk result (λ text. text ≡ self.now) }
    {
        Text::of(alloc, self.bytes.as_slice())
    }

    /// Whether both texts have the same bytes.
    pub fn same(&self, other: &Text) -> bool
        ensures { IsTrue result ↔ (self.now ≡ other.now) }
    {
        self.bytes.as_slice() == other.bytes.as_slice()
    }
}
