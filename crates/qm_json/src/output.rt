ghost use Rattle.std.specs.Prelude.{◌≡◌, ◌++◌, [], List, ℕ, length, OnOk, OnErr, false};
ghost use Rattle.qm_base.specs.Prefixes.{IsPrefix};
ghost use Rattle.qm_json.specs.Printing.{capped};

use qm_base::{History, NoMemory, Text};
use std::marker::Model;

/// What takes the pieces of a printed text.
pub(crate) trait Output {
    /// The bytes of all pieces so far.
    ghost given: { Self → List ℕ };

    /// Takes the next piece.
    fn put(&mut self, piece: &[u8])
        ensures { given self.new ≡ given self.old ++ piece.now };
}

fn note_all(given: &mut History<u8>, piece: &[u8])
    ensures { given.new ≡ given.old ++ piece.now }
{
    for byte in piece {
        given.note(byte);
    }
}

/// A count of bytes, as far as 64 bits count. Contracts see the bytes.
#[derive(Drop)]
pub(crate) struct Count {
    count: u64,
    given: History<u8>,
}

impl Model for Count {
    ghost use Rattle.std.specs.Prelude.{◌≡◌, List, ℕ, length};
    ghost use Rattle.qm_json.specs.Printing.{capped};

    ghost Value = { List ℕ };

    ghost view = { λ c. c.given };

    ghost invariant = { λ c. c.count ≡ capped (length c.given) };
}

impl Count {
    /// A count of no byte.
    pub(crate) fn new() -> Count
        ensures { result ≡ [] }
    {
        Count {
            count: 0,
            given: History::new(),
        }
    }

    /// How many bytes were given, or 2^64-1 where there were more.
    pub(crate) fn count(&self) -> u64
        ensures { result ≡ capped (length self.now) }
    {
        self.count
    }
}

impl Output for Count {
    ghost given = { λ c. c };

    fn put(&mut self, piece: &[u8]) {
        note_all(&mut self.given, piece);
        self.count = self.count.saturating_add(piece.len() as u64);
    }
}

/// A text that grows as long as there is memory: once it was refused, it takes nothing more.
/// Contracts see the bytes that it would have.
#[derive(Drop)]
pub(crate) struct Growing {
    text: Text,
    is_refused: bool,
    given: History<u8>,
}

impl Model for Growing {
    ghost use Rattle.std.specs.Prelude.{List, ℕ};
    ghost use Rattle.qm_json.specs.Outputs.{Keeps};

    ghost Value = { List ℕ };

    ghost view = { λ g. g.given };

    ghost invariant = { λ g. Keeps g.is_refused g.text g.given };
}

impl Growing {
    /// A text that goes on from this one.
    pub(crate) fn new(text: Text) -> Growing
        ensures { result ≡ text }
    {
        let mut given = History::new();
        note_all(&mut given, text.as_slice());
        Growing {
            text,
            is_refused: false,
            given,
        }
    }

    /// Gives the text back; or, after want of memory, what there is of it.
    pub(crate) fn finish(self, out: &mut Text) -> Result<(), NoMemory>
        ensures ok { OnOk result (out.new ≡ self) }
        ensures err { OnErr result (IsPrefix out.new self) }
    {
        let Growing {
            text,
            is_refused,
            given: _,
        } = self;
        *out = text;
        if is_refused { Err(NoMemory) } else { Ok(()) }
    }
}

impl Output for Growing {
    ghost given = { λ g. g };

    fn put(&mut self, piece: &[u8]) {
        note_all(&mut self.given, piece);
        if !self.is_refused && self.text.extend(piece).is_err() {
            self.is_refused = true;
        }
    }
}
