ghost use Rattle.std.specs.Prelude.{◌≡◌, ◌+◌, ◌<◌, ◌^◌, ◌++◌, [], ◌∷◌, length, IfOk};
ghost use Rattle.qm_core.specs.Texts.{text_of, entry_text_of};

use crate::entries::Entry;
use qm_base::{NoMemory, ReservedList};
use std::alloc::Global;
use std::marker::Model;

/// The entries of a journal, the oldest first, with reserved places.
pub type EntryList = ReservedList<Entry>;

/// The entries of a journal, with how many bytes their text has.
#[derive(Drop)]
pub(crate) struct Journal {
    entries: EntryList,
    text_length: u64,
}

impl Model for Journal {
    ghost use Rattle.std.specs.Prelude.{◌≡◌, length};
    ghost use Rattle.qm_base.specs.Reserving.{Reserved, reserved_code};
    ghost use Rattle.qm_core.specs.Texts.{text_of};
    ghost use Rattle.qm_core.specs.declared.entries.Entry.{Entry};
    ghost use Rattle.qm_core.specs.contracts.entries.Entry as entry;

    ghost Value = { Reserved Entry };

    ghost coded = { reserved_code entry.the_row.coded };

    ghost view = { λ j. j.entries };

    ghost invariant = { λ j. j.text_length ≡ length (text_of j.entries.items) };
}

impl Journal {
    /// An empty journal, which has so many places.
    pub(crate) fn new(alloc: Global, places: usize) -> Result<Journal, NoMemory>
        ensures { IfOk result (λ journal. journal ≡ record { items = []; places = places }) }
    {
        let entries = ReservedList::new(alloc, places)?;
        Ok(Journal {
            entries,
            text_length: 0,
        })
    }

    /// The entries.
    pub(crate) fn entries(&self) -> &EntryList
        ensures { result.now ≡ self.now }
    {
        &self.entries
    }

    /// How many entries there are.
    pub(crate) fn len(&self) -> u64
        ensures { result ≡ length self.now.items }
    {
        self.entries.len() as u64
    }

    /// How many bytes the text of the entries has.
    pub(crate) fn text_length(&self) -> u64
        ensures { result ≡ length (text_of self.now.items) }
    {
        self.text_length
    }

    /// Appends an entry whose text has so many bytes, and for which there is a place. It takes no
    /// memory.
    #[tactic(auto, using(crate::proofs::Texts::text_more))]
    pub(crate) fn put(&mut self, entry: Entry, bytes: u64)
        requires place { length self.old.items < self.old.places }
        requires bytes { bytes ≡ length (entry_text_of (length self.old.items + 1) entry) }
        requires fits { length (text_of self.old.items) + bytes < 2 ^ 64 }
        ensures { self.new ≡ record self.old { items = self.old.items ++ entry ∷ [] } }
    {
        self.text_length += bytes;
        self.entries.put(entry);
    }
}
