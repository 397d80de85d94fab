ghost use Rattle.std.specs.Prelude.{◌≡◌, [], ◌∷◌, ◌++◌, length, OnOk, OnErr};

use crate::text::NoMemory;
use std::alloc::Global;
use std::marker::Model;

/// A list that grows by one item at its end, which contracts see as the list of its items.
#[derive(Debug, Drop)]
pub struct GrowingList<T> {
    items: Vec<T>,
}

impl<T> Model for GrowingList<T> {
    ghost use Rattle.std.specs.Prelude.{List, length};
    ghost use Rattle.std.specs.Coded.{coded_list};

    ghost Value = { List T };

    ghost coded = { coded_list T.code };

    ghost view = { λ l. l.items.items };

    ghost size = { length };
}

impl<T> GrowingList<T> {
    /// No items. It takes no memory.
    pub fn new(alloc: Global) -> GrowingList<T>
        ensures { result ≡ [] }
    {
        GrowingList {
            items: Vec::new(alloc),
        }
    }

    /// The items of a vector. It takes no memory.
    pub fn from_vec(items: Vec<T>) -> GrowingList<T>
        ensures { result ≡ items.items }
    {
        GrowingList { items }
    }

    /// The items as a vector. It takes no memory.
    pub fn into_vec(self) -> Vec<T>
        ensures { result.items ≡ self }
    {
        self.items
    }

    /// The items.
    pub fn as_slice(&self) -> &[T]
        ensures { result.now ≡ self.now }
    {
        self.items.as_slice()
    }

    /// How many items there are.
    pub fn len(&self) -> usize
        ensures { result ≡ length self.now }
    {
        self.items.len()
    }
}

impl<T: Drop> GrowingList<T> {
    /// Appends an item. An error leaves the list as it was.
    pub fn push(&mut self, item: T) -> Result<(), NoMemory>
        ensures ok { OnOk result (self.new ≡ self.old ++ item ∷ []) }
        ensures err { OnErr result (self.new ≡ self.old) }
    {
        self.items.push(item)?;
        Ok(())
    }
}
