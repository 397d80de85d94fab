ghost use Rattle.std.specs.Prelude.{◌≡◌, ◌<◌, ◌++◌, [], ◌∷◌, length, IfOk};

use crate::text::NoMemory;
use std::alloc::Global;
use std::marker::Model;

/// A list whose places are taken when it is made, so that an item that has a place takes no memory.
/// Contracts see its items, and the number of places that are reserved in all.
#[derive(Drop)]
pub struct ReservedList<T> {
    items: Vec<T>,
    places: usize,
}

impl<T> Model for ReservedList<T> {
    ghost use Rattle.std.specs.Prelude.{◌≤◌, vec_capacity};
    ghost use Rattle.qm_base.specs.Reserving.{Reserved, reserved_code};

    ghost Value = { Reserved T };

    ghost coded = { reserved_code T.code };

    ghost view = { λ r. record { items = r.items.items; places = r.places } };

    ghost invariant = { λ r. r.places ≤ vec_capacity r.items };
}

impl<T> ReservedList<T> {
    /// An empty list with so many places.
    pub fn new(alloc: Global, places: usize) -> Result<ReservedList<T>, NoMemory>
        ensures { IfOk result (λ list. list ≡ record { items = []; places = places }) }
    {
        let items = Vec::with_capacity(alloc, places)?;
        Ok(ReservedList { items, places })
    }

    /// The items.
    pub fn as_slice(&self) -> &[T]
        ensures { result.now ≡ self.now.items }
    {
        self.items.as_slice()
    }

    /// How many items there are.
    pub fn len(&self) -> usize
        ensures { result ≡ length self.now.items }
    {
        self.items.len()
    }
}

impl<T: Drop> ReservedList<T> {
    /// Appends an item, for which there is a place. It takes no memory.
    pub fn put(&mut self, item: T)
        requires { length self.old.items < self.old.places }
        ensures { self.new ≡ record self.old { items = self.old.items ++ item ∷ [] } }
    {
        let _ = self.items.push(item);
    }
}
