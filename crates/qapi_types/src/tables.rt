ghost use Rattle.std.specs.Prelude.{◌≡◌, ◌<◌, ◌+◌, ◌^◌, [], length, map, IfOk, OnOk};
ghost use Rattle.qapi_types.specs.Choices.{AreApart};
ghost use Rattle.qapi_types.specs.Lookups.{place_of, with_name};

use indexmap::IndexSet;
use qm_base::NoMemory;
use std::alloc::Global;
use std::marker::Model;

/// Names in order, in which the place of each is found without a walk.
#[derive(Drop)]
pub struct NameIndex {
    names: IndexSet<Vec<u8>>,
}

impl Model for NameIndex {
    ghost use Rattle.std.specs.Prelude.{ℕ, List, map, length, ◌<◌, ◌^◌};

    ghost Value = { List (List ℕ) };

    ghost view = { λ t. map (λ k. k.items) t.names.keys };

    ghost invariant = { λ t. length (map (λ k. k.items) t.names.keys) < 2 ^ 32 };
}

impl NameIndex {
    /// No names. It takes no memory.
    fn new(alloc: Global) -> NameIndex
        ensures { result ≡ [] }
    {
        NameIndex {
            names: IndexSet::new(alloc),
        }
    }

    /// The place of the name, counted from 0; None exactly where it is not there. It takes no
    /// memory.
    pub fn place(&self, name: &[u8]) -> Option<u32>
        ensures { result ≡ place_of self.now name.now }
    {
        match self.names.get_index_of(name) {
            Some(place) => Some(place as u32),
            None => None,
        }
    }

    /// Adds a name, if it is not there.
    fn add(&mut self, alloc: Global, name: &[u8]) -> Result<(), NoMemory>
        requires { length self.old + 1 < 2 ^ 32 }
        ensures { OnOk result (self.new ≡ with_name self.old name.now) }
    {
        let Ok(name) = Vec::from_slice(alloc, name) else {
            return Err(NoMemory);
        };
        match self.names.insert(name) {
            Ok(_) => Ok(()),
            Err(_) => Err(NoMemory),
        }
    }
}

/// The table of names that differ.
pub fn table_of(alloc: Global, names: &[&[u8]]) -> Result<NameIndex, NoMemory>
    requires apart { AreApart (map (λ k. k.now) names.now) }
    requires few { length names.now < 2 ^ 32 }
    ensures { IfOk result (λ table. table ≡ map (λ k. k.now) names.now) }
{
    let mut table = NameIndex::new(alloc);
    for name in names {
        table.add(alloc, *name)?;
    }
    Ok(table)
}
