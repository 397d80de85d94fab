ghost use Rattle.std.specs.Prelude.{◌≡◌, [], OnOk};
ghost use Rattle.qm_base.specs.Names.{is_named, AddsName};

use crate::text::NoMemory;
use std::alloc::Global;
use std::collections::BTreeSet;
use std::marker::Model;

/// A table of names, in their order, so that no choice of names makes it slow.
#[derive(Drop)]
pub struct NameTable {
    names: BTreeSet<Vec<u8>>,
}

impl Model for NameTable {
    ghost use Rattle.std.specs.Prelude.{ℕ, List, map};

    ghost Value = { List (List ℕ) };

    ghost view = { λ t. map (λ k. k.items) t.names.keys };
}

impl NameTable {
    /// No names. It takes no memory.
    pub fn new(alloc: Global) -> NameTable
        ensures { result ≡ [] }
    {
        NameTable {
            names: BTreeSet::new(alloc),
        }
    }

    /// Whether the table has the name.
    pub fn has(&self, name: &[u8]) -> bool
        ensures { result ≡ is_named self.now name.now }
    {
        self.names.contains(name)
    }

    /// Adds a name. It takes memory for a copy.
    pub fn add(&mut self, alloc: Global, name: &[u8]) -> Result<(), NoMemory>
        ensures { OnOk result (AddsName self.old name.now self.new) }
    {
        let Ok(name) = Vec::from_slice(alloc, name) else {
            return Err(NoMemory);
        };
        match self.names.insert(name) {
            Ok(_) => Ok(()),
            Err(_) => Err(NoMemory),
        }
    }
}
