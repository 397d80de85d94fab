ghost use Rattle.std.specs.Prelude.{◌≡◌, [], OnOk, position, slice_get, length};
ghost use Rattle.qapi_number.specs.Implicit.{same, with_implicit};

use indexmap::IndexSet;
use qm_base::NoMemory;
use std::alloc::Global;
use std::marker::Model;

/// A type without a name of its own.
#[derive(Clone, Copy, Debug, PartialEq, Eq, Hash)]
pub enum ImplicitType {
    /// Arrays whose elements are of the type of this number.
    Array(u32),
    /// The members that the command or event at this position among the definitions writes out.
    Members(u32),
    /// The empty object type.
    Empty,
}

/// Types without names, each once, in which the place of each is found without a walk.
#[derive(Drop)]
pub struct ImplicitIndex {
    types: IndexSet<ImplicitType>,
}

impl Model for ImplicitIndex {
    ghost use Rattle.std.specs.Prelude.{List};
    ghost use Rattle.qapi_number.specs.declared.implicit.ImplicitType.{ImplicitType};

    ghost Value = { List ImplicitType };

    ghost view = { λ t. t.types.keys };
}

impl ImplicitIndex {
    /// No types. It takes no memory.
    pub fn new(alloc: Global) -> ImplicitIndex
        ensures { result ≡ [] }
    {
        ImplicitIndex {
            types: IndexSet::new(alloc),
        }
    }

    /// Adds a type, if it is not there.
    pub fn add(&mut self, one: ImplicitType) -> Result<(), NoMemory>
        ensures { OnOk result (self.new ≡ with_implicit self.old one) }
    {
        match self.types.insert(one) {
            Ok(_) => Ok(()),
            Err(_) => Err(NoMemory),
        }
    }

    /// The place of a type, counted from 0; None exactly where it is not there. It takes no
    /// memory.
    pub fn place(&self, one: ImplicitType) -> Option<usize>
        ensures { result ≡ position (same one) self.now }
    {
        self.types.get_index_of(&one)
    }

    /// The type at the place.
    pub fn at(&self, place: usize) -> Option<ImplicitType>
        ensures { result ≡ slice_get self.now place }
    {
        self.types.get_index(place).copied()
    }

    /// How many types there are.
    pub fn len(&self) -> usize
        ensures { result ≡ length self.now }
    {
        self.types.len()
    }
}
