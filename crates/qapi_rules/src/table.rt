ghost use Rattle.std.specs.Prelude.{◌≡◌, length, map, IfOk};
ghost use Rattle.std.specs.Option.{option_copied};
ghost use Rattle.qapi_types.specs.Lookups.{place_of};
ghost use Rattle.qapi_rules.specs.Meanings.{names_of, definition_of, entity_of, meant};

use crate::directory::Directory;
use crate::meaning::{Meaning, meaning_by};
use qapi_define::Definition;
use qm_base::{GrowingList, NoMemory};
use std::alloc::Global;
use std::marker::Model;

/// Definitions in order, each found by its name without a walk.
#[derive(Drop)]
pub struct DefinitionTable<'a> {
    definitions: &'a [Definition],
    directory: Directory<'a>,
}

impl<'a> Model for DefinitionTable<'a> {
    ghost use Rattle.std.specs.Prelude.{◌≡◌, List};
    ghost use Rattle.qapi_define.specs.declared.definition.Definition.{Definition};
    ghost use Rattle.qapi_rules.specs.Meanings.{names_of};

    ghost Value = { List Definition };

    ghost view = { λ t. t.definitions.now };

    ghost invariant = { λ t. t.directory ≡ names_of t.definitions.now };
}

/// The names of definitions.
fn names<'a>(
    alloc: Global,
    definitions: &'a [Definition],
) -> Result<GrowingList<&'a [u8]>, NoMemory>
    ensures { IfOk result (λ names. map (λ k. k.now) names ≡ names_of definitions.now) }
{
    let mut names = GrowingList::new(alloc);
    for definition in definitions {
        names.push(definition.name.as_slice())?;
    }
    Ok(names)
}

impl<'a> DefinitionTable<'a> {
    /// The table of definitions, whose names may repeat.
    pub fn of(alloc: Global, definitions: &'a [Definition]) -> Result<DefinitionTable<'a>, NoMemory>
        ensures { IfOk result (λ table. table ≡ definitions.now) }
    {
        let names = names(alloc, definitions)?;
        let directory = Directory::of(alloc, names)?;
        Ok(DefinitionTable {
            definitions,
            directory,
        })
    }

    /// The definitions.
    pub fn definitions(&self) -> &'a [Definition]
        ensures { result.now ≡ self.now }
    {
        self.definitions
    }

    /// The place of the first definition of the name, counted from 0.
    pub fn place(&self, name: &[u8]) -> Option<usize>
        ensures { result ≡ place_of (names_of self.now) name.now }
    {
        self.directory.place(name)
    }

    /// The first definition of the name.
    pub fn find(&self, name: &[u8]) -> Option<&'a Definition>
        ensures { option_copied result ≡ definition_of self.now name.now }
    {
        match self.directory.place(name) {
            Some(place) => self.definitions.get(place),
            None => None,
        }
    }

    /// What the name stands for.
    pub fn meaning(&self, name: &[u8]) -> Meaning<'a>
        ensures { meant result ≡ entity_of self.now name.now }
    {
        meaning_by(name, self.find(name))
    }
}
