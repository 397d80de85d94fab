ghost use Rattle.std.specs.Prelude.{◌≡◌, ℕ, List, map, Option, Some, None, cond, IfOk, OnOk};
ghost use Rattle.std.specs.Option.{option_or};
ghost use Rattle.std.specs.Str.{bytes_eq};
ghost use Rattle.qapi_types.specs.Lookups.{place_of};
ghost use Rattle.qapi_rules.specs.Directories.{place_in, ArePlaces};

use indexmap::IndexMap;
use qm_base::{GrowingList, NoMemory};
use std::alloc::Global;
use std::marker::Model;

/// Names in order, in which the first place of each is found without a walk.
#[derive(Drop)]
pub struct Directory<'a> {
    names: GrowingList<&'a [u8]>,
    places: IndexMap<&'a [u8], usize>,
}

impl<'a> Model for Directory<'a> {
    ghost use Rattle.std.specs.Prelude.{ℕ, List, map};
    ghost use Rattle.qapi_rules.specs.Directories.{ArePlaces};

    ghost Value = { List (List ℕ) };

    ghost view = { λ d. map (λ k. k.now) d.names };

    ghost invariant = { λ d. ArePlaces (map (λ k. k.now) d.names) d.places.entries };
}

/// Notes the place of a name that has none.
fn note<'a>(
    places: &mut IndexMap<&'a [u8], usize>,
    name: &'a [u8],
    place: usize,
) -> Result<(), NoMemory>
    ensures { OnOk result ((other : List ℕ) → place_in places.new.entries other ≡
        option_or (place_in places.old.entries other) (cond (bytes_eq other name.now) (Some place) None)) }
{
    if places.get(name).is_some() {
        return Ok(());
    }
    match places.insert(name, place) {
        Ok(_) => Ok(()),
        Err(_) => Err(NoMemory),
    }
}

/// The first place of each of the names.
fn places_of<'a>(alloc: Global, names: &[&'a [u8]]) -> Result<IndexMap<&'a [u8], usize>, NoMemory>
    ensures { IfOk result (λ places. ArePlaces (map (λ k. k.now) names.now) places.entries) }
{
    let mut places = IndexMap::new(alloc);
    for (place, name) in names.iter().enumerate() {
        note(&mut places, *name, place)?;
    }
    Ok(places)
}

impl<'a> Directory<'a> {
    /// The directory of names, which may repeat.
    pub fn of(alloc: Global, names: GrowingList<&'a [u8]>) -> Result<Directory<'a>, NoMemory>
        ensures { IfOk result (λ directory. directory ≡ map (λ k. k.now) names.entry) }
    {
        let places = places_of(alloc, names.as_slice())?;
        Ok(Directory { names, places })
    }

    /// The place of the first of the names that is the name, counted from 0; None exactly where it
    /// is not there. It takes no memory.
    pub fn place(&self, name: &[u8]) -> Option<usize>
        ensures { result ≡ place_of self.now name.now }
    {
        self.places.get(name).copied()
    }
}
