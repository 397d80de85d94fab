ghost use Rattle.std.specs.Prelude.{◌≡◌, ℕ, List, map, length, Some, None, cond, IfOk, OnOk};
ghost use Rattle.std.specs.Option.{option_or};
ghost use Rattle.std.specs.Str.{bytes_eq};
ghost use Rattle.qapi_types.specs.Lookups.{place_of};
ghost use Rattle.qapi_number.specs.Directories.{place_in, ArePlaces};

use indexmap::IndexMap;
use qm_base::{GrowingList, NoMemory};
use std::alloc::Global;
use std::marker::Model;

/// Names in order, which may repeat; the first place of each is found without a walk.
#[derive(Drop)]
pub struct Directory<'a> {
    names: GrowingList<&'a [u8]>,
    places: IndexMap<Vec<u8>, usize>,
}

impl<'a> Model for Directory<'a> {
    ghost use Rattle.std.specs.Prelude.{ℕ, List, map};
    ghost use Rattle.qapi_number.specs.Directories.{ArePlaces};

    ghost Value = { List (List ℕ) };

    ghost view = { λ d. map (λ k. k.now) d.names };

    ghost invariant = { λ d. ArePlaces (λ k. k.items) (map (λ k. k.now) d.names) d.places.entries };
}

fn place_of_key(places: &IndexMap<Vec<u8>, usize>, name: &[u8]) -> Option<usize>
    ensures { result ≡ place_in (λ k. k.items) places.now.entries name.now }
{
    places.get(name).copied()
}

fn add_new(
    alloc: Global,
    places: &mut IndexMap<Vec<u8>, usize>,
    name: &[u8],
    place: usize,
) -> Result<(), NoMemory>
    requires { place_in (λ k. k.items) places.old.entries name.now ≡ None }
    ensures { OnOk result ((other : List ℕ) → place_in (λ k. k.items) places.new.entries other ≡
        option_or (place_in (λ k. k.items) places.old.entries other) (cond (bytes_eq other name.now) (Some place) None)) }
{
    let Ok(key) = Vec::from_slice(alloc, name) else {
        return Err(NoMemory);
    };
    match places.insert(key, place) {
        Ok(_) => Ok(()),
        Err(_) => Err(NoMemory),
    }
}

/// Notes the place of a name that has none.
fn note(
    alloc: Global,
    places: &mut IndexMap<Vec<u8>, usize>,
    name: &[u8],
    place: usize,
) -> Result<(), NoMemory>
    ensures { OnOk result ((other : List ℕ) → place_in (λ k. k.items) places.new.entries other ≡
        option_or (place_in (λ k. k.items) places.old.entries other) (cond (bytes_eq other name.now) (Some place) None)) }
{
    match place_of_key(places, name) {
        Some(_) => Ok(()),
        None => add_new(alloc, places, name, place),
    }
}

fn places_of(alloc: Global, names: &[&[u8]]) -> Result<IndexMap<Vec<u8>, usize>, NoMemory>
    ensures { IfOk result (λ places. ArePlaces (λ k. k.items) (map (λ k. k.now) names.now) places.entries) }
{
    let mut places = IndexMap::new(alloc);
    for (place, name) in names.iter().enumerate() {
        note(alloc, &mut places, *name, place)?;
    }
    Ok(places)
}

impl<'a> Directory<'a> {
    /// The directory of names, which may repeat.
    pub fn of(alloc: Global, names: GrowingList<&'a [u8]>) -> Result<Directory<'a>, NoMemory>
        ensures { IfOk result (λ directory. directory ≡ map (λ k. k.now) names.entry) }
    {
        let places = places_of(alloc, names.as_slice())?;
        Ok(Directory { names, places })
    }

    /// The place of the first of the names that is the name, counted from 0; None exactly where it
    /// is not there. It takes no memory.
    pub fn place(&self, name: &[u8]) -> Option<usize>
        ensures { result ≡ place_of self.now name.now }
    {
        place_of_key(&self.places, name)
    }

    /// How many names there are.
    pub fn len(&self) -> usize
        ensures { result ≡ length self.now }
    {
        self.names.len()
    }
}
