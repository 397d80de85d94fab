ghost use Rattle.std.specs.Prelude.{◌≡◌, ℕ, List, ◌∷◌, [], ◌++◌, map, IfOk, IsTrue, OnOk};
ghost use Rattle.std.specs.List.{IsDistinct};
ghost use Rattle.std.specs.Map.{keys_of, set_value};
ghost use Rattle.std.specs.Option.{option_copied};
ghost use Rattle.std.specs.Str.{bytes_eq};
ghost use Rattle.qm_json.specs.Cleanness.{are_distinct};
ghost use Rattle.qm_plan.specs.Stores.{LacksCell, LacksTally, counts_of, held_of, names_of};

use crate::cells::Cell;
use crate::changes::{StoreChange, StoreChangeList};
use indexmap::IndexMap;
use qm_base::{NoMemory, Text};
use qm_json::Json;
use std::alloc::Global;
use std::marker::Model;

/// Named values and named counts. Contracts see the cells and the tallies in their order.
#[derive(Drop)]
pub struct Store {
    cells: IndexMap<Vec<u8>, Json>,
    tallies: IndexMap<Vec<u8>, u64>,
}

impl Model for Store {
    ghost use Rattle.qm_json.specs.contracts.value.Json as json;
    ghost use Rattle.qm_plan.specs.Stores.{Contents, contents_code, counts_of, held_of};

    ghost Value = { Contents };

    ghost coded = { contents_code json.the_row.coded };

    ghost view = { λ s. record {
      cells = held_of (λ key. key.items) s.cells.entries;
      tallies = counts_of (λ key. key.items) s.tallies.entries;
    } };
}

/// Puts a cell behind the others, none of which has its name.
fn put_cell(
    alloc: Global,
    cells: &mut IndexMap<Vec<u8>, Json>,
    name: &[u8],
    value: Json,
) -> Result<(), NoMemory>
    requires { LacksCell name.now (held_of (λ key. key.items) cells.old.entries) }
    ensures { OnOk result (held_of (λ key. key.items) cells.new.entries ≡
        held_of (λ key. key.items) cells.old.entries ++ record { name = name.now; value = value } ∷ []) }
{
    let Ok(key) = Vec::from_slice(alloc, name) else {
        return Err(NoMemory);
    };
    match cells.insert(key, value) {
        Ok(_) => Ok(()),
        Err(_) => Err(NoMemory),
    }
}

/// Puts a tally behind the others, none of which has its name.
fn put_tally(
    alloc: Global,
    tallies: &mut IndexMap<Vec<u8>, u64>,
    name: &[u8],
) -> Result<(), NoMemory>
    requires { LacksTally name.now (counts_of (λ key. key.items) tallies.old.entries) }
    ensures { OnOk result (counts_of (λ key. key.items) tallies.new.entries ≡
        counts_of (λ key. key.items) tallies.old.entries ++ record { name = name.now; count = 0 } ∷ []) }
{
    let Ok(key) = Vec::from_slice(alloc, name) else {
        return Err(NoMemory);
    };
    match tallies.insert(key, 0) {
        Ok(_) => Ok(()),
        Err(_) => Err(NoMemory),
    }
}

/// The cells as they are at first.
fn first_cells(alloc: Global, cells: &[Cell]) -> Result<IndexMap<Vec<u8>, Json>, NoMemory>
    requires { IsTrue (are_distinct (names_of cells.now)) }
    ensures { IfOk result (λ made. held_of (λ key. key.items) made.entries ≡
        map (λ (c : Cell). record { name = c.name; value = c.first }) cells.now) }
{
    let mut made = IndexMap::new(alloc);
    for cell in cells {
        let first = cell.first.copy(alloc)?;
        put_cell(alloc, &mut made, cell.name.as_slice(), first)?;
    }
    Ok(made)
}

/// The tallies, each 0.
fn first_tallies(alloc: Global, tallies: &[Text]) -> Result<IndexMap<Vec<u8>, u64>, NoMemory>
    requires { IsTrue (are_distinct tallies.now) }
    ensures { IfOk result (λ made. counts_of (λ key. key.items) made.entries ≡
        map (λ (name : List ℕ). record { name = name; count = 0 }) tallies.now) }
{
    let mut made = IndexMap::new(alloc);
    for name in tallies {
        put_tally(alloc, &mut made, name.as_slice())?;
    }
    Ok(made)
}

/// Lets the cell of a name have a value, where it is there.
fn set_cell(cells: &mut IndexMap<Vec<u8>, Json>, name: &[u8], value: Json)
    ensures entries { cells.new.entries ≡
        set_value (λ k. bytes_eq name.now k.items) cells.old.entries value }
    ensures unique { IsDistinct (λ x y. bytes_eq x.items y.items) (keys_of cells.old.entries) }
{
    if let Some(place) = cells.get_mut(name) {
        *place = value;
    }
}

/// Lets the tally of a name have a count, where it is there.
fn set_tally(tallies: &mut IndexMap<Vec<u8>, u64>, name: &[u8], count: u64)
    ensures entries { tallies.new.entries ≡
        set_value (λ k. bytes_eq name.now k.items) tallies.old.entries count }
    ensures unique { IsDistinct (λ x y. bytes_eq x.items y.items) (keys_of tallies.old.entries) }
{
    if let Some(place) = tallies.get_mut(name) {
        *place = count;
    }
}

impl Store {
    ghost use Rattle.std.specs.Option.{option_copied};
    ghost use Rattle.qm_plan.specs.Stores.{cell_of, changed, committed, first_of, tally_of, with_cell, with_tally};

    /// The store of these cells with their first values, and of tallies of 0 of these names.
    pub fn new(alloc: Global, cells: &[Cell], tallies: &[Text]) -> Result<Store, NoMemory>
        requires cells { IsTrue (are_distinct (names_of cells.now)) }
        requires tallies { IsTrue (are_distinct tallies.now) }
        ensures { IfOk result (λ store. store ≡ first_of cells.now tallies.now) }
    {
        let cells = first_cells(alloc, cells)?;
        let tallies = first_tallies(alloc, tallies)?;
        Ok(Store { cells, tallies })
    }

    /// The value of the cell of a name.
    pub(crate) fn cell(&self, name: &[u8]) -> Option<&Json>
        ensures { option_copied result ≡ cell_of name.now self.now }
    {
        self.cells.get(name)
    }

    /// The count of the tally of a name.
    pub(crate) fn tally(&self, name: &[u8]) -> Option<u64>
        ensures { result ≡ tally_of name.now self.now }
    {
        self.tallies.get(name).copied()
    }

    fn put_value(&mut self, name: &[u8], value: Json)
        ensures { self.new ≡ with_cell name.now value self.old }
    {
        set_cell(&mut self.cells, name, value);
    }

    fn put_count(&mut self, name: &[u8], count: u64)
        ensures { self.new ≡ with_tally name.now count self.old }
    {
        set_tally(&mut self.tallies, name, count);
    }

    fn change(&mut self, change: StoreChange)
        ensures { self.new ≡ changed change self.old }
    {
        match change {
            StoreChange::Cell(name, value) => self.put_value(name.as_slice(), value),
            StoreChange::Tally(name, count) => self.put_count(name.as_slice(), count),
        }
    }

    /// Puts changes in, in order. It takes no memory.
    pub fn commit(&mut self, changes: StoreChangeList)
        ensures { self.new ≡ committed changes self.old }
    {
        for change in changes.into_vec() {
            self.change(change);
        }
    }
}
