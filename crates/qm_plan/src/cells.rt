use qm_base::{GrowingList, Text};
use qm_json::Json;

/// A cell of a store as it is at first.
#[derive(Drop)]
pub struct Cell {
    /// Its name, as UTF-8.
    pub name: Text,
    /// Its first value.
    pub first: Json,
}

/// The cells of a store, in order.
pub type CellList = GrowingList<Cell>;
