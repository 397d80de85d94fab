use qm_base::{GrowingList, Text};
use qm_json::Json;

/// A change of a store.
#[derive(Drop)]
pub enum StoreChange {
    /// The cell of the name gets the value.
    Cell(Text, Json),
    /// The tally of the name gets the count.
    Tally(Text, u64),
}

/// Changes in order, the oldest first.
pub type StoreChangeList = GrowingList<StoreChange>;
