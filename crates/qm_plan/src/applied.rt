use crate::changes::StoreChangeList;
use crate::events::RaisedList;
use crate::recipes::Act;
use qm_base::{NoMemory, Text};
use qm_json::Json;
use sqlite_items::Items;

/// What comes of a plan that does not fail.
#[derive(Drop)]
pub struct Applied {
    /// The value that it returns.
    pub ret: Json,
    /// How it changes the store.
    pub changes: StoreChangeList,
    /// Its acts on jobs, in order, each id a constant.
    pub jobs: Items<Act>,
    /// The events that it raises, in order.
    pub raised: RaisedList,
    /// Whether execution out of band is enabled, where the negotiation ends.
    pub enable: Option<bool>,
    /// Whether the monitor stops.
    pub quit: bool,
}

/// Why a plan was not applied.
#[derive(Drop)]
pub enum ApplyFault {
    /// It fails with this text.
    Failed(Text),
    /// The tally of this name would pass 2^63-1.
    TallyFull(Text),
    /// No memory was left.
    Memory,
}

impl From<NoMemory> for ApplyFault {
    ghost use Rattle.std.specs.Prelude.{◌≡◌};
    ghost use Rattle.qm_plan.specs.declared.applied.ApplyFault.TheVariants.{Memory};

    ghost from_gives = { λ _ fault. fault ≡ Memory };

    fn from(_: NoMemory) -> ApplyFault {
        ApplyFault::Memory
    }
}
