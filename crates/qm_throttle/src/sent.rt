ghost use Rattle.std.specs.Prelude.{◌≡◌, IfOk};
ghost use Rattle.qm_throttle.specs.Windows.{event_of};

use qm_base::{GrowingList, NoMemory};
use qm_json::Json;
use qm_plan::Raised;
use std::alloc::Global;

/// An event that was raised at a moment.
#[derive(Debug, Drop)]
pub struct Sent {
    /// The event's number.
    pub event: u32,
    /// The event's data.
    pub payload: Json,
    /// When it was raised, in microseconds.
    pub moment: u64,
}

/// Events in the order in which they are sent.
pub type SentList = GrowingList<Sent>;

impl Sent {
    /// An event that is raised at a moment. It takes no memory.
    pub fn at(raised: Raised, moment: u64) -> Sent
        ensures { result ≡ event_of raised moment }
    {
        let Raised { event, payload } = raised;
        Sent {
            event,
            payload,
            moment,
        }
    }

    /// An equal event.
    pub fn copy(&self, alloc: Global) -> Result<Sent, NoMemory>
        ensures { IfOk result (λ sent. sent ≡ self.now) }
    {
        let payload = self.payload.copy(alloc)?;
        Ok(Sent {
            event: self.event,
            payload,
            moment: self.moment,
        })
    }
}
