ghost use Rattle.std.specs.Prelude.{◌≡◌, [], OnErr, IsErr, true};
ghost use Rattle.qm_base.specs.Faults.{Puts, Counts};
ghost use Rattle.qm_base.specs.Calls.{fails_next, next_call};

use crate::sink::{Sink, SinkFailed};
use qm_base::{CallList, Text};
use std::alloc::Global;
use std::marker::Model;

/// A sink that keeps what it takes. Calls are counted from 1, as far as 64 bits count.
#[derive(Drop)]
pub struct MemorySink {
    taken: Text,
    calls: u64,
    faults: u64,
    failing: CallList,
}

impl Model for MemorySink {
    ghost use Rattle.qm_link.specs.MemorySinks.{Sunk};

    ghost Value = { Sunk };

    ghost view = { λ s. record { taken = s.taken; calls = s.calls; faults = s.faults; failing = s.failing } };
}

impl MemorySink {
    /// An empty sink, of which these calls are to fail. It takes no memory.
    pub fn new(alloc: Global, failing: CallList) -> MemorySink
        ensures { result ≡ record { taken = []; calls = 0; faults = 0; failing = failing } }
    {
        MemorySink {
            taken: Text::new(alloc),
            calls: 0,
            faults: 0,
            failing,
        }
    }

    /// The bytes taken so far.
    pub fn taken(&self) -> &[u8]
        ensures { result.now ≡ self.now.taken }
    {
        self.taken.as_slice()
    }
}

impl Sink for MemorySink {
    ghost use Rattle.std.specs.Prelude.{Some};

    ghost contents = { λ s. Some s.taken };

    ghost faults = { λ s. s.faults };

    /// A call that fails takes nothing. One that is to fail fails; another fails only for want of
    /// memory.
    fn put(&mut self, piece: &[u8]) -> Result<(), SinkFailed>
        ensures bytes { Puts (Some self.old.taken) piece.now result (Some self.new.taken) }
        ensures cause { Counts self.old.faults self.new.faults result }
        ensures nothing { OnErr result (self.new.taken ≡ self.old.taken) }
        ensures listed { fails_next self.old.calls self.old.failing ≡ true → IsErr result }
        ensures counted { self.new.calls ≡ next_call self.old.calls }
        ensures same { self.new.failing ≡ self.old.failing }
    {
        let call = self.calls.saturating_add(1);
        self.calls = call;
        if self.failing.has(call) {
            self.faults = self.faults.saturating_add(1);
            return Err(SinkFailed);
        }
        match self.taken.extend(piece) {
            Ok(()) => Ok(()),
            Err(_) => {
                self.faults = self.faults.saturating_add(1);
                Err(SinkFailed)
            }
        }
    }
}
