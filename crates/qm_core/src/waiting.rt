ghost use Rattle.std.specs.Prelude.{◌≡◌, ◌<◌, ◌≤◌, [], ◌∷◌, ◌++◌, drop, length, slice_get, IfOk, IfSome, option_map};
ghost use Rattle.qm_core.specs.Inputs.{document_of};
ghost use Rattle.qm_core.specs.Standing.{named_of};

use crate::requests::{Begun, RequestName, Waiting};
use circular_buffer::HeapCircularBuffer;
use qm_base::NoMemory;
use qm_queue::PLACES;
use std::alloc::Global;
use std::marker::Model;

/// The requests of a session that were admitted in band and not started, the oldest first.
/// Contracts see the requests. There are places for as many as may wait.
#[derive(Drop)]
pub(crate) struct WaitingList {
    requests: HeapCircularBuffer<Waiting>,
}

impl Model for WaitingList {
    ghost use Rattle.std.specs.Prelude.{List, ◌≡◌, ◌≤◌, length};
    ghost use Rattle.std.specs.Coded.{coded_list};
    ghost use Rattle.qm_core.specs.declared.requests.Request.{Request};
    ghost use Rattle.qm_core.specs.contracts.requests.Request as request;
    ghost use Rattle.qm_queue.specs.declared.ring.TheConstants.{PLACES};

    ghost Value = { List Request };

    ghost coded = { coded_list request.the_row.coded };

    ghost view = { λ w. w.requests.items };

    ghost invariant = { λ w. (length w.requests.items ≤ PLACES) × (w.requests.capacity ≡ PLACES) };
}

impl WaitingList {
    ghost use Rattle.qm_queue.specs.declared.ring.TheConstants.{PLACES};

    /// No requests, and their places.
    pub(crate) fn new(alloc: Global) -> Result<WaitingList, NoMemory>
        ensures { IfOk result (λ list. list ≡ []) }
    {
        match HeapCircularBuffer::with_capacity(alloc, PLACES) {
            Ok(requests) => Ok(WaitingList { requests }),
            Err(_) => Err(NoMemory),
        }
    }

    /// How many requests there are.
    pub(crate) fn len(&self) -> u32
        ensures count { result ≡ length self.now }
        ensures within { result ≤ PLACES }
    {
        self.requests.len() as u32
    }

    /// The oldest request, by its name.
    pub(crate) fn first(&self) -> Option<RequestName>
        ensures { result ≡ named_of (slice_get self.now 0) }
    {
        match self.requests.front() {
            Some(waiting) => {
                let request = waiting.request();
                Some(RequestName {
                    session: request.session,
                    number: request.number,
                })
            }
            None => None,
        }
    }

    /// Puts a request behind the others, for which there is a place. It takes no memory.
    pub(crate) fn put(&mut self, waiting: Waiting)
        requires { length self.old < PLACES }
        ensures { self.new ≡ self.old ++ waiting ∷ [] }
    {
        self.requests.push_back(waiting);
    }

    /// Takes the oldest request out. It takes no memory.
    pub(crate) fn take(&mut self) -> Option<Begun>
        ensures first { option_map (λ begun. begun.request) result ≡ slice_get self.old 0 }
        ensures document { IfSome result (λ begun. begun.document ≡ document_of begun.request.input) }
        ensures rest { self.new ≡ drop 1 self.old }
    {
        match self.requests.pop_front() {
            Some(waiting) => Some(waiting.begin()),
            None => None,
        }
    }
}
