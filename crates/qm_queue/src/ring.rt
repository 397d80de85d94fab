ghost use Rattle.std.specs.Prelude.{◌≡◌, ◌<◌, ◌≤◌, [], ◌∷◌, ◌++◌, length, drop, IfOk, slice_get};

use circular_buffer::HeapCircularBuffer;
use qm_base::NoMemory;
use std::alloc::Global;
use std::marker::Model;

/// How many requests a ring has places for.
pub const PLACES: usize = 8;

/// The numbers of the requests that wait, the oldest first. Contracts see their list.
#[derive(Drop)]
pub struct Ring {
    numbers: HeapCircularBuffer<u64>,
}

impl Model for Ring {
    ghost use Rattle.std.specs.Prelude.{List, ℕ, ◌≡◌, ◌≤◌, length};
    ghost use Rattle.qm_queue.specs.declared.ring.TheConstants.{PLACES};

    ghost Value = { List ℕ };

    ghost view = { λ r. r.numbers.items };

    ghost invariant = { λ r. (r.numbers.capacity ≡ PLACES) × (length r.numbers.items ≤ PLACES) };
}

impl Ring {
    ghost use Rattle.qm_queue.specs.declared.ring.TheConstants.{PLACES};

    /// A ring without numbers, which has its places.
    pub fn new(alloc: Global) -> Result<Ring, NoMemory>
        ensures { IfOk result (λ ring. ring ≡ []) }
    {
        match HeapCircularBuffer::with_capacity(alloc, PLACES) {
            Ok(numbers) => Ok(Ring { numbers }),
            Err(_) => Err(NoMemory),
        }
    }

    /// Puts a number behind the others, for which there is a place. It takes no memory.
    pub fn put(&mut self, number: u64)
        requires { length self.old < PLACES }
        ensures { self.new ≡ self.old ++ number ∷ [] }
    {
        self.numbers.push_back(number);
    }

    /// Takes the oldest number out; `None` where there is none.
    pub fn take(&mut self) -> Option<u64>
        ensures first { result ≡ slice_get self.old 0 }
        ensures rest { self.new ≡ drop 1 self.old }
    {
        self.numbers.pop_front()
    }

    /// How many numbers there are.
    pub fn len(&self) -> u32
        ensures count { result ≡ length self.now }
        ensures within { result ≤ PLACES }
    {
        self.numbers.len() as u32
    }
}
