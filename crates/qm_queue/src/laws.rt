//! The number that the ring is built on.

ghost use Rattle.std.specs.Prelude.{◌≡◌};
ghost use Rattle.qm_queue.specs.declared.ring.TheConstants.{PLACES};

/// A ring has eight places.
pub fn a_ring_has_eight_places()
    ensures { PLACES ≡ 8 }
{}
