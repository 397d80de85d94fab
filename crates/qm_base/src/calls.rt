ghost use Rattle.std.specs.Prelude.{◌≡◌};
ghost use Rattle.qm_base.specs.Calls.{is_listed};

use crate::growing::GrowingList;

/// Numbers of calls, counted from 1.
pub type CallList = GrowingList<u64>;

impl GrowingList<u64> {
    /// Whether the number is in the list.
    pub fn has(&self, call: u64) -> bool
        ensures { result ≡ is_listed call self.now }
    {
        self.as_slice().iter().any(|other| *other == call)
    }
}
