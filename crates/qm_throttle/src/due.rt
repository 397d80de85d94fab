ghost use Rattle.std.specs.Prelude.{◌≡◌, Some, refl, IfOk};
ghost use Rattle.std.specs.Cmp;
ghost use Rattle.std.specs.Cmp.{eq_by_cmp_equiv, partial_order_from_agreeing_total};
ghost use Rattle.std.specs.Ordering.{eq_by_cmp};
ghost use Rattle.qm_throttle.specs.Deadlines.{due_order, due_total};

use crate::keys::WindowKey;
use qm_base::NoMemory;
use std::alloc::Global;
use std::cmp::Ordering;

/// When a window ends: its deadline, in microseconds, and its key.
#[derive(Drop)]
pub(crate) struct Due {
    pub deadline: u128,
    pub key: WindowKey,
}

impl Due {
    /// An equal one.
    pub(crate) fn copy(&self, alloc: Global) -> Result<Due, NoMemory>
        ensures { IfOk result (λ copied. copied ≡ self.now) }
    {
        let key = self.key.copy(alloc)?;
        Ok(Due {
            deadline: self.deadline,
            key,
        })
    }
}

impl PartialEq for Due {
    ghost eq = { eq_by_cmp due_order };

    ghost laws = { Cmp.partial_equiv_from_equiv (eq_by_cmp_equiv due_total) };

    fn eq(&self, other: &Due) -> bool {
        match self.cmp(other) {
            Ordering::Less => false,
            Ordering::Equal => true,
            Ordering::Greater => false,
        }
    }
}

impl Eq for Due {
    ghost laws = { eq_by_cmp_equiv due_total };
}

impl PartialOrd for Due {
    ghost partial_cmp = { λ x y. Some (due_order x y) };

    ghost laws = { partial_order_from_agreeing_total due_order due_total (λ x y. refl) (λ x y. refl) };

    fn partial_cmp(&self, other: &Due) -> Option<Ordering> {
        Some(self.cmp(other))
    }
}

impl Ord for Due {
    ghost cmp = { due_order };

    ghost total = { due_total };

    ghost matches_partial_cmp = { λ x y. refl };

    ghost matches_eq = { λ x y. refl };

    fn cmp(&self, other: &Due) -> Ordering {
        match self.deadline.cmp(&other.deadline) {
            Ordering::Less => Ordering::Less,
            Ordering::Equal => self.key.cmp(&other.key),
            Ordering::Greater => Ordering::Greater,
        }
    }
}
