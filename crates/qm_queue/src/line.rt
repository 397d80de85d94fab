ghost use Rattle.std.specs.Prelude.{◌≡◌, ◌++◌, ◌∷◌, [], drop, true, false, slice_get};
ghost use Rattle.qm_queue.specs.Firsts.{IsFirst};
ghost use Rattle.qm_queue.specs.Lines.{MayFollow};

use crate::turns::{TurnItem, comes_before};
use qm_base::NoMemory;
use std::alloc::Global;
use std::collections::VecDeque;
use std::marker::Model;

/// Items in the order of their turns. Contracts see their list.
#[derive(Drop)]
pub(crate) struct Line {
    items: VecDeque<TurnItem>,
}

impl Model for Line {
    ghost use Rattle.std.specs.Prelude.{List};
    ghost use Rattle.qm_queue.specs.Lines.{IsOrdered};
    ghost use Rattle.qm_queue.specs.declared.turns.TurnItem.{TurnItem};

    ghost Value = { List TurnItem };

    ghost view = { λ l. l.items.items };

    ghost invariant = { λ l. IsOrdered l.items.items };
}

/// Whether an item may stand behind the last one.
fn may_follow(items: &VecDeque<TurnItem>, item: &TurnItem) -> bool
    ensures { result ≡ true → MayFollow items.now.items item.now }
{
    match items.back() {
        Some(last) => !comes_before(item, last),
        None => true,
    }
}

/// The item that stands first.
fn front(items: &VecDeque<TurnItem>) -> Option<TurnItem>
    ensures { result ≡ slice_get items.now.items 0 }
{
    items.front().copied()
}

impl Line {
    /// No items. It takes no memory.
    pub(crate) fn new(alloc: Global) -> Line
        ensures { result ≡ [] }
    {
        Line {
            items: VecDeque::new(alloc),
        }
    }

    /// Makes room for so many items in all.
    pub(crate) fn reserve(&mut self, places: usize) -> Result<(), NoMemory>
        ensures { self.new ≡ self.old }
    {
        match self.items.reserve(places.saturating_sub(self.items.len())) {
            Ok(()) => Ok(()),
            Err(_) => Err(NoMemory),
        }
    }

    /// The item that no other precedes.
    pub(crate) fn first(&self) -> Option<TurnItem>
        ensures first { IsFirst self.now result }
        ensures front { result ≡ slice_get self.now 0 }
    {
        front(&self.items)
    }

    /// Puts an item behind the others, if it does not precede the last one and there is room. It
    /// takes no memory.
    #[tactic(auto, using(crate::proofs::Lining::ordered_more))]
    pub(crate) fn put(&mut self, item: TurnItem) -> bool
        ensures put { result ≡ true → self.new ≡ self.old ++ item ∷ [] }
        ensures same { result ≡ false → self.new ≡ self.old }
    {
        if self.items.len() == self.items.capacity() || !may_follow(&self.items, &item) {
            return false;
        }
        match self.items.push_back(item) {
            Ok(()) => true,
            Err(_) => false,
        }
    }

    /// Lets the first item go.
    #[tactic(auto, using(crate::proofs::Lining::ordered_rest))]
    pub(crate) fn drop_first(&mut self)
        ensures { self.new ≡ drop 1 self.old }
    {
        let _ = self.items.pop_front();
    }
}
