ghost use Rattle.std.specs.Prelude.{◌≡◌, ◌<◌, ◌-◌, ◌*◌, ◌+◌, ◌∷◌, ◌++◌, [], None, length, slice_set as set, OnOk, OnErr};
ghost use Rattle.qm_queue.specs.Trees.{IsTree, IsTreeBut, item_at, best_below};
ghost use Rattle.qm_queue.specs.Firsts.{IsFirst};
ghost use Rattle.qm_queue.specs.Turns.{waiting_in};

use crate::turns::{TurnItem, earlier};
use qm_base::NoMemory;
use std::alloc::Global;
use std::marker::Model;

/// Places that may each have an item, and the first of these in the order of turns. Contracts see
/// the list of the places.
#[derive(Drop)]
pub(crate) struct Tree {
    /// The item of each place.
    owns: Vec<Option<TurnItem>>,
    /// The best of each place's item and of what stands below it in the tree.
    bests: Vec<Option<TurnItem>>,
}

impl Model for Tree {
    ghost use Rattle.std.specs.Prelude.{List, Option};
    ghost use Rattle.qm_queue.specs.Trees.{IsTree};
    ghost use Rattle.qm_queue.specs.declared.turns.TurnItem.{TurnItem};

    ghost Value = { List (Option TurnItem) };

    ghost view = { λ t. t.owns.items };

    ghost invariant = { λ t. IsTree t.owns.items t.bests.items };
}

/// The best of a place's own item and of the two below it.
fn best(owns: &[Option<TurnItem>], bests: &[Option<TurnItem>], place: usize) -> Option<TurnItem>
    requires within { place < length owns.now }
    requires same { length bests.now ≡ length owns.now }
    ensures { result ≡ best_below owns.now bests.now place }
{
    let own = &owns[place];
    if place >= owns.len() / 2 {
        return *own;
    }
    let left = &bests[2 * place + 1];
    match bests.get(2 * place + 2) {
        Some(right) => *earlier(own, earlier(left, right)),
        None => *earlier(own, left),
    }
}

/// What the first place tells, and none without one.
fn root(bests: &[Option<TurnItem>]) -> Option<TurnItem>
    ensures { result ≡ item_at bests.now 0 }
{
    match bests.first() {
        Some(item) => *item,
        None => None,
    }
}

/// Tells the best of a place, and of all places above it that this changes.
fn settle(owns: &[Option<TurnItem>], bests: &mut [Option<TurnItem>], place: usize)
    requires within { place < length owns.now }
    requires tree { IsTreeBut place owns.now bests.old }
    ensures { IsTree owns.now bests.new }
{
    let best = best(owns, bests, place);
    if bests[place] == best {
        return;
    }
    bests[place] = best;
    if place > 0 {
        settle(owns, bests, (place - 1) / 2);
    }
}

impl Tree {
    /// No places. It takes no memory.
    pub(crate) fn new(alloc: Global) -> Tree
        ensures { result ≡ [] }
    {
        Tree {
            owns: Vec::new(alloc),
            bests: Vec::new(alloc),
        }
    }

    /// One place more, without an item. An error leaves the places as they were.
    pub(crate) fn open(&mut self) -> Result<(), NoMemory>
        ensures ok { OnOk result (self.new ≡ self.old ++ None ∷ []) }
        ensures err { OnErr result (self.new ≡ self.old) }
    {
        if self.bests.push(None).is_err() {
            return Err(NoMemory);
        }
        if self.owns.push(None).is_err() {
            self.bests.pop();
            return Err(NoMemory);
        }
        Ok(())
    }

    /// The item that no other precedes.
    pub(crate) fn first(&self) -> Option<TurnItem>
        ensures { IsFirst (waiting_in self.now) result }
    {
        root(self.bests.as_slice())
    }

    /// Gives a place its item or none, in place of what it had. It takes no memory.
    pub(crate) fn set(&mut self, place: usize, item: Option<TurnItem>)
        requires { place < length self.old }
        ensures { self.new ≡ set self.old place item }
    {
        self.owns[place] = item;
        settle(self.owns.as_slice(), self.bests.as_mut_slice(), place);
    }
}
