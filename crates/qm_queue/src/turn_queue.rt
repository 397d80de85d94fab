ghost use Rattle.std.specs.Prelude.{◌≡◌, ◌≢◌, ℕ, ◌<◌, ◌-◌, ◌+◌, ◌∷◌, ◌++◌, [], true, false, Some, None, drop, length, slice_set as set, OnOk, OnErr, IfSome};
ghost use Rattle.qm_queue.specs.Firsts.{Among};
ghost use Rattle.qm_queue.specs.Lines.{IsLive};
ghost use Rattle.qm_queue.specs.Trees.{item_at, IsNumbered};
ghost use Rattle.qm_queue.specs.Turns.{first_of, turn_of, waiting_in, without, IsOpened};
ghost use Rattle.qm_queue.specs.declared.turns.TurnItem.{TurnItem};

use crate::line::Line;
use crate::tree::Tree;
use crate::turns::{TurnItem, earlier};
use qm_base::NoMemory;
use std::alloc::Global;
use std::marker::Model;

/// The sessions of a server, numbered from 1 in the order of opening, of which some wait. Contracts
/// see the list of their items, where a session has one exactly while it waits.
#[derive(Drop)]
pub struct TurnQueue {
    /// The item of each session.
    items: Vec<Option<TurnItem>>,
    /// The items that came in the order of their turns. Some may have been taken from their
    /// sessions since, but not the first.
    line: Line,
    /// The other items, at the places of their sessions.
    tree: Tree,
}

impl Model for TurnQueue {
    ghost use Rattle.std.specs.Prelude.{List, Option};
    ghost use Rattle.qm_queue.specs.Lines.{IsParted, IsLive};
    ghost use Rattle.qm_queue.specs.Trees.{IsNumbered};
    ghost use Rattle.qm_queue.specs.declared.turns.TurnItem.{TurnItem};

    ghost Value = { List (Option TurnItem) };

    ghost view = { λ q. q.items.items };

    ghost invariant = { λ q. IsNumbered q.items.items × IsParted q.items.items q.tree q.line × IsLive q.items.items q.line };
}

/// Whether the item is that of its session.
fn waits(items: &[Option<TurnItem>], item: &TurnItem) -> bool
    requires { IsNumbered items.now }
    ensures some { result ≡ true → item_at items.now (item.now.session - 1) ≡ Some item.now }
    ensures none { result ≡ false → (k : ℕ) → item_at items.now k ≢ Some item.now }
{
    if item.session == 0 {
        return false;
    }
    match items.get(item.session as usize - 1) {
        Some(own) => *own == Some(*item),
        None => false,
    }
}

/// Whether the first of the line was taken from its session.
#[tactic(auto, using(crate::proofs::Lining::stale_rest))]
fn is_stale(items: &[Option<TurnItem>], line: &Line) -> bool
    requires { IsNumbered items.now }
    ensures live { result ≡ false → IsLive items.now line.now }
    ensures some { result ≡ true → 0 < length line.now }
    ensures stale { result ≡ true → (k : ℕ) (a : TurnItem) → item_at items.now k ≡ Some a →
        Among a line.now → Among a (drop 1 line.now) }
{
    match line.first() {
        Some(item) => !waits(items, &item),
        None => false,
    }
}

/// Lets go of what was taken from its session, up to the first in the line that waits.
fn trim(items: &[Option<TurnItem>], line: &mut Line)
    requires { IsNumbered items.now }
    ensures live { IsLive items.now line.new }
    ensures kept { (k : ℕ) (a : TurnItem) → item_at items.now k ≡ Some a → Among a line.old → Among a line.new }
{
    while is_stale(items, line) {
        line.drop_first();
    }
}

impl TurnQueue {
    /// No sessions. It takes no memory.
    pub fn new(alloc: Global) -> TurnQueue
        ensures { result ≡ [] }
    {
        TurnQueue {
            items: Vec::new(alloc),
            line: Line::new(alloc),
            tree: Tree::new(alloc),
        }
    }

    /// One session more, which does not wait. An error leaves the sessions as they were.
    pub fn open(&mut self) -> Result<(), NoMemory>
        ensures ok { OnOk result (self.new ≡ self.old ++ None ∷ []) }
        ensures err { OnErr result (self.new ≡ self.old) }
    {
        self.line.reserve(self.items.len() + 1)?;
        if self.items.push(None).is_err() {
            return Err(NoMemory);
        }
        if self.tree.open().is_err() {
            self.items.pop();
            return Err(NoMemory);
        }
        Ok(())
    }

    /// The item of each session, and `None` for one that does not wait.
    pub fn as_slice(&self) -> &[Option<TurnItem>]
        ensures { result.now ≡ self.now }
    {
        self.items.as_slice()
    }

    /// The item that no other precedes.
    fn first(&self) -> Option<TurnItem>
        ensures first { result ≡ first_of (waiting_in self.now) }
        ensures opened { IfSome result (λ a. IsOpened a.session self.now) }
    {
        *earlier(&self.tree.first(), &self.line.first())
    }

    /// The session that has the turn, as `next_turn` tells it of those that wait.
    pub fn next(&self) -> Option<u32>
        ensures turn { result ≡ turn_of (waiting_in self.now) }
        ensures opened { IfSome result (λ session. IsOpened session self.now) }
    {
        self.first().map(|item| item.session)
    }

    /// Takes the item of a place from it, if it has one.
    fn clear(&mut self, place: usize)
        requires { place < length self.old }
        ensures { self.new ≡ set self.old place None }
    {
        self.items[place] = None;
        self.tree.set(place, None);
        trim(self.items.as_slice(), &mut self.line);
    }

    /// Gives a place that has none its item.
    fn add(&mut self, place: usize, item: TurnItem)
        requires within { place < length self.old }
        requires free { item_at self.old place ≡ None }
        requires numbered { item.session ≡ place + 1 }
        ensures { self.new ≡ set self.old place (Some item) }
    {
        self.items[place] = Some(item);
        if !self.line.put(item) {
            self.tree.set(place, Some(item));
        }
    }

    /// Gives a session its item, in place of what it had. It takes no memory.
    pub fn put(&mut self, item: TurnItem)
        requires { IsOpened item.session self.old }
        ensures { self.new ≡ set self.old (item.session - 1) (Some item) }
    {
        let place = item.session as usize - 1;
        self.clear(place);
        self.add(place, item);
    }

    /// Takes a session's item from it, if it has one. It takes no memory.
    pub fn remove(&mut self, session: u32)
        requires { IsOpened session self.old }
        ensures { self.new ≡ set self.old (session - 1) None }
    {
        self.clear(session as usize - 1);
    }

    /// The session that has the turn, whose item is taken from it. It takes no memory.
    pub fn take(&mut self) -> Option<u32>
        ensures turn { result ≡ turn_of (waiting_in self.old) }
        ensures rest { self.new ≡ without result self.old }
        ensures opened { IfSome result (λ session. IsOpened session self.new) }
    {
        let item = self.first()?;
        self.remove(item.session);
        Some(item.session)
    }
}
