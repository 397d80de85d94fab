ghost use Rattle.std.specs.Prelude.{◌≡◌, ◌≢◌, ◌<◌, ◌↔◌, [], IfOk, IfSome, OnOk, OnErr};
ghost use Rattle.std.specs.BTreeMap.{insert_entry};
ghost use Rattle.std.specs.BTreeSet.{contains};
ghost use Rattle.std.specs.List.{flat_map};
ghost use Rattle.std.specs.Option.{option_to_list};
ghost use Rattle.qm_throttle.specs.Keys.{key_order};
ghost use Rattle.qm_throttle.specs.Steps.{window_at, kept_at, unkept, raised_among, ticked, sent_at};
ghost use Rattle.qm_throttle.specs.Windows.{due_in};
ghost use Rattle.qm_throttle.specs.Deadlines.{has_come, next_of, next_at};
ghost use Rattle.qm_throttle.specs.Keys.{Key};

use crate::deadlines::{come_keys, put_all, take_come, take_one};
use crate::due::Due;
use crate::endings::{end_all, reserved};
use crate::keys::WindowKey;
use crate::openings::{insert, keep};
use crate::sent::Sent;
use crate::window::Window;
use qm_base::NoMemory;
use std::alloc::Global;
use std::collections::{BTreeMap, BTreeSet};
use std::marker::Model;

/// The windows that are open, by their keys, and beside them their deadlines in order. Contracts
/// see the windows in the order of their keys.
#[derive(Drop)]
pub(crate) struct Windows {
    map: BTreeMap<WindowKey, Window>,
    deadlines: BTreeSet<Due>,
}

impl Model for Windows {
    ghost use Rattle.std.specs.Prelude.{List};
    ghost use Rattle.std.specs.Coded.{coded×, coded_list};
    ghost use Rattle.qm_throttle.specs.Keys.{Key, key_code};
    ghost use Rattle.qm_throttle.specs.declared.window.Window.{Window};
    ghost use Rattle.qm_throttle.specs.contracts.window.Window as window;

    ghost Value = { List (Key × Window) };

    ghost coded = { coded_list (coded× key_code window.the_row.coded) };

    ghost use Rattle.qm_throttle.specs.Deadlines.{IsKept};

    ghost view = { λ w. w.map.entries };

    ghost invariant = { λ w. IsKept w.deadlines.keys w.map.entries };
}

impl Windows {
    /// No windows.
    pub(crate) fn new(alloc: Global) -> Windows
        ensures { result ≡ [] }
    {
        Windows {
            map: BTreeMap::new(alloc),
            deadlines: BTreeSet::new(alloc),
        }
    }

    /// The earliest deadline, where a window is open.
    pub(crate) fn due(&self) -> Option<u128>
        ensures { result ≡ due_in self.now }
    {
        let _ = self.map.len();
        match self.deadlines.first() {
            Some(due) => Some(due.deadline),
            None => None,
        }
    }

    /// Keeps an event in the window of its key, and gives it back where none is open.
    #[tactic(auto, using(crate::proofs::Keeping::kept_keeping))]
    fn keep(&mut self, key: &WindowKey, event: Sent) -> Option<Sent>
        ensures given { result ≡ unkept event (window_at key.now self.old) }
        ensures kept { self.new ≡ kept_at key.now event self.old }
    {
        keep(&mut self.map, key, event)
    }

    /// Puts a window in, whose key has none. An error leaves the windows as they were.
    fn open(&mut self, alloc: Global, key: WindowKey, window: Window) -> Result<(), NoMemory>
        requires absent { window_at key self.old ≡ None }
        requires lasting { 0 < window.period }
        ensures ok { OnOk result (self.new ≡ insert_entry key_order self.old key window) }
        ensures err { OnErr result (self.new ≡ self.old) }
    {
        let due = Due {
            deadline: window.deadline,
            key: key.copy(alloc)?,
        };
        if let Err(_) = self.deadlines.insert(due) {
            return Err(NoMemory);
        }
        match insert(&mut self.map, key, window) {
            Ok(()) => Ok(()),
            Err(due) => {
                take_one(&mut self.deadlines, due);
                Err(NoMemory)
            }
        }
    }

    /// Raises an event whose windows last: it is kept in the window of its key, or given back to be
    /// sent, and then it opens one. An error leaves the windows as they were.
    pub(crate) fn raise(
        &mut self,
        alloc: Global,
        key: WindowKey,
        period: u64,
        event: Sent,
    ) -> Result<Option<Sent>, NoMemory>
        requires { 0 < period }
        ensures sent { IfOk result (λ sent. option_to_list sent ≡ (raised_among period key event self.old).sent) }
        ensures windows { OnOk result (self.new ≡ (raised_among period key event self.old).windows) }
        ensures none { IfOk result (λ sent. (sent ≡ None) ↔ (window_at key self.old ≢ None)) }
        ensures event { IfOk result (λ sent. IfSome sent (λ given. given ≡ event)) }
        ensures err { OnErr result (self.new ≡ self.old) }
    {
        let _ = self.map.len();
        let Some(event) = self.keep(&key, event) else {
            return Ok(None);
        };
        let window = Window {
            period,
            deadline: event.moment as u128 + period as u128,
            kept: None,
        };
        self.open(alloc, key, window)?;
        Ok(Some(event))
    }

    /// The keys of the windows that end at a moment.
    #[tactic(auto, using(crate::proofs::Coming::comes_where_ends))]
    fn ended(&self, alloc: Global, moment: u64) -> Result<BTreeSet<WindowKey>, NoMemory>
        ensures { IfOk result (λ ended. (key : Key) →
            contains key_order ended key ≡ has_come moment (window_at key self.now)) }
    {
        come_keys(alloc, &self.deadlines, moment)
    }

    /// The deadline of the window that opens where that of a key ends.
    fn next(&self, alloc: Global, moment: u64, key: &WindowKey) -> Result<Option<Due>, NoMemory>
        ensures { IfOk result (λ next. option_to_list next ≡ next_of moment key.now (window_at key.now self.now)) }
    {
        let Some(window) = self.map.get(key) else {
            return Ok(None);
        };
        if window.kept.is_none() {
            return Ok(None);
        }
        let key = key.copy(alloc)?;
        Ok(Some(Due {
            deadline: moment as u128 + window.period as u128,
            key,
        }))
    }

    /// The deadlines of the windows that open where those of some keys end.
    fn nexts(
        &self,
        alloc: Global,
        moment: u64,
        ended: &BTreeSet<WindowKey>,
    ) -> Result<Vec<Due>, NoMemory>
        ensures { IfOk result (λ nexts. nexts.items ≡ flat_map (next_at moment self.now) ended.now.keys) }
    {
        let mut nexts = Vec::new(alloc);
        for key in ended {
            if let Some(next) = self.next(alloc, moment, key)? {
                if let Err(_) = nexts.push(next) {
                    return Err(NoMemory);
                }
            }
        }
        Ok(nexts)
    }

    /// Ends the windows whose deadline comes at or before the moment, and gives what they send. An
    /// error leaves the windows as they were.
    pub(crate) fn tick(&mut self, alloc: Global, moment: u64) -> Result<Vec<Sent>, NoMemory>
        ensures sent { IfOk result (λ sent. sent.items ≡ flat_map (sent_at moment) self.old) }
        ensures windows { OnOk result (self.new ≡ flat_map (ticked moment) self.old) }
        ensures err { OnErr result (self.new ≡ self.old) }
    {
        let _ = self.map.len();
        let ended = self.ended(alloc, moment)?;
        let nexts = self.nexts(alloc, moment, &ended)?;
        let sent = reserved(alloc, ended.len())?;
        put_all(alloc, &mut self.deadlines, nexts.as_slice())?;
        take_come(&mut self.deadlines, moment);
        Ok(end_all(&mut self.map, &ended, moment, sent))
    }

    /// Equal windows.
    pub(crate) fn copy(&self, alloc: Global) -> Result<Windows, NoMemory>
        ensures { IfOk result (λ windows. windows ≡ self.now) }
    {
        let mut copied = Windows::new(alloc);
        for (key, window) in &self.map {
            let key = key.copy(alloc)?;
            let window = window.copy(alloc)?;
            copied.open(alloc, key, window)?;
        }
        Ok(copied)
    }
}
