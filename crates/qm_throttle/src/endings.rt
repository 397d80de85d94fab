ghost use Rattle.std.specs.Prelude.{◌≡◌, [], ◌≤◌, length, vec_capacity, IfOk};
ghost use Rattle.std.specs.BTreeMap.{is_at};
ghost use Rattle.std.specs.BTreeSet.{contains};
ghost use Rattle.std.specs.Map.{remove_entry};
ghost use Rattle.std.specs.List.{flat_map};
ghost use Rattle.std.specs.Option.{option_to_list};
ghost use Rattle.qm_throttle.specs.Keys.{key_order};
ghost use Rattle.qm_throttle.specs.Steps.{window_at, ticked, sent_at};
ghost use Rattle.qm_throttle.specs.Deadlines.{has_come};
ghost use Rattle.qm_throttle.specs.Endings.{ended_at, kept_of, opened_at};
ghost use Rattle.qm_throttle.specs.Keys.{Key};

use crate::keys::WindowKey;
use crate::sent::Sent;
use crate::window::Window;
use qm_base::NoMemory;
use std::alloc::Global;
use std::collections::{BTreeMap, BTreeSet};

/// An empty list with so many places.
pub(crate) fn reserved(alloc: Global, places: usize) -> Result<Vec<Sent>, NoMemory>
    ensures empty { IfOk result (λ sent. sent.items ≡ []) }
    ensures room { IfOk result (λ sent. places ≤ vec_capacity sent) }
{
    match Vec::with_capacity(alloc, places) {
        Ok(sent) => Ok(sent),
        Err(_) => Err(NoMemory),
    }
}

/// Opens the window of a key again, and gives the event that was kept in it.
fn open_again(map: &mut BTreeMap<WindowKey, Window>, key: &WindowKey, moment: u64) -> Option<Sent>
    ensures sent { option_to_list result ≡ kept_of (window_at key.now map.old.entries) }
    ensures windows { map.new.entries ≡ opened_at moment key.now map.old.entries }
{
    match map.get_mut(key) {
        Some(window) => window.end(moment),
        None => None,
    }
}

fn close(map: &mut BTreeMap<WindowKey, Window>, key: &WindowKey)
    ensures { map.new.entries ≡ remove_entry (is_at (key_order key.now)) map.old.entries }
{
    let _ = map.remove(key);
}

/// Ends the window of a key, and gives the event that was kept in it.
#[tactic(auto, using(crate::proofs::Ending::closed, crate::proofs::Ending::reopens))]
fn end(map: &mut BTreeMap<WindowKey, Window>, key: &WindowKey, moment: u64) -> Option<Sent>
    ensures sent { option_to_list result ≡ kept_of (window_at key.now map.old.entries) }
    ensures windows { map.new.entries ≡ ended_at moment key.now map.old.entries }
{
    let kept = open_again(map, key, moment);
    if kept.is_none() {
        close(map, key);
    }
    kept
}

/// Ends the windows of some keys, those that end at the moment, and gives the events that were
/// kept in them, for which there are places.
pub(crate) fn end_all(
    map: &mut BTreeMap<WindowKey, Window>,
    ended: &BTreeSet<WindowKey>,
    moment: u64,
    sent: Vec<Sent>,
) -> Vec<Sent>
    requires keys { (key : Key) → contains key_order ended.now key ≡ has_come moment (window_at key map.old.entries) }
    requires empty { sent.items ≡ [] }
    requires room { length ended.now.keys ≤ vec_capacity sent }
    ensures sent { result.items ≡ flat_map (sent_at moment) map.old.entries }
    ensures windows { map.new.entries ≡ flat_map (ticked moment) map.old.entries }
{
    let _ = map.len();
    let mut sent = sent;
    for key in ended {
        if let Some(event) = end(map, key, moment) {
            let _ = sent.push(event);
        }
    }
    sent
}
