ghost use Rattle.std.specs.Prelude.{◌≡◌, cond, IfErr, OnOk, OnErr};
ghost use Rattle.std.specs.BTreeMap.{insert_entry, is_at};
ghost use Rattle.qm_throttle.specs.Keys.{key_order};
ghost use Rattle.qm_throttle.specs.Keys.{Key};
ghost use Rattle.qm_throttle.specs.Steps.{window_at, kept_at, unkept};

use crate::due::Due;
use crate::keys::WindowKey;
use crate::sent::Sent;
use crate::window::Window;
use std::collections::BTreeMap;

/// Keeps an event in the window of its key, and gives it back where none is open.
pub(crate) fn keep(
    map: &mut BTreeMap<WindowKey, Window>,
    key: &WindowKey,
    event: Sent,
) -> Option<Sent>
    ensures given { result ≡ unkept event (window_at key.now map.old.entries) }
    ensures kept { map.new.entries ≡ kept_at key.now event map.old.entries }
{
    match map.get_mut(key) {
        Some(window) => {
            window.keep(event);
            None
        }
        None => Some(event),
    }
}

/// Puts a window in. Where there is no memory, it gives the window's end back.
pub(crate) fn insert(
    map: &mut BTreeMap<WindowKey, Window>,
    key: WindowKey,
    window: Window,
) -> Result<(), Due>
    ensures ok { OnOk result (map.new.entries ≡ insert_entry key_order map.old.entries key window) }
    ensures at { OnOk result ((q : Key) →
        window_at q map.new.entries ≡ cond (is_at (key_order key) q) (Some window) (window_at q map.old.entries)) }
    ensures err { OnErr result (map.new.entries ≡ map.old.entries) }
    ensures due { IfErr result (λ due. due ≡ record { deadline = window.deadline; key = key }) }
{
    match map.insert(key, window) {
        Ok(_) => Ok(()),
        Err(refused) => {
            let (key, window) = refused.value;
            Err(Due {
                deadline: window.deadline,
                key,
            })
        }
    }
}
