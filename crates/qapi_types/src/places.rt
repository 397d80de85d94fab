ghost use Rattle.std.specs.Prelude.{◌≡◌, ◌+◌, ◌<◌, ◌^◌, ◌↔◌, IsTrue, length, map};
ghost use Rattle.qapi_types.specs.Goodness.{AreDealt, command_places, event_places};
ghost use Rattle.qapi_types.specs.Sets.{is_at};

use crate::parts::{CommandDef, EventDef};

fn command_is_at(commands: &[CommandDef], index: usize, place: usize) -> bool
    ensures { result ≡ is_at place (command_places commands.now) index }
{
    match commands.get(index) {
        Some(command) => command.place as usize == place,
        None => false,
    }
}

fn event_is_at(events: &[EventDef], index: usize, place: usize) -> bool
    ensures { result ≡ is_at place (event_places events.now) index }
{
    match events.get(index) {
        Some(event) => event.place as usize == place,
        None => false,
    }
}

/// Whether the places of the commands and events are the numbers from 0 on, each once, and grow
/// along each of the lists.
pub fn are_placed(commands: &[CommandDef], events: &[EventDef]) -> bool
    requires { length commands.now + length events.now < 2 ^ 32 }
    ensures { IsTrue result ↔ AreDealt 0 (command_places commands.now) (event_places events.now) }
{
    let mut first = 0;
    let mut second = 0;
    for place in 0..commands.len() + events.len() {
        if command_is_at(commands, first, place) {
            first += 1;
        } else if event_is_at(events, second, place) {
            second += 1;
        } else {
            return false;
        }
    }
    true
}
