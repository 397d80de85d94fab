ghost use Rattle.std.specs.Prelude.{◌≡◌, ◌<◌, ◌↔◌, IsTrue, length};
ghost use Rattle.std.specs.List.{All};
ghost use Rattle.qapi_types.specs.Goodness.{IsShort, IsCounted, RefersBelow, TakesBelow};
ghost use Rattle.qapi_types.specs.Goodness.{CommandBelow, HasPositions, IsInRange};

use crate::kind::{Branch, Kind, MemberDef};
use crate::lookups::tag_values;
use crate::parts::{ArgType, CommandDef, EventDef, Parts};

/// What each count is below.
const COUNT_LIMIT: usize = 4294967296;

fn is_short(kind: &Kind) -> bool
    ensures { IsTrue result ↔ IsShort kind.now }
{
    kind.members().len() < COUNT_LIMIT && kind.values().len() < COUNT_LIMIT
}

fn are_short(kinds: &[Kind]) -> bool
    ensures { IsTrue result ↔ All IsShort kinds.now }
{
    kinds.iter().all(|kind| is_short(kind))
}

/// Whether the counts of the parts are small enough: fewer than 2^32 commands and events together,
/// types, and members or values in one type.
pub fn is_counted(parts: &Parts) -> bool
    ensures { IsTrue result ↔ IsCounted parts.now }
{
    if parts.commands.len() >= COUNT_LIMIT {
        return false;
    }
    if parts.events.len() >= COUNT_LIMIT - parts.commands.len() {
        return false;
    }
    if parts.kinds.len() >= COUNT_LIMIT {
        return false;
    }
    are_short(parts.kinds.as_slice())
}

fn members_below(count: usize, members: &[MemberDef]) -> bool
    ensures { IsTrue result ↔ All (λ m. m.type_id < count) members.now }
{
    members
        .iter()
        .all(|member| (member.type_id as usize) < count)
}

fn branches_below(count: usize, branches: &[Branch]) -> bool
    ensures { IsTrue result ↔ All (λ b. b.type_id < count) branches.now }
{
    branches
        .iter()
        .all(|branch| (branch.type_id as usize) < count)
}

fn ids_below(count: usize, ids: &[u32]) -> bool
    ensures { IsTrue result ↔ All (λ t. t < count) ids.now }
{
    ids.iter().all(|id| (*id as usize) < count)
}

fn refers_below(count: usize, kind: &Kind) -> bool
    ensures { IsTrue result ↔ RefersBelow count kind.now }
{
    match kind {
        Kind::Array(element) => (*element as usize) < count,
        Kind::Object(def) => {
            members_below(count, def.members.as_slice())
                && branches_below(count, def.branches.as_slice())
        }
        Kind::Alternate(types, _) => ids_below(count, types.as_slice()),
        _ => true,
    }
}

fn kinds_below(count: usize, kinds: &[Kind]) -> bool
    ensures { IsTrue result ↔ All (RefersBelow count) kinds.now }
{
    kinds.iter().all(|kind| refers_below(count, kind))
}

fn takes_below(count: usize, arg: ArgType) -> bool
    ensures { IsTrue result ↔ TakesBelow count arg }
{
    match arg {
        ArgType::Typed(id) => (id as usize) < count,
        ArgType::AnyObject => true,
    }
}

fn command_below(count: usize, command: &CommandDef) -> bool
    ensures { IsTrue result ↔ CommandBelow count command.now }
{
    takes_below(count, command.arg) && (command.ret as usize) < count
}

fn commands_below(count: usize, commands: &[CommandDef]) -> bool
    ensures { IsTrue result ↔ All (CommandBelow count) commands.now }
{
    commands.iter().all(|command| command_below(count, command))
}

fn events_below(count: usize, events: &[EventDef]) -> bool
    ensures { IsTrue result ↔ All (λ e. e.arg < count) events.now }
{
    events.iter().all(|event| (event.arg as usize) < count)
}

fn values_below(count: usize, branches: &[Branch]) -> bool
    ensures { IsTrue result ↔ All (λ b. b.value < count) branches.now }
{
    branches
        .iter()
        .all(|branch| (branch.value as usize) < count)
}

fn has_positions(kinds: &[Kind], kind: &Kind) -> bool
    ensures { IsTrue result ↔ HasPositions kinds.now kind.now }
{
    if let Some(position) = kind.tag() {
        if position as usize >= kind.members().len() {
            return false;
        }
    }
    values_below(tag_values(kinds, kind).len(), kind.branches())
}

fn have_positions(kinds: &[Kind]) -> bool
    ensures { IsTrue result ↔ All (HasPositions kinds.now) kinds.now }
{
    kinds.iter().all(|kind| has_positions(kinds, kind))
}

/// Whether all numbers of types and all positions are in range.
pub fn is_in_range(parts: &Parts) -> bool
    ensures { IsTrue result ↔ IsInRange parts.now }
{
    let kinds = parts.kinds.as_slice();
    kinds_below(kinds.len(), kinds)
        && commands_below(kinds.len(), parts.commands.as_slice())
        && events_below(kinds.len(), parts.events.as_slice())
        && have_positions(kinds)
}
