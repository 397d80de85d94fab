ghost use Rattle.std.specs.Prelude.{◌≡◌};
ghost use Rattle.qm_queue.specs.Turns.{precedes, earlier_of, first_of, turn_of};

use qm_base::GrowingList;

/// A session that waits, and the number of the entry that last started a request of it; `None`
/// where no request of it was ever started.
#[derive(Clone, Copy, Debug, PartialEq, Eq)]
pub struct TurnItem {
    /// The session's number.
    pub session: u32,
    /// The number of the entry.
    pub last_start: Option<u64>,
}

/// Sessions that wait.
pub type TurnList = GrowingList<TurnItem>;

/// Whether the one has its turn before the other.
pub(crate) fn comes_before(one: &TurnItem, other: &TurnItem) -> bool
    ensures { result ≡ precedes one.now other.now }
{
    match (one.last_start, other.last_start) {
        (None, Some(_)) => true,
        (Some(_), None) => false,
        (None, None) => one.session < other.session,
        (Some(first), Some(second)) => first < second
            || (first == second && one.session < other.session),
    }
}

/// The item of the two that has its turn before the other.
pub(crate) fn earlier<'a>(
    one: &'a Option<TurnItem>,
    other: &'a Option<TurnItem>,
) -> &'a Option<TurnItem>
    ensures { result.now ≡ earlier_of one.now other.now }
{
    match (one, other) {
        (Some(a), Some(b)) => { if comes_before(b, a) { other } else { one } }
        (None, _) => other,
        (Some(_), None) => one,
    }
}

/// The item that no other precedes.
fn first_among(waiting: &[TurnItem]) -> Option<TurnItem>
    ensures { result ≡ first_of waiting.now }
{
    let mut first: Option<TurnItem> = None;
    for item in waiting {
        first = *earlier(&first, &Some(*item));
    }
    first
}

/// The session among these whose last start stands earliest. One that was never started comes
/// before all that were, and ties go to the lower number. `None` where no session waits.
pub fn next_turn(waiting: &TurnList) -> Option<u32>
    ensures { result ≡ turn_of waiting.now }
{
    first_among(waiting.as_slice()).map(|item| item.session)
}
