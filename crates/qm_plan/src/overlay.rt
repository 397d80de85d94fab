ghost use Rattle.std.specs.Prelude.{◌≡◌};
ghost use Rattle.std.specs.Option.{option_copied};
ghost use Rattle.qm_plan.specs.Stores.{cell_in, cell_of, committed, newest, tally_in, tally_of};

use crate::changes::StoreChange;
use crate::stores::Store;
use qm_json::Json;

/// The value that a change gives the cell of a name.
fn cell_by<'a>(change: &'a StoreChange, name: &[u8]) -> Option<&'a Json>
    ensures { option_copied result ≡ cell_in name.now change.now }
{
    match change {
        StoreChange::Cell(other, value) => {
            if other.as_slice() == name {
                Some(value)
            } else {
                None
            }
        }
        StoreChange::Tally(_, _) => None,
    }
}

/// The count that a change gives the tally of a name.
fn tally_by(change: &StoreChange, name: &[u8]) -> Option<u64>
    ensures { result ≡ tally_in name.now change.now }
{
    match change {
        StoreChange::Cell(_, _) => None,
        StoreChange::Tally(other, count) => {
            if other.as_slice() == name {
                Some(*count)
            } else {
                None
            }
        }
    }
}

/// The value that the newest change of the cell of a name gives it.
fn newest_value<'a>(changes: &'a [StoreChange], name: &[u8]) -> Option<&'a Json>
    ensures { option_copied result ≡ newest (cell_in name.now) changes.now }
{
    let mut end = changes.len();
    while end > 0 {
        end -= 1;
        if let Some(value) = cell_by(&changes[end], name) {
            return Some(value);
        }
    }
    None
}

/// The count that the newest change of the tally of a name gives it.
fn newest_count(changes: &[StoreChange], name: &[u8]) -> Option<u64>
    ensures { result ≡ newest (tally_in name.now) changes.now }
{
    let mut end = changes.len();
    while end > 0 {
        end -= 1;
        if let Some(count) = tally_by(&changes[end], name) {
            return Some(count);
        }
    }
    None
}

impl Store {
    /// The value that the cell of a name has once changes are committed.
    pub(crate) fn cell_after<'a>(
        &'a self,
        changes: &'a [StoreChange],
        name: &[u8],
    ) -> Option<&'a Json>
        ensures { option_copied result ≡ cell_of name.now (committed changes.now self.now) }
    {
        match self.cell(name) {
            Some(first) => match newest_value(changes, name) {
                Some(value) => Some(value),
                None => Some(first),
            },
            None => None,
        }
    }

    /// The count that the tally of a name has once changes are committed.
    pub(crate) fn tally_after(&self, changes: &[StoreChange], name: &[u8]) -> Option<u64>
        ensures { result ≡ tally_of name.now (committed changes.now self.now) }
    {
        match self.tally(name) {
            Some(first) => match newest_count(changes, name) {
                Some(count) => Some(count),
                None => Some(first),
            },
            None => None,
        }
    }
}
