ghost use Rattle.std.specs.Prelude.{◌≡◌, ◌++◌, ◌∷◌, [], OnOk};
ghost use Rattle.qm_jobs.specs.Changes.{changes_of, unit_changes};
ghost use Rattle.qm_jobs.specs.Ways.{passed};

use crate::state::JobState;
use crate::status::Status;
use crate::ways::Way;
use qm_base::{GrowingList, NoMemory, Text};
use std::alloc::Global;

/// A status that a job passed.
#[derive(Debug, Drop)]
pub struct Change {
    /// The job's id.
    pub id: Text,
    /// The status.
    pub status: Status,
}

/// Changes in the order in which they came.
pub type ChangeList = GrowingList<Change>;

/// Appends the change of a job to each of the statuses.
pub(crate) fn note(
    alloc: Global,
    id: &[u8],
    statuses: &[Status],
    changes: &mut ChangeList,
) -> Result<(), NoMemory>
    ensures { OnOk result (changes.new ≡ changes.old ++ changes_of id.now statuses.now) }
{
    for status in statuses {
        let id = Text::of(alloc, id)?;
        changes.push(Change {
            id,
            status: *status,
        })?;
    }
    Ok(())
}

/// Appends the changes of a job that goes a way.
pub(crate) fn note_way(
    alloc: Global,
    id: &[u8],
    manual: bool,
    way: Way,
    changes: &mut ChangeList,
) -> Result<(), NoMemory>
    ensures { OnOk result (changes.new ≡ changes.old ++ changes_of id.now (passed manual way)) }
{
    match way {
        Way::To(status) => note(alloc, id, &[status], changes),
        Way::End => {
            note(alloc, id, &[Status::Waiting, Status::Pending], changes)?;
            if manual {
                return Ok(());
            }
            note(alloc, id, &[Status::Concluded, Status::Null], changes)
        }
        Way::Abort => {
            note(alloc, id, &[Status::Aborting, Status::Concluded], changes)?;
            if manual {
                return Ok(());
            }
            note(alloc, id, &[Status::Null], changes)
        }
    }
}

/// Appends the changes that one unit of a job makes.
pub(crate) fn note_unit(
    alloc: Global,
    id: &[u8],
    state: &JobState,
    changes: &mut ChangeList,
) -> Result<(), NoMemory>
    ensures { OnOk result (changes.new ≡ changes.old ++ unit_changes id.now state.now) }
{
    if !state.is_running() || state.has_more() {
        return Ok(());
    }
    note_way(alloc, id, state.manual, state.end(), changes)
}
