ghost use Rattle.std.specs.Prelude.{◌≡◌};
ghost use Rattle.qm_jobs.specs.Ways.{way_of, reached as reached_status};

use crate::status::Status;
use qm_plan::Verb;

/// Where a verb or the last unit leads a job.
#[derive(Clone, Copy, Debug, PartialEq, Eq)]
pub enum Way {
    /// To one status.
    To(Status),
    /// To its end.
    End,
    /// To its end, given up.
    Abort,
}

/// Where a verb leads from a status; `None` where the table of verbs has no entry.
pub(crate) fn way_from(verb: Verb, status: Status) -> Option<Way>
    ensures { result ≡ way_of verb status }
{
    match verb {
        Verb::Pause => match status {
            Status::Running => Some(Way::To(Status::Paused)),
            Status::Ready => Some(Way::To(Status::Standby)),
            _ => None,
        },
        Verb::Resume => match status {
            Status::Paused => Some(Way::To(Status::Running)),
            Status::Standby => Some(Way::To(Status::Ready)),
            _ => None,
        },
        Verb::Complete => match status {
            Status::Ready => Some(Way::End),
            _ => None,
        },
        Verb::Cancel => match status {
            Status::Running | Status::Paused | Status::Ready | Status::Standby | Status::Pending =>
                Some(Way::Abort),
            _ => None,
        },
        Verb::Finalize => match status {
            Status::Pending => Some(Way::To(Status::Concluded)),
            _ => None,
        },
        Verb::Dismiss => match status {
            Status::Concluded => Some(Way::To(Status::Null)),
            _ => None,
        },
    }
}

/// The status at which a way ends; a manual job waits to be finalized and dismissed.
pub(crate) fn reached(manual: bool, way: Way) -> Status
    ensures { result ≡ reached_status manual way }
{
    match way {
        Way::To(status) => status,
        Way::End => {
            if manual {
                Status::Pending
            } else {
                Status::Null
            }
        }
        Way::Abort => {
            if manual {
                Status::Concluded
            } else {
                Status::Null
            }
        }
    }
}
