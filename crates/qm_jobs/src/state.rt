ghost use Rattle.std.specs.Prelude.{◌≡◌};
ghost use Rattle.qm_jobs.specs.States.{is_running as runs, has_more as has_units, end_of, gone, worked};
ghost use Rattle.qm_jobs.specs.States.{stands as is_in_table};

use crate::status::Status;
use crate::ways::{Way, reached};

/// How a job of the table stands.
#[derive(Clone, Copy, Debug, PartialEq, Eq)]
pub struct JobState {
    /// Its status.
    pub status: Status,
    /// The units that are done.
    pub done: u32,
    /// The units in all.
    pub units: u32,
    /// Whether it goes to ready at its last unit.
    pub ready: bool,
    /// Whether it waits to be finalized and dismissed.
    pub manual: bool,
}

impl JobState {
    /// Whether a job at it is in the table.
    pub(crate) fn stands(&self) -> bool
        ensures { result ≡ is_in_table self.now }
    {
        match self.status {
            Status::Null => false,
            _ => true,
        }
    }

    /// Whether the job works.
    pub(crate) fn is_running(&self) -> bool
        ensures { result ≡ runs self.now }
    {
        match self.status {
            Status::Running => true,
            _ => false,
        }
    }

    /// Whether it has another unit after the next.
    pub(crate) fn has_more(&self) -> bool
        ensures { result ≡ has_units self.now }
    {
        self.units.saturating_sub(self.done) > 1
    }

    /// Where its last unit leads.
    pub(crate) fn end(&self) -> Way
        ensures { result ≡ end_of self.now }
    {
        if self.ready {
            Way::To(Status::Ready)
        } else {
            Way::End
        }
    }

    /// The state at the end of a way.
    pub(crate) fn gone(self, way: Way) -> JobState
        ensures { result ≡ gone way self }
    {
        JobState {
            status: reached(self.manual, way),
            ..self
        }
    }

    /// The state after one unit, which only a running job does.
    pub(crate) fn worked(self) -> JobState
        ensures { result ≡ worked self }
    {
        if !self.is_running() {
            return self;
        }
        if self.has_more() {
            return JobState {
                done: self.done + 1,
                ..self
            };
        }
        let last = JobState {
            done: self.units,
            ..self
        };
        last.gone(self.end())
    }

    /// Does one unit, where the job is running; whether it is in the table then.
    pub(crate) fn work(&mut self) -> bool
        ensures state { self.new ≡ worked self.old }
        ensures stands { result ≡ is_in_table (worked self.old) }
    {
        *self = self.worked();
        self.stands()
    }
}
