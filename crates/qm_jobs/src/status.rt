ghost use Rattle.std.specs.Prelude.{◌≡◌};

/// The status of a job (QEMU QMP Reference Manual, "JobStatus").
#[derive(Clone, Copy, Debug, PartialEq, Eq)]
pub enum Status {
    /// Never shown.
    Undefined,
    /// It was made, and does not run yet.
    Created,
    /// It works.
    Running,
    /// It was stopped for a while.
    Paused,
    /// Its work is done, and it goes on until it is completed.
    Ready,
    /// It was stopped for a while when it was ready.
    Standby,
    /// It waits for other jobs, of which there are none.
    Waiting,
    /// It waits to be finalized.
    Pending,
    /// It was given up.
    Aborting,
    /// It has ended, and waits to be dismissed.
    Concluded,
    /// It is out of the table.
    Null,
}

impl Status {
    ghost use Rattle.qm_jobs.specs.Statuses.{name_of};

    /// The word of the status.
    pub fn name(self) -> &'static str
        ensures { result.now ≡ name_of self }
    {
        match self {
            Status::Undefined => "undefined",
            Status::Created => "created",
            Status::Running => "running",
            Status::Paused => "paused",
            Status::Ready => "ready",
            Status::Standby => "standby",
            Status::Waiting => "waiting",
            Status::Pending => "pending",
            Status::Aborting => "aborting",
            Status::Concluded => "concluded",
            Status::Null => "null",
        }
    }
}
