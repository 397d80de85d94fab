/// What is asked of a job.
#[derive(Clone, Copy, Debug, PartialEq, Eq)]
pub enum Verb {
    /// To give it up.
    Cancel,
    /// To stop for a while.
    Pause,
    /// To go on after a pause.
    Resume,
    /// To end, once it is ready.
    Complete,
    /// To conclude, where it waits for that.
    Finalize,
    /// To leave the table, once it is concluded.
    Dismiss,
}
