/// Why a step of a script was refused, or a line that needs an input found none.
#[derive(Clone, Copy, Debug, PartialEq, Eq)]
pub enum StepWord {
    /// The session was never opened.
    NoSession,
    /// The session was closed.
    Closed,
    /// The session's input has ended.
    InputEnded,
    /// A request of the session is open out of band.
    OobOpen,
    /// As many requests of the session wait or run as its mode allows.
    Busy,
    /// There is nothing to start or to take.
    Nothing,
    /// No request is running.
    NotRunning,
    /// No request of the session is open out of band.
    NotOpen,
    /// The session's input has not ended, or not all was answered and taken.
    NotDrained,
    /// The cause does not hold.
    WrongCause,
    /// A command has stopped the monitor.
    Stopping,
    /// The bytes that were fed hold no further frame.
    NoFrame,
}

/// Why a line was refused.
#[derive(Clone, Copy, Debug, PartialEq, Eq)]
pub enum Stop {
    /// It is no line of a script.
    BadLine,
    /// Its step was refused.
    Step(StepWord),
    /// As many sessions were opened as there can be.
    SessionsFull,
    /// The journal has no room for its entry.
    JournalFull,
}

/// A line that was refused, counted from 1.
#[derive(Clone, Copy, Debug, PartialEq, Eq)]
pub struct Refused {
    /// The number of the line.
    pub line: u32,
    /// Why.
    pub stop: Stop,
}

/// How the play of a script ended.
#[derive(Clone, Copy, Debug, PartialEq, Eq)]
pub enum PlayEnd {
    /// All lines were played.
    Done,
    /// This line is no line of a script.
    BadLine(u32),
    /// The step of this line was refused.
    WrongStep(u32, StepWord),
    /// The step of this line found the journal or the sessions full.
    Full(u32),
    /// The sink failed.
    SinkFault,
    /// No memory was left.
    Memory,
}
