use qm_base::{GrowingList, Text};
use qm_json::Json;

/// Names, as UTF-8.
pub type Names = GrowingList<Text>;

/// How the events of a name are throttled.
#[derive(Debug, Drop)]
pub struct Period {
    /// The event's name.
    pub name: Text,
    /// How long a window stays open at least, in microseconds; 0 where each event is sent when it
    /// is raised.
    pub micros: u64,
    /// The members of the payload by whose values the windows are told apart.
    pub key: Names,
}

/// The periods of all events, by the event's number.
pub type PeriodList = GrowingList<Period>;

/// An event that was raised.
#[derive(Debug, Drop)]
pub struct Raised {
    /// The event's number.
    pub event: u32,
    /// The event's data.
    pub payload: Json,
}

/// Events in the order in which they were raised.
pub type RaisedList = GrowingList<Raised>;
