//! The job table: where its verbs lead, what a unit of work does, and what is refused.
#![tactic(auto)]

pub mod changes;
pub mod jobs;
pub mod laws;
mod listing;
pub mod state;
pub mod status;
pub mod ways;

pub use changes::{Change, ChangeList};
pub use jobs::{JobFault, Jobs, MOST_JOBS};
pub use state::JobState;
pub use status::Status;
