//! Replay of a script of steps. This project's own rule.
#![tactic(auto)]

mod closings;
pub mod endings;
mod feeder;
mod hex;
pub mod laws;
mod lines;
pub mod orders;
mod player;
mod replays;

pub use endings::{PlayEnd, Refused, StepWord, Stop};
pub use orders::Order;
pub use replays::play;
