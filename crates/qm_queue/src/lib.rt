//! The requests of a session that wait, and the turn of the sessions that wait.
#![tactic(auto)]

pub mod laws;
mod line;
pub mod ring;
mod tree;
pub mod turn_queue;
pub mod turns;

pub use ring::{PLACES, Ring};
pub use turn_queue::TurnQueue;
pub use turns::{TurnItem, TurnList, next_turn};
