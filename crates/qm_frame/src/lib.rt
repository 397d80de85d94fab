//! Messages in a stream of bytes, found byte by byte.
#![tactic(auto)]

pub mod bytes;
pub mod framer;
mod judging;
mod open_text;
mod piece;
pub mod step;

pub use framer::Framer;
pub use step::{FrameFault, MAX_DEPTH, MAX_LENGTH, Step};
