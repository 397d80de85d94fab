//! Capabilities of a session (QMP specification, "Capabilities"): modes, lanes, the bound of
//! requests in flight, and the greeting.
#![tactic(auto)]

pub mod greetings;
pub mod lanes;
pub mod mode;

pub use greetings::{greeting, version};
pub use lanes::classify;
pub use mode::{Lane, Mode, bound};
