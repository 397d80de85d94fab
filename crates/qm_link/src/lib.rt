//! Where the outside takes bytes: the trait of sinks, and a sink in memory.
#![tactic(auto)]

pub mod memory;
pub mod sink;

pub use memory::MemorySink;
pub use sink::{Sink, SinkFailed};
