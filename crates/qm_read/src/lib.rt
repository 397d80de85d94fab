//! JSON values read from their text, or the first fault of the text (RFC 8259).
#![tactic(auto)]

pub mod fault;
mod lexer;
mod literals;
mod named_members;
mod reader;
mod reading;
mod spans;
mod stack;
mod strings;
pub mod taken;
mod token;

pub use fault::JsonFault;
pub use reading::{
    each_fault_is_the_first, each_fault_is_the_first_within, each_fault_is_within_its_text,
    each_printed_value_is_read, each_printed_value_is_read_within, each_printed_value_is_spelled,
    each_value_is_clean, each_value_is_spelled, each_value_is_spelled_within, memory_is_no_fault,
    no_value_is_too_deep, read, read_within,
};
pub use taken::Taken;
