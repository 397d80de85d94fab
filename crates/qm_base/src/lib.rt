//! What several crates speak of: texts, tables of names, shared values, a history that contracts alone see,
//! prefixes of lists, counts of faults, and the search for pieces from the front of a list.
#![tactic(auto)]

pub mod bytes;
pub mod calls;
pub mod growing;
pub mod history;
pub mod names;
pub mod numerals;
pub mod reserved;
pub mod shared;
pub mod text;

pub use bytes::is_space;
pub use calls::CallList;
pub use growing::GrowingList;
pub use history::History;
pub use names::NameTable;
pub use numerals::{are_digits, number};
pub use reserved::ReservedList;
pub use shared::Shared;
pub use text::{NoMemory, Text};
