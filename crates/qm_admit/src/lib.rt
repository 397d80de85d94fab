//! Admission: whether a value fits a type of a schema, and if not the first fault and where it is
//! (QAPI code generation guide, "Schema syntax"; the order of faults is this project's own rule).
#![tactic(auto)]

mod admission;
mod alternatives;
mod calls;
mod choices;
mod laws;
mod members;
pub mod path;
mod plain;
mod text;
mod unexpected;
pub mod verdict;

pub use calls::{admit, admit_args, admit_event, admit_return};
pub use path::{PathList, PathStep};
pub use text::path_text;
pub use verdict::{Fault, Verdict};
