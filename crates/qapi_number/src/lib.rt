//! The definitions that stand before those of each schema, and the table of all definitions by
//! numbers (QAPI code generation guide, "Schema syntax").
#![tactic(auto)]

mod calls;
mod copies;
mod counting;
mod directory;
pub mod implicit;
mod kinds;
mod leading;
mod lines;
mod members;
pub mod numbering;
mod references;
pub mod table;
pub mod types;
mod unions;
mod writing;

pub use leading::{prelude, with_prelude};
pub use table::parts;
