//! The rules that the definitions of a schema have to keep (QAPI code generation guide, "Schema
//! syntax", "Naming rules and reserved names").
#![tactic(auto)]

mod bad_names;
mod branches;
pub mod built_ins;
mod clashes;
pub mod cycles;
pub mod directory;
pub mod fault;
pub mod meaning;
pub mod names;
pub mod names_rules;
pub mod references;
pub mod table;
mod variants;

pub use built_ins::{built_in, is_built_in};
pub use cycles::cycles_pass;
pub use directory::Directory;
pub use fault::{Blame, CheckFault, CheckRule};
pub use meaning::{BuiltIn, Meaning};
pub use names::{is_name, without_star};
pub use names_rules::names_pass;
pub use references::references_pass;
pub use table::DefinitionTable;
