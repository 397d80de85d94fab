//! A schema from its definitions: their first fault, or the table of what is defined (QAPI code
//! generation guide, "Schema syntax").
#![tactic(auto)]

pub mod checking;
pub mod choices;
pub mod clashes;
pub mod laws;
pub mod loading;
mod passes;

pub use checking::check;
pub use choices::Choices;
pub use clashes::clashes_pass;
pub use laws::what_passes_is_good;
pub use loading::{SchemaFault, load_schema};
