//! The program without threads: the words of a command line, the schema that they name, and what is
//! put out for them.
#![tactic(auto)]

mod binds;
mod defines;
pub mod loading;
pub mod offline;
pub mod refusal;
mod rules;
mod told;
mod words;

pub use loading::{Command, Loaded, load};
pub use offline::run_offline;
pub use refusal::{Refusal, report};
