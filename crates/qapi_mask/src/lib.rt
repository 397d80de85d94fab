//! Introspection: what a client is told of a schema, and what it can read off it (QAPI code
//! generation guide, "Client JSON Protocol introspection").
#![tactic(auto)]

mod calls;
mod entries;
mod introspection;
pub mod laws;
mod listing;
mod names;
mod naming;
mod objects;
mod references;
mod standing;

pub use introspection::{introspect, is_listed, masked};
