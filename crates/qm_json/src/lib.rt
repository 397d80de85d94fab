//! JSON values and their printed text (RFC 8259).
#![tactic(auto)]

mod copies;
mod equality;
mod members;
mod output;
mod printing;
mod strings;
pub mod value;

pub use members::{MemberFault, Members, has_member};
pub use value::{Json, Member};
