//! The table of a schema: its types, commands and events by their numbers (QAPI code generation
//! guide, "Schema syntax").
#![tactic(auto)]

pub mod choices;
mod goodness;
pub mod graph;
pub mod kind;
pub mod lookups;
pub mod names;
pub mod parts;
mod places;
mod ranges;
pub mod schema;
mod sealing;
mod tables;
mod unions;

pub use choices::{TypeFaults, faults_of};
pub use goodness::parts_good;
pub use graph::{branch_graph, reached, references_of};
pub use kind::{
    Branch, BranchList, JsonKind, Kind, KindList, MemberDef, MemberList, Names, ObjectDef,
    TypeList, ValueDef, ValueList, Whole,
};
pub use names::{NameSet, distinct_names};
pub use parts::{ArgType, CommandDef, CommandList, EventDef, EventList, Parts};
pub use ranges::is_counted;
pub use schema::Schema;
