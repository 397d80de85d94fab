//! The expressions of a schema (QAPI code generation guide, "Schema syntax").
#![tactic(auto)]

pub mod fault;
mod judging;
mod named_members;
mod parser;
mod parsing;
mod release;
mod shapes;
mod stack;
mod table;
pub mod tree;

pub use fault::{TreeFault, TreeRule};
pub use parsing::{each_expression_is_spelled, each_fault_is_the_first, memory_is_no_fault, parse};
pub use tree::{Expr, Tree, TreeList, TreeMember};
