//! The tokens of a schema's text (QAPI code generation guide, "Schema syntax").
#![tactic(auto)]

pub mod fault;
mod lexing;
mod piece;
mod quoted;
mod spot;
pub mod token;

pub use fault::LexFault;
pub use lexing::{each_text_splits, lex, memory_is_no_fault};
pub use token::{Token, TokenKind, TokenList};
