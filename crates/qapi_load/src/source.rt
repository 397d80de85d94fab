use qapi_tree::Expr;
use qm_base::{GrowingList, Text};

/// An expression of a schema, and the name of its file.
#[derive(Debug, Drop)]
pub struct Source {
    /// The file.
    pub file: Text,
    /// The expression.
    pub expr: Expr,
}

/// Expressions in reading order.
pub type SourceList = GrowingList<Source>;
