use crate::release::release;
use qm_base::{GrowingList, Text};
use sqlite_items::Items;

/// A value of a schema's text (QAPI code generation guide, "Schema syntax"). One that may nest
/// deeply is let go by the expression that it stands in, without recursion.
#[cycle(tree)]
#[derive(Debug, Drop)]
pub enum Tree {
    /// The words `true` and `false`.
    Flag(bool),
    /// A string.
    Str(Text),
    /// A list.
    List(Items<Tree>),
    /// An object, its members in the order of the text.
    Dict(Items<TreeMember>),
}

/// A member of an object: a key and its value.
#[cycle(tree)]
#[derive(Debug, Drop)]
pub struct TreeMember {
    /// The key.
    pub key: Text,
    /// The value.
    pub tree: Tree,
}

/// A top-level object of a schema's text.
#[derive(Debug)]
pub struct Expr {
    /// The line of its `{`.
    pub line: u32,
    /// Its members in the order of the text.
    pub keys: Items<TreeMember>,
}

impl Drop for Expr {
    fn drop(self) {
        let Expr { line: _, keys } = self;
        release(Tree::Dict(keys));
    }
}

/// Expressions in the order of the text.
pub type TreeList = GrowingList<Expr>;
