use crate::named_members::NamedMembers;
use crate::tree::{Tree, TreeList};
use qm_base::Text;
use sqlite_items::Items;

/// What is open: the file by its expressions, a list by its items, or an object by its members, the
/// key whose value comes, and the line of its `{`.
#[derive(Drop)]
pub enum Open {
    File(TreeList),
    List(Items<Tree>),
    Dict(NamedMembers, Text, u32),
}

/// What may stand next.
#[derive(Clone, Copy, PartialEq, Eq)]
pub enum Expect {
    Object,
    Value,
    ValueOrEnd,
    Key,
    KeyOrEnd,
    Colon,
    CommaOrEnd,
}
