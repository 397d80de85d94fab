//! The definitions of a schema: its expressions without what conditions take out (QAPI code
//! generation guide, "Schema syntax").
#![tactic(auto)]

pub mod conditions;
mod defining;
pub mod definition;
mod lists;
mod members;
mod parts;
mod references;
mod saying;
mod trees;

pub use defining::definitions;
pub use definition::{
    Definition, DefinitionList, EnumValue, EnumValueList, Flags, Member, MemberList, Names, Part,
    PartList, Sort, TypeName, Variant, VariantList,
};
