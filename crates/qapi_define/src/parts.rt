ghost use Rattle.std.specs.Prelude.{◌≡◌, IfOk};
ghost use Rattle.std.specs.List.{filter_map};
ghost use Rattle.std.specs.Option.{option_map};
ghost use Rattle.qapi_define.specs.Definitions.{values_part as values_of, members_part as members_of, variants_part as variants_of, payload_part as payload_of, data_part as data_of, base_members_part as base_members_of, base_part as base_of, written_part};
ghost use Rattle.qapi_define.specs.declared.definition.Part.TheVariants.{Discriminator, Returns, Features};
ghost use Rattle.qapi_define.specs.{Members.written_features, References.reference_in, Trees.text_of};

use crate::definition::{Part, PartList, Sort};
use crate::lists::push_some;
use crate::members::{features, members, values, variants};
use crate::references::reference;
use crate::trees::{has_key, items, object, text};
use qapi_tree::{Tree, TreeMember};
use qm_base::{NoMemory, Text};
use std::alloc::Global;

/// The values of an enum.
fn values_part(alloc: Global, defines: &[Text], tree: &Tree) -> Result<Option<Part>, NoMemory>
    ensures { IfOk result (λ made. made ≡ values_of defines.now tree.now) }
{
    match items(tree) {
        Some(items) => Ok(Some(Part::Values(values(alloc, defines, items)?))),
        None => Ok(None),
    }
}

/// Members that are written out.
fn members_part(alloc: Global, defines: &[Text], tree: &Tree) -> Result<Option<Part>, NoMemory>
    ensures { IfOk result (λ made. made ≡ members_of defines.now tree.now) }
{
    match object(tree) {
        Some(keys) => Ok(Some(Part::Members(members(alloc, defines, keys)?))),
        None => Ok(None),
    }
}

/// Branches or alternatives.
fn variants_part(alloc: Global, defines: &[Text], tree: &Tree) -> Result<Option<Part>, NoMemory>
    ensures { IfOk result (λ made. made ≡ variants_of defines.now tree.now) }
{
    match object(tree) {
        Some(keys) => Ok(Some(Part::Variants(variants(alloc, defines, keys)?))),
        None => Ok(None),
    }
}

/// What a command takes or an event has: the name of a type, or members.
fn payload_part(alloc: Global, defines: &[Text], tree: &Tree) -> Result<Option<Part>, NoMemory>
    ensures { IfOk result (λ made. made ≡ payload_of defines.now tree.now) }
{
    match text(tree) {
        Some(name) => Ok(Some(Part::Data(name.copy(alloc)?))),
        None => members_part(alloc, defines, tree),
    }
}

/// The key `data`.
fn data_part(
    alloc: Global,
    defines: &[Text],
    sort: Sort,
    tree: &Tree,
) -> Result<Option<Part>, NoMemory>
    ensures { IfOk result (λ made. made ≡ data_of defines.now sort tree.now) }
{
    match sort {
        Sort::Enum => values_part(alloc, defines, tree),
        Sort::Struct => members_part(alloc, defines, tree),
        Sort::Union | Sort::Alternate => variants_part(alloc, defines, tree),
        Sort::Command | Sort::Event => payload_part(alloc, defines, tree),
    }
}

/// Members of a base that are written out.
fn base_members(alloc: Global, defines: &[Text], tree: &Tree) -> Result<Option<Part>, NoMemory>
    ensures { IfOk result (λ made. made ≡ base_members_of defines.now tree.now) }
{
    match object(tree) {
        Some(keys) => Ok(Some(Part::BaseMembers(members(alloc, defines, keys)?))),
        None => Ok(None),
    }
}

/// The key `base`: the name of a struct, or members.
fn base_part(alloc: Global, defines: &[Text], tree: &Tree) -> Result<Option<Part>, NoMemory>
    ensures { IfOk result (λ made. made ≡ base_of defines.now tree.now) }
{
    match text(tree) {
        Some(name) => Ok(Some(Part::Base(name.copy(alloc)?))),
        None => base_members(alloc, defines, tree),
    }
}

/// The key `discriminator`.
fn discriminator_part(alloc: Global, tree: &Tree) -> Result<Option<Part>, NoMemory>
    ensures { IfOk result (λ made. made ≡ option_map Discriminator (text_of tree.now)) }
{
    match text(tree) {
        Some(name) => Ok(Some(Part::Discriminator(name.copy(alloc)?))),
        None => Ok(None),
    }
}

/// The key `returns`.
fn returns_part(alloc: Global, tree: &Tree) -> Result<Option<Part>, NoMemory>
    ensures { IfOk result (λ made. made ≡ option_map Returns (reference_in tree.now)) }
{
    match reference(alloc, tree)? {
        Some(of) => Ok(Some(Part::Returns(of))),
        None => Ok(None),
    }
}

/// The key `features`.
fn features_part(alloc: Global, defines: &[Text], tree: &Tree) -> Result<Option<Part>, NoMemory>
    ensures { IfOk result (λ made. made ≡ option_map Features (written_features defines.now tree.now)) }
{
    match features(alloc, defines, tree)? {
        Some(names) => Ok(Some(Part::Features(names))),
        None => Ok(None),
    }
}

/// What a key says of the definition.
fn part(
    alloc: Global,
    defines: &[Text],
    sort: Sort,
    member: &TreeMember,
) -> Result<Option<Part>, NoMemory>
    ensures { IfOk result (λ made. made ≡ written_part defines.now sort member.now) }
{
    if has_key(member, b"data") {
        return data_part(alloc, defines, sort, &member.tree);
    }
    if has_key(member, b"base") {
        return base_part(alloc, defines, &member.tree);
    }
    if has_key(member, b"discriminator") {
        return discriminator_part(alloc, &member.tree);
    }
    if has_key(member, b"returns") {
        return returns_part(alloc, &member.tree);
    }
    if has_key(member, b"features") {
        return features_part(alloc, defines, &member.tree);
    }
    Ok(None)
}

/// What the keys say of the definition, in their order.
pub fn parts(
    alloc: Global,
    defines: &[Text],
    sort: Sort,
    keys: &[TreeMember],
) -> Result<PartList, NoMemory>
    ensures { IfOk result (λ made. made ≡ filter_map (written_part defines.now sort) keys.now) }
{
    let mut made = PartList::new(alloc);
    for key in keys {
        push_some(&mut made, part(alloc, defines, sort, key)?)?;
    }
    Ok(made)
}
