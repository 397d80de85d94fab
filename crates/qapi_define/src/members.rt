ghost use Rattle.std.specs.Prelude.{◌≡◌, [], unwrap_or, IfOk};
ghost use Rattle.std.specs.{List.filter_map, Option.option_copied};
ghost use Rattle.qapi_define.specs.Members.{written_name as written_name_of, type_among as type_among_of, written_type as written_type_of, written_feature, written_features, features_among, is_name_or_features as is_name_or_features_of, are_features_first as first_of, value_named, written_value, has_star as has_star_of, without_star as without_star_of, member_of_type, written_member, variant_of_type, written_variant};

use crate::conditions::is_kept;
use crate::definition::{
    EnumValue, EnumValueList, Member, MemberList, Names, TypeName, Variant, VariantList,
};
use crate::lists::push_some;
use crate::references::reference;
use crate::trees::{has_key, items, keys, text, text_at, value_at};
use qapi_tree::{Tree, TreeMember};
use qm_base::{NoMemory, Text};
use std::alloc::Global;

/// A name alone, or an object with a name.
fn written_name(tree: &Tree) -> Option<&Text>
    ensures { option_copied result ≡ written_name_of tree.now }
{
    match text(tree) {
        Some(name) => Some(name),
        None => text_at(keys(tree), b"name"),
    }
}

/// The type reference among an object's keys.
fn type_among(alloc: Global, keys: &[TreeMember]) -> Result<Option<TypeName>, NoMemory>
    ensures { IfOk result (λ of. of ≡ type_among_of keys.now) }
{
    match value_at(keys, b"type") {
        Some(tree) => reference(alloc, tree),
        None => Ok(None),
    }
}

/// A type reference alone, or an object with one.
fn written_type(alloc: Global, tree: &Tree) -> Result<Option<TypeName>, NoMemory>
    ensures { IfOk result (λ of. of ≡ written_type_of tree.now) }
{
    match reference(alloc, tree)? {
        Some(of) => Ok(Some(of)),
        None => type_among(alloc, keys(tree)),
    }
}

fn feature(alloc: Global, defines: &[Text], tree: &Tree) -> Result<Option<Text>, NoMemory>
    ensures { IfOk result (λ made. made ≡ written_feature defines.now tree.now) }
{
    if !is_kept(alloc, defines, keys(tree))? {
        return Ok(None);
    }
    match written_name(tree) {
        Some(name) => Ok(Some(name.copy(alloc)?)),
        None => Ok(None),
    }
}

fn features_in(alloc: Global, defines: &[Text], items: &[Tree]) -> Result<Names, NoMemory>
    ensures { IfOk result (λ made. made ≡ filter_map (written_feature defines.now) items.now) }
{
    let mut made = Names::new(alloc);
    for item in items {
        push_some(&mut made, feature(alloc, defines, item)?)?;
    }
    Ok(made)
}

/// A list of features.
pub fn features(alloc: Global, defines: &[Text], tree: &Tree) -> Result<Option<Names>, NoMemory>
    ensures { IfOk result (λ made. made ≡ written_features defines.now tree.now) }
{
    match items(tree) {
        Some(items) => Ok(Some(features_in(alloc, defines, items)?)),
        None => Ok(None),
    }
}

/// The features of a list; any other value has none.
fn features_or_none(alloc: Global, defines: &[Text], tree: &Tree) -> Result<Names, NoMemory>
    ensures { IfOk result (λ made. made ≡ unwrap_or (written_features defines.now tree.now) []) }
{
    match features(alloc, defines, tree)? {
        Some(features) => Ok(features),
        None => Ok(Names::new(alloc)),
    }
}

/// The features among an object's keys.
fn features_among(alloc: Global, defines: &[Text], keys: &[TreeMember]) -> Result<Names, NoMemory>
    ensures { IfOk result (λ made. made ≡ features_among defines.now keys.now) }
{
    match value_at(keys, b"features") {
        Some(tree) => features_or_none(alloc, defines, tree),
        None => Ok(Names::new(alloc)),
    }
}

fn is_name_or_features(member: &TreeMember) -> bool
    ensures { result ≡ is_name_or_features_of member.now }
{
    has_key(member, b"name") || has_key(member, b"features")
}

/// Whether of the keys `name` and `features` the first is `features`.
fn are_features_first(keys: &[TreeMember]) -> bool
    ensures { result ≡ first_of keys.now }
{
    match keys.iter().find(|member| is_name_or_features(member)) {
        Some(member) => has_key(member, b"features"),
        None => false,
    }
}

fn value_named(
    alloc: Global,
    defines: &[Text],
    keys: &[TreeMember],
    name: &Text,
) -> Result<EnumValue, NoMemory>
    ensures { IfOk result (λ made. made ≡ value_named defines.now keys.now name.now) }
{
    let name = name.copy(alloc)?;
    let features = features_among(alloc, defines, keys)?;
    let features_first = are_features_first(keys);
    Ok(EnumValue {
        name,
        features,
        features_first,
    })
}

fn value(alloc: Global, defines: &[Text], tree: &Tree) -> Result<Option<EnumValue>, NoMemory>
    ensures { IfOk result (λ made. made ≡ written_value defines.now tree.now) }
{
    if !is_kept(alloc, defines, keys(tree))? {
        return Ok(None);
    }
    match written_name(tree) {
        Some(name) => Ok(Some(value_named(alloc, defines, keys(tree), name)?)),
        None => Ok(None),
    }
}

/// The values of an enum.
pub fn values(alloc: Global, defines: &[Text], items: &[Tree]) -> Result<EnumValueList, NoMemory>
    ensures { IfOk result (λ made. made ≡ filter_map (written_value defines.now) items.now) }
{
    let mut made = EnumValueList::new(alloc);
    for item in items {
        push_some(&mut made, value(alloc, defines, item)?)?;
    }
    Ok(made)
}

/// Whether a star before its name marks an optional member.
fn has_star(name: &[u8]) -> bool
    ensures { result ≡ has_star_of name.now }
{
    match name {
        [first, ..] => *first == b'*',
        [] => false,
    }
}

/// The name without one star before it.
fn without_star(name: &[u8]) -> &[u8]
    ensures { result.now ≡ without_star_of name.now }
{
    match name {
        [b'*', rest @ ..] => rest,
        _ => name,
    }
}

fn member_of_type(
    alloc: Global,
    defines: &[Text],
    member: &TreeMember,
    of: TypeName,
) -> Result<Member, NoMemory>
    ensures { IfOk result (λ made. made ≡ member_of_type defines.now member.now of) }
{
    let name = Text::of(alloc, without_star(member.key.as_slice()))?;
    let optional = has_star(member.key.as_slice());
    let features = features_among(alloc, defines, keys(&member.tree))?;
    Ok(Member {
        name,
        optional,
        of,
        features,
    })
}

fn member(alloc: Global, defines: &[Text], member: &TreeMember) -> Result<Option<Member>, NoMemory>
    ensures { IfOk result (λ made. made ≡ written_member defines.now member.now) }
{
    if !is_kept(alloc, defines, keys(&member.tree))? {
        return Ok(None);
    }
    match written_type(alloc, &member.tree)? {
        Some(of) => Ok(Some(member_of_type(alloc, defines, member, of)?)),
        None => Ok(None),
    }
}

/// Members of an object type.
pub fn members(alloc: Global, defines: &[Text], keys: &[TreeMember]) -> Result<MemberList, NoMemory>
    ensures { IfOk result (λ made. made ≡ filter_map (written_member defines.now) keys.now) }
{
    let mut made = MemberList::new(alloc);
    for key in keys {
        push_some(&mut made, member(alloc, defines, key)?)?;
    }
    Ok(made)
}

fn variant(
    alloc: Global,
    defines: &[Text],
    member: &TreeMember,
) -> Result<Option<Variant>, NoMemory>
    ensures { IfOk result (λ made. made ≡ written_variant defines.now member.now) }
{
    if !is_kept(alloc, defines, keys(&member.tree))? {
        return Ok(None);
    }
    match written_type(alloc, &member.tree)? {
        Some(of) => Ok(Some(variant_of_type(alloc, member, of)?)),
        None => Ok(None),
    }
}

fn variant_of_type(alloc: Global, member: &TreeMember, of: TypeName) -> Result<Variant, NoMemory>
    ensures { IfOk result (λ made. made ≡ variant_of_type member.now of) }
{
    let name = member.key.copy(alloc)?;
    Ok(Variant { name, of })
}

/// Branches or alternatives.
pub fn variants(
    alloc: Global,
    defines: &[Text],
    keys: &[TreeMember],
) -> Result<VariantList, NoMemory>
    ensures { IfOk result (λ made. made ≡ filter_map (written_variant defines.now) keys.now) }
{
    let mut made = VariantList::new(alloc);
    for key in keys {
        push_some(&mut made, variant(alloc, defines, key)?)?;
    }
    Ok(made)
}
