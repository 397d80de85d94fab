ghost use Rattle.std.specs.Prelude.{◌≡◌, ◌↔◌, IfOk, IsTrue, true, Some};
ghost use Rattle.std.specs.List.{All};
ghost use Rattle.qapi_types.specs.Goodness.{AreObjects, HaveOwnValues, HasBranches, HasTag};
ghost use Rattle.qapi_types.specs.Goodness.{HasPlainElement, HasApartAlternatives, AreToldApart};
ghost use Rattle.qapi_types.specs.Types.{kind_of, json_kind_of};
ghost use Rattle.qapi_types.specs.Sets.{IsNewKind};

use crate::kind::{Branch, JsonKind, Kind};
use crate::lookups::{is_array_at, is_enum_at, is_object_at, json_kind_at, tag_member};
use qm_base::NoMemory;
use std::alloc::Global;
use std::collections::BTreeSet;

/// Whether the branches are of object types.
fn are_objects(kinds: &[Kind], branches: &[Branch]) -> bool
    ensures { IsTrue result ↔ AreObjects kinds.now branches.now }
{
    branches
        .iter()
        .all(|branch| is_object_at(kinds, branch.type_id))
}

/// Whether the branches are of different values.
fn have_own_values(alloc: Global, branches: &[Branch]) -> Result<bool, NoMemory>
    ensures { IfOk result (λ yes. IsTrue yes ↔ HaveOwnValues branches.now) }
{
    let mut values = BTreeSet::new(alloc);
    for branch in branches {
        match values.insert(branch.value) {
            Ok(true) => {}
            Ok(false) => return Ok(false),
            Err(_) => return Err(NoMemory),
        }
    }
    Ok(true)
}

fn has_branches(alloc: Global, kinds: &[Kind], kind: &Kind) -> Result<bool, NoMemory>
    ensures { IfOk result (λ yes. IsTrue yes ↔ HasBranches kinds.now kind.now) }
{
    if !are_objects(kinds, kind.branches()) {
        return Ok(false);
    }
    have_own_values(alloc, kind.branches())
}

/// Whether the branches of each type are of object types and of different values.
pub fn have_branches(alloc: Global, kinds: &[Kind]) -> Result<bool, NoMemory>
    ensures { IfOk result (λ yes. IsTrue yes ↔ All (HasBranches kinds.now) kinds.now) }
{
    for kind in kinds {
        if !has_branches(alloc, kinds, kind)? {
            return Ok(false);
        }
    }
    Ok(true)
}

fn has_tag(kinds: &[Kind], kind: &Kind) -> bool
    ensures { IsTrue result ↔ HasTag kinds.now kind.now }
{
    match tag_member(kind) {
        Some(member) => !member.optional && is_enum_at(kinds, member.type_id),
        None => true,
    }
}

/// Whether each tag is a mandatory member of an enum type.
pub fn have_tags(kinds: &[Kind]) -> bool
    ensures { IsTrue result ↔ All (HasTag kinds.now) kinds.now }
{
    kinds.iter().all(|kind| has_tag(kinds, kind))
}

fn has_plain_element(kinds: &[Kind], kind: &Kind) -> bool
    ensures { IsTrue result ↔ HasPlainElement kinds.now kind.now }
{
    match kind {
        Kind::Array(element) => !is_array_at(kinds, *element),
        _ => true,
    }
}

/// Whether no element of an array is an array.
pub fn have_plain_elements(kinds: &[Kind]) -> bool
    ensures { IsTrue result ↔ All (HasPlainElement kinds.now) kinds.now }
{
    kinds.iter().all(|kind| has_plain_element(kinds, kind))
}

fn is_of_kind(kinds: &[Kind], id: u32, json_kind: JsonKind) -> bool
    ensures { IsTrue result ↔ (json_kind_of (kind_of kinds.now id) ≡ Some json_kind) }
{
    json_kind_at(kinds, id) == Some(json_kind)
}

/// Whether the type is of one kind of JSON values, and none of the others is of it.
fn is_new_kind(kinds: &[Kind], others: &[u32], id: u32) -> bool
    ensures { IsTrue result ↔ IsNewKind kinds.now others.now id }
{
    match json_kind_at(kinds, id) {
        Some(json_kind) => others
            .iter()
            .all(|other| !is_of_kind(kinds, *other, json_kind)),
        None => false,
    }
}

fn are_told_apart(kinds: &[Kind], types: &[u32]) -> bool
    ensures { IsTrue result ↔ AreToldApart kinds.now types.now }
{
    for (i, id) in types.iter().enumerate() {
        if !is_new_kind(kinds, &types[..i], *id) {
            return false;
        }
    }
    true
}

fn has_apart_alternatives(kinds: &[Kind], kind: &Kind) -> bool
    ensures { IsTrue result ↔ HasApartAlternatives kinds.now kind.now }
{
    match kind {
        Kind::Alternate(types, _) => are_told_apart(kinds, types.as_slice()),
        _ => true,
    }
}

/// Whether the alternatives of each alternate are told apart by the kinds of JSON values.
pub fn have_apart_alternatives(kinds: &[Kind]) -> bool
    ensures { IsTrue result ↔ All (HasApartAlternatives kinds.now) kinds.now }
{
    kinds.iter().all(|kind| has_apart_alternatives(kinds, kind))
}
