ghost use Rattle.std.specs.Prelude.{◌≡◌, ◌<◌, ◌^◌, [], length, false, IfSome, IfNone};
ghost use Rattle.std.specs.List.{All};
ghost use Rattle.qapi_types.specs.Types.{kind_of, members_of, member_names, is_array, is_object};
ghost use Rattle.qm_json.specs.declared.value.Json.TheVariants.{Obj};
ghost use Rattle.qapi_types.specs.declared.kind.Kind.TheVariants as kinds;
ghost use Rattle.qapi_types.specs.declared.kind.MemberDef.{MemberDef as TypeMember};
ghost use Rattle.qm_admit.specs.declared.members.Block.{Block as Places};
ghost use Rattle.qm_admit.specs.Blocks.{ArePlaced};
ghost use Rattle.qm_admit.specs.Misfits.{first_misfit, given_misfit, members_misfit, types_misfit};
ghost use Rattle.qm_admit.specs.Walks.{Tells, inners, chosen_types, value_misfit, array_misfit, item_list_misfit, given_object_misfit};

use crate::alternatives::{alternative, sort_of};
use crate::choices::chosen;
use crate::members::{Block, FEW, block_of, own_members, place_at};
use crate::path::{PathList, PathStep};
use crate::plain::{bool_fault, int_fault, null_fault, num_fault, other_fault, text_fault};
use crate::unexpected::unexpected;
use crate::verdict::Fault;
use qapi_types::lookups::is_object_at;
use qapi_types::{JsonKind, Kind, MemberDef, Schema};
use qm_json::{Json, Member};

/// The type of the elements of an array type.
fn element_at(schema: &Schema, type_id: u32) -> Option<u32>
    requires { type_id < length schema.now.kinds }
    ensures some { IfSome result (λ e. (kind_of schema.now.kinds type_id ≡ kinds.Array e) × (e < length schema.now.kinds)) }
    ensures none { IfNone result (is_array (kind_of schema.now.kinds type_id) ≡ false) }
{
    let _parts = schema.parts();
    match schema.kind(type_id) {
        Kind::Array(element) => Some(*element),
        _ => None,
    }
}

fn is_object(schema: &Schema, type_id: u32) -> bool
    ensures { result ≡ is_object (kind_of schema.now.kinds type_id) }
{
    is_object_at(schema.parts().kinds.as_slice(), type_id)
}

/// The first fault of the value at the type. What is told of its way is put into `path`, which is
/// empty before, and after where there is none.
#[cycle(walk)]
pub fn walked(schema: &Schema, type_id: u32, value: &Json, path: &mut PathList) -> Option<Fault>
    requires id { type_id < length schema.now.kinds }
    requires path { path.old ≡ [] }
    ensures { Tells (first_misfit schema.now.kinds type_id value.now) result path.new }
{
    match alternative(schema, sort_of(value), type_id) {
        None => Some(Fault::NoAlternative),
        Some(found) => walk_value(schema, found, value, path),
    }
}

/// The same at a type that is no alternate.
#[cycle(walk)]
fn walk_value(schema: &Schema, type_id: u32, value: &Json, path: &mut PathList) -> Option<Fault>
    requires id { type_id < length schema.now.kinds }
    requires path { path.old ≡ [] }
    ensures { Tells (value_misfit schema.now.kinds type_id value.now) result path.new }
{
    let kind = schema.kind(type_id);
    match value {
        Json::Null => null_fault(kind),
        Json::Bool(b) => bool_fault(kind, *b),
        Json::Int(n) => int_fault(kind, n),
        Json::Num(text) => num_fault(kind, text.as_slice()),
        Json::Str(text) => text_fault(schema, type_id, text.as_slice()),
        Json::Arr(items) => walk_array(schema, type_id, items.as_slice(), path),
        Json::Obj(given) => walk_object(schema, type_id, given.as_slice(), path),
    }
}

/// The same of an array of these items.
#[cycle(walk)]
fn walk_array(schema: &Schema, type_id: u32, items: &[Json], path: &mut PathList) -> Option<Fault>
    requires id { type_id < length schema.now.kinds }
    requires path { path.old ≡ [] }
    ensures { Tells (array_misfit schema.now.kinds type_id items.now) result path.new }
{
    match element_at(schema, type_id) {
        None => other_fault(schema.kind(type_id)),
        Some(element) => walk_items(schema, element, items, path),
    }
}

#[cycle(walk)]
fn walk_items(schema: &Schema, element: u32, items: &[Json], path: &mut PathList) -> Option<Fault>
    requires id { element < length schema.now.kinds }
    requires path { path.old ≡ [] }
    ensures { Tells (item_list_misfit schema.now.kinds element items.now) result path.new }
{
    for (i, item) in items.iter().enumerate() {
        match walked(schema, element, item, path) {
            None => {}
            Some(fault) => {
                path.prepend(PathStep::Place(i as u64));
                return Some(fault);
            }
        }
    }
    None
}

/// The same of an object of these members.
#[cycle(walk)]
pub fn walk_object(
    schema: &Schema,
    type_id: u32,
    given: &[Member],
    path: &mut PathList,
) -> Option<Fault>
    requires id { type_id < length schema.now.kinds }
    requires path { path.old ≡ [] }
    ensures { Tells (given_object_misfit schema.now.kinds type_id given.now) result path.new }
{
    if !is_object(schema, type_id) {
        return other_fault(schema.kind(type_id));
    }
    match walk_choices(schema, type_id, given, path) {
        None => unexpected(schema, type_id, given, path),
        Some(fault) => Some(fault),
    }
}

/// The first fault of the empty object at the type.
pub fn walk_empty(schema: &Schema, type_id: u32, path: &mut PathList) -> Option<Fault>
    requires id { type_id < length schema.now.kinds }
    requires path { path.old ≡ [] }
    ensures { Tells (first_misfit schema.now.kinds type_id (Obj [])) result path.new }
{
    match alternative(schema, JsonKind::Object, type_id) {
        None => Some(Fault::NoAlternative),
        Some(found) => walk_object(schema, found, &[], path),
    }
}

/// The first fault of the type's members, and then of those of the branches that are chosen.
#[cycle(walk)]
fn walk_choices(
    schema: &Schema,
    type_id: u32,
    given: &[Member],
    path: &mut PathList,
) -> Option<Fault>
    requires id { type_id < length schema.now.kinds }
    requires path { path.old ≡ [] }
    ensures { Tells (types_misfit schema.now.kinds (inners schema.now.kinds given.now) (chosen_types schema.now.kinds given.now type_id)) result path.new }
{
    let mut next = Some(type_id);
    let types = schema.types();
    for turn in 0..types {
        match next {
            None => return None,
            Some(own) => {
                match walk_own(schema, own, given, path) {
                    None => {}
                    Some(fault) => return Some(fault),
                }
                next = chosen(schema, own, given);
            }
        }
    }
    None
}

/// The first fault of the type's own members.
#[cycle(walk)]
fn walk_own(schema: &Schema, type_id: u32, given: &[Member], path: &mut PathList) -> Option<Fault>
    requires id { type_id < length schema.now.kinds }
    requires path { path.old ≡ [] }
    ensures { Tells (members_misfit (inners schema.now.kinds given.now) type_id 0 (members_of (kind_of schema.now.kinds type_id))) result path.new }
{
    if given.len() > FEW {
        return walk_by_block(schema, type_id, given, path);
    }
    walk_members(
        schema,
        type_id,
        own_members(schema, type_id),
        given,
        &mut [],
        path,
    )
}

/// The same by a block of places. It keeps a frame of its own, so that an object of few members has
/// no room for a block to clear.
#[cycle(walk)]
#[inline(never)]
fn walk_by_block(
    schema: &Schema,
    type_id: u32,
    given: &[Member],
    path: &mut PathList,
) -> Option<Fault>
    requires id { type_id < length schema.now.kinds }
    requires path { path.old ≡ [] }
    ensures { Tells (members_misfit (inners schema.now.kinds given.now) type_id 0 (members_of (kind_of schema.now.kinds type_id))) result path.new }
{
    let mut blocks = [block_of(schema, type_id, given, 0)];
    walk_members(
        schema,
        type_id,
        own_members(schema, type_id),
        given,
        &mut blocks,
        path,
    )
}

#[cycle(walk)]
fn walk_members(
    schema: &Schema,
    type_id: u32,
    members: &[MemberDef],
    given: &[Member],
    blocks: &mut [Block],
    path: &mut PathList,
) -> Option<Fault>
    requires id { type_id < length schema.now.kinds }
    requires members { members.now ≡ members_of (kind_of schema.now.kinds type_id) }
    requires ids { All (λ (m : TypeMember). m.type_id < length schema.now.kinds) members.now }
    requires few { length members.now < 2 ^ 32 }
    requires placed { All (λ (b : Places). ArePlaced given.now (member_names (kind_of schema.now.kinds type_id)) b.start b.places) blocks.old }
    requires path { path.old ≡ [] }
    ensures { Tells (members_misfit (inners schema.now.kinds given.now) type_id 0 members.now) result path.new }
{
    for (i, member) in members.iter().enumerate() {
        let found = place_at(schema, type_id, given, blocks, i);
        match walk_member(schema, type_id, i as u32, member, given, found, path) {
            None => {}
            Some(fault) => return Some(fault),
        }
    }
    None
}

/// The first fault of a member of the type, where its position is given among the given members.
#[cycle(walk)]
fn walk_member(
    schema: &Schema,
    type_id: u32,
    position: u32,
    member: &MemberDef,
    given: &[Member],
    found: Option<usize>,
    path: &mut PathList,
) -> Option<Fault>
    requires id { member.now.type_id < length schema.now.kinds }
    requires found { IfSome found (λ i. i < length given.now) }
    requires path { path.old ≡ [] }
    ensures { Tells (given_misfit (inners schema.now.kinds given.now) type_id position member.now found) result path.new }
{
    match found {
        Some(i) => match walked(schema, member.type_id, &given[i].value, path) {
            None => None,
            Some(fault) => {
                path.prepend(PathStep::Member(i as u64));
                Some(fault)
            }
        },
        None if member.optional => None,
        None => {
            path.prepend(PathStep::Absent(type_id, position));
            Some(Fault::Missing)
        }
    }
}
