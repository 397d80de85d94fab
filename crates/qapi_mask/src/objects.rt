//! What entries tell of object types, alternates, arrays, enums and built-in types.
ghost use Rattle.std.specs.Prelude.{◌≡◌, ◌<◌, ◌++◌, IfOk, OnOk, Some, List, ℕ, map, length, option_map};
ghost use Rattle.std.specs.List.{All};
ghost use Rattle.qapi_types.specs.Goodness.{HasPositions, RefersBelow};
ghost use Rattle.qapi_types.specs.Types.{tag_member as member_of_tag};
ghost use Rattle.qapi_types.specs.declared.kind.Kind.{Kind};
ghost use Rattle.qapi_types.specs.declared.kind.Kind.TheVariants as kinds;
ghost use Rattle.qm_admit.specs.Tags.{tag_of};
ghost use Rattle.qm_json.specs.declared.value.Json.TheVariants as json;
ghost use Rattle.qapi_mask.specs.Below.{variant_jsons};
ghost use Rattle.qapi_mask.specs.Entries.{Alternate, Array, Enum, entry_of, tag_entry, value_entry};
ghost use Rattle.qapi_mask.specs.Introspection.{type_json};
ghost use Rattle.qapi_mask.specs.Naming.{mask_of};
ghost use Rattle.qapi_types.specs.Prelude.{empty_of};
ghost use Rattle.qapi_mask.specs.Printing as printed;

use crate::entries::{
    head, member_objects, put, put_features, put_text, value_names, value_objects,
};
use crate::naming::{Naming, empty};
use crate::references::variant_types;
use qapi_types::lookups::{kind_at, tag_member, tag_values};
use qapi_types::{Kind, MemberDef, ObjectDef, ValueDef};
use qm_base::{NoMemory, Text};
use qm_json::{Json, Member};
use sqlite_items::Items;
use std::alloc::Global;

fn variant_object(
    alloc: Global,
    naming: &Naming<'_>,
    value: &ValueDef,
    type_id: u32,
) -> Result<Json, NoMemory>
    requires { type_id < length naming.now.kinds }
    ensures { IfOk result (λ object. object ≡ printed.variant_json (record { case = value.now.name; type = mask_of naming.now type_id })) }
{
    let mut members = Items::new(alloc);
    put_text(alloc, &mut members, b"case", value.name.as_slice())?;
    let name = naming.name(alloc, type_id)?;
    put_text(alloc, &mut members, b"type", name.as_slice())?;
    Ok(Json::Obj(members))
}

/// The variants of a union: one for each value of its tag's enum.
fn variant_objects(
    alloc: Global,
    naming: &Naming<'_>,
    values: &[ValueDef],
    types: &[u32],
) -> Result<Json, NoMemory>
    requires long { length types.now ≡ length values.now }
    requires below { All (λ t. t < length naming.now.kinds) types.now }
    ensures { IfOk result (λ value. value ≡ json.Arr (variant_jsons (mask_of naming.now) values.now types.now)) }
{
    let mut items = Items::new(alloc);
    for (at, value) in values.iter().enumerate() {
        items.push(variant_object(alloc, naming, value, types[at])?)?;
    }
    Ok(Json::Arr(items))
}

/// Appends the tag of a union, and its variants.
fn put_tag(
    alloc: Global,
    naming: &Naming<'_>,
    members: &mut Items<Member>,
    kind: &Kind,
    tag: &MemberDef,
) -> Result<(), NoMemory>
    requires tag { member_of_tag kind.now ≡ Some tag.now }
    requires positions { HasPositions naming.now.kinds kind.now }
    requires below { RefersBelow (length naming.now.kinds) kind.now }
    ensures { OnOk result (members.new ≡ members.old ++ printed.tag_members (option_map (tag_entry (mask_of naming.now) (empty_of naming.now)) (tag_of naming.now.kinds kind.now))) }
{
    let parts = naming.parts();
    let kinds = parts.kinds.as_slice();
    let types = variant_types(alloc, kinds, kind, empty(parts))?;
    let variants = variant_objects(alloc, naming, tag_values(kinds, kind), types.as_slice())?;
    put_text(alloc, members, b"tag", tag.name.as_slice())?;
    put(alloc, members, b"variants", variants)?;
    Ok(())
}

/// Appends the tag of a union, and its variants; nothing, where the type is none.
fn put_union(
    alloc: Global,
    naming: &Naming<'_>,
    members: &mut Items<Member>,
    kind: &Kind,
) -> Result<(), NoMemory>
    requires positions { HasPositions naming.now.kinds kind.now }
    requires below { RefersBelow (length naming.now.kinds) kind.now }
    ensures { OnOk result (members.new ≡ members.old ++ printed.tag_members (option_map (tag_entry (mask_of naming.now) (empty_of naming.now)) (tag_of naming.now.kinds kind.now))) }
{
    match tag_member(kind) {
        Some(tag) => put_tag(alloc, naming, members, kind, tag),
        None => Ok(()),
    }
}

/// Appends what the entry of an object type tells.
fn put_object(
    alloc: Global,
    naming: &Naming<'_>,
    members: &mut Items<Member>,
    kind: &Kind,
    def: &ObjectDef,
) -> Result<(), NoMemory>
    requires kind { kind.now ≡ kinds.Object def.now }
    requires positions { HasPositions naming.now.kinds kind.now }
    requires below { RefersBelow (length naming.now.kinds) kind.now }
    ensures { OnOk result (members.new ≡ members.old ++ printed.entry_members (entry_of naming.now.kinds (mask_of naming.now) (empty_of naming.now) kind.now)) }
{
    let own = member_objects(alloc, naming, def.members.as_slice())?;
    put(alloc, members, b"members", own)?;
    put_union(alloc, naming, members, kind)?;
    put_features(alloc, members, def.features.as_slice())
}

fn alternative_object(alloc: Global, naming: &Naming<'_>, type_id: u32) -> Result<Json, NoMemory>
    requires { type_id < length naming.now.kinds }
    ensures { IfOk result (λ object. object ≡ printed.alternative_json (mask_of naming.now type_id)) }
{
    let mut members = Items::new(alloc);
    let name = naming.name(alloc, type_id)?;
    put_text(alloc, &mut members, b"type", name.as_slice())?;
    Ok(Json::Obj(members))
}

fn alternative_objects(alloc: Global, naming: &Naming<'_>, types: &[u32]) -> Result<Json, NoMemory>
    requires { All (λ t. t < length naming.now.kinds) types.now }
    ensures { IfOk result (λ value. value ≡ json.Arr (map printed.alternative_json (map (mask_of naming.now) types.now))) }
{
    let mut items = Items::new(alloc);
    for type_id in types {
        items.push(alternative_object(alloc, naming, *type_id)?)?;
    }
    Ok(Json::Arr(items))
}

fn put_alternate(
    alloc: Global,
    naming: &Naming<'_>,
    members: &mut Items<Member>,
    types: &[u32],
    features: &[Text],
) -> Result<(), NoMemory>
    requires { All (λ t. t < length naming.now.kinds) types.now }
    ensures { OnOk result (members.new ≡ members.old ++ printed.entry_members (Alternate (map (mask_of naming.now) types.now) features.now)) }
{
    let alternatives = alternative_objects(alloc, naming, types)?;
    put(alloc, members, b"members", alternatives)?;
    put_features(alloc, members, features)
}

fn put_enum(
    alloc: Global,
    members: &mut Items<Member>,
    values: &[ValueDef],
    features: &[Text],
) -> Result<(), NoMemory>
    ensures { OnOk result (members.new ≡ members.old ++ printed.entry_members (Enum (map value_entry values.now) features.now)) }
{
    let objects = value_objects(alloc, values)?;
    put(alloc, members, b"members", objects)?;
    let names = value_names(alloc, values)?;
    put(alloc, members, b"values", names)?;
    put_features(alloc, members, features)
}

fn put_array(
    alloc: Global,
    naming: &Naming<'_>,
    members: &mut Items<Member>,
    element: u32,
) -> Result<(), NoMemory>
    requires { element < length naming.now.kinds }
    ensures { OnOk result (members.new ≡ members.old ++ printed.entry_members (Array (mask_of naming.now element))) }
{
    let name = naming.name(alloc, element)?;
    put_text(alloc, members, b"element-type", name.as_slice())
}

/// Appends what the entry of a type tells.
fn put_parts(
    alloc: Global,
    naming: &Naming<'_>,
    members: &mut Items<Member>,
    kind: &Kind,
) -> Result<(), NoMemory>
    requires positions { HasPositions naming.now.kinds kind.now }
    requires below { RefersBelow (length naming.now.kinds) kind.now }
    ensures { OnOk result (members.new ≡ members.old ++ printed.entry_members (entry_of naming.now.kinds (mask_of naming.now) (empty_of naming.now) kind.now)) }
{
    match kind {
        Kind::Str => put_text(alloc, members, b"json-type", b"string"),
        Kind::Number => put_text(alloc, members, b"json-type", b"number"),
        Kind::Whole(_) => put_text(alloc, members, b"json-type", b"int"),
        Kind::Bool => put_text(alloc, members, b"json-type", b"boolean"),
        Kind::Null => put_text(alloc, members, b"json-type", b"null"),
        Kind::Any => put_text(alloc, members, b"json-type", b"value"),
        Kind::Enum(values, features) => {
            put_enum(alloc, members, values.as_slice(), features.as_slice())
        }
        Kind::Array(element) => put_array(alloc, naming, members, *element),
        Kind::Object(def) => put_object(alloc, naming, members, kind, def),
        Kind::Alternate(types, features) => {
            put_alternate(
                alloc,
                naming,
                members,
                types.as_slice(),
                features.as_slice(),
            )
        }
    }
}

fn meta_type(kind: &Kind) -> &'static [u8]
    ensures { (table : List Kind) (name_of : ℕ → List ℕ) (empty : ℕ) → result.now ≡ printed.meta_type (entry_of table name_of empty kind.now) }
{
    match kind {
        Kind::Enum(_, _) => b"enum",
        Kind::Array(_) => b"array",
        Kind::Object(_) => b"object",
        Kind::Alternate(_, _) => b"alternate",
        Kind::Str | Kind::Number | Kind::Whole(_) | Kind::Bool | Kind::Null | Kind::Any => {
            b"builtin"
        }
    }
}

/// The object that tells of a type.
pub fn type_object(alloc: Global, naming: &Naming<'_>, number: u32) -> Result<Json, NoMemory>
    requires { number < length naming.now.kinds }
    ensures { IfOk result (λ object. object ≡ type_json naming.now number) }
{
    let kind = kind_at(naming.parts().kinds.as_slice(), number as usize);
    let name = naming.name(alloc, number)?;
    let mut members = head(alloc, name.as_slice(), meta_type(kind))?;
    put_parts(alloc, naming, &mut members, kind)?;
    Ok(Json::Obj(members))
}
