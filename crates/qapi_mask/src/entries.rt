//! The objects that tell of types.
ghost use Rattle.std.specs.Prelude.{◌≡◌, ◌<◌, ◌∷◌, [], ◌++◌, IfOk, OnOk, codes, map, length};
ghost use Rattle.std.specs.List.{All};
ghost use Rattle.qm_json.specs.declared.value.Json.TheVariants as json;
ghost use Rattle.qapi_mask.specs.Entries.{member_entry, value_entry};
ghost use Rattle.qapi_mask.specs.Naming.{mask_of};
ghost use Rattle.qapi_mask.specs.Printing as printed;

use crate::naming::Naming;
use qapi_types::{MemberDef, ValueDef};
use qm_base::{NoMemory, Text};
use qm_json::{Json, Member};
use sqlite_items::Items;
use std::alloc::Global;

/// Appends a member.
pub fn put(
    alloc: Global,
    members: &mut Items<Member>,
    name: &[u8],
    value: Json,
) -> Result<(), NoMemory>
    ensures { OnOk result (members.new ≡ members.old ++ printed.with_value name.now value ∷ []) }
{
    let name = Text::of(alloc, name)?;
    members.push(Member { name, value })?;
    Ok(())
}

/// Appends a member whose value is a text.
pub fn put_text(
    alloc: Global,
    members: &mut Items<Member>,
    name: &[u8],
    text: &[u8],
) -> Result<(), NoMemory>
    ensures { OnOk result (members.new ≡ members.old ++ printed.with_text name.now text.now ∷ []) }
{
    let value = Json::string(alloc, text)?;
    put(alloc, members, name, value)
}

/// What each entry begins with: its name and its sort.
pub fn head(alloc: Global, name: &[u8], sort: &[u8]) -> Result<Items<Member>, NoMemory>
    ensures { IfOk result (λ members. members ≡ printed.with_text (codes "name") name.now ∷ printed.with_text (codes "meta-type") sort.now ∷ []) }
{
    let mut members = Items::new(alloc);
    put_text(alloc, &mut members, b"name", name)?;
    put_text(alloc, &mut members, b"meta-type", sort)?;
    Ok(members)
}

fn strings(alloc: Global, names: &[Text]) -> Result<Json, NoMemory>
    ensures { IfOk result (λ value. value ≡ json.Arr (map json.Str names.now)) }
{
    let mut items = Items::new(alloc);
    for name in names {
        items.push(Json::string(alloc, name.as_slice())?)?;
    }
    Ok(Json::Arr(items))
}

/// Appends the features, where there are some.
pub fn put_features(
    alloc: Global,
    members: &mut Items<Member>,
    features: &[Text],
) -> Result<(), NoMemory>
    ensures { OnOk result (members.new ≡ members.old ++ printed.features_members features.now) }
{
    if features.is_empty() {
        return Ok(());
    }
    let names = strings(alloc, features)?;
    put(alloc, members, b"features", names)
}

fn member_object(alloc: Global, naming: &Naming<'_>, member: &MemberDef) -> Result<Json, NoMemory>
    requires { member.now.type_id < length naming.now.kinds }
    ensures { IfOk result (λ value. value ≡ printed.member_json (member_entry (mask_of naming.now) member.now)) }
{
    let mut members = Items::new(alloc);
    put_text(alloc, &mut members, b"name", member.name.as_slice())?;
    let name = naming.name(alloc, member.type_id)?;
    put_text(alloc, &mut members, b"type", name.as_slice())?;
    if member.optional {
        put(alloc, &mut members, b"default", Json::Null)?;
    }
    put_features(alloc, &mut members, member.features.as_slice())?;
    Ok(Json::Obj(members))
}

/// The objects that tell of members.
pub fn member_objects(
    alloc: Global,
    naming: &Naming<'_>,
    members: &[MemberDef],
) -> Result<Json, NoMemory>
    requires { All (λ m. m.type_id < length naming.now.kinds) members.now }
    ensures { IfOk result (λ value. value ≡ json.Arr (map printed.member_json (map (member_entry (mask_of naming.now)) members.now))) }
{
    let mut items = Items::new(alloc);
    for member in members {
        items.push(member_object(alloc, naming, member)?)?;
    }
    Ok(Json::Arr(items))
}

fn value_object(alloc: Global, value: &ValueDef) -> Result<Json, NoMemory>
    ensures { IfOk result (λ object. object ≡ printed.value_json (value_entry value.now)) }
{
    let mut members = Items::new(alloc);
    put_text(alloc, &mut members, b"name", value.name.as_slice())?;
    put_features(alloc, &mut members, value.features.as_slice())?;
    Ok(Json::Obj(members))
}

/// The objects that tell of values of an enum.
pub fn value_objects(alloc: Global, values: &[ValueDef]) -> Result<Json, NoMemory>
    ensures { IfOk result (λ value. value ≡ json.Arr (map printed.value_json (map value_entry values.now))) }
{
    let mut items = Items::new(alloc);
    for value in values {
        items.push(value_object(alloc, value)?)?;
    }
    Ok(Json::Arr(items))
}

/// The names of values of an enum.
pub fn value_names(alloc: Global, values: &[ValueDef]) -> Result<Json, NoMemory>
    ensures { IfOk result (λ value. value ≡ json.Arr (map (λ v. json.Str v.name) (map value_entry values.now))) }
{
    let mut items = Items::new(alloc);
    for value in values {
        items.push(Json::string(alloc, value.name.as_slice())?)?;
    }
    Ok(Json::Arr(items))
}
