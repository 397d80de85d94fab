ghost use Rattle.std.specs.Prelude.{◌≡◌, ◌==◌, IfOk, map, [], position, unwrap_or, slice_get};
ghost use Rattle.std.specs.Str.{bytes_eq};
ghost use Rattle.std.specs.Option.{option_map};
ghost use Rattle.qapi_types.specs.Lookups.{place_of};
ghost use Rattle.qapi_define.specs.Saying.{values_of};
ghost use Rattle.qapi_number.specs.Kinds.{tag_of, tag_names as names_of_tag, value_names_at, qtype_names, qtype_number, branch_def as branch_told, object_with};

use crate::copies::copy_names;
use crate::counting::narrow;
use crate::directory::Directory;
use crate::lines::narrow_place;
use crate::numbering::Numbering;
use crate::types::TypeTable;
use qapi_define::{Definition, EnumValue, Variant};
use qapi_types::{Branch, BranchList, MemberDef, MemberList, ObjectDef};
use qm_base::{GrowingList, NoMemory};
use std::alloc::Global;

/// The values of the built-in enum QType.
pub fn qtype_values<'a>(alloc: Global) -> Result<GrowingList<&'a [u8]>, NoMemory>
    ensures { IfOk result (λ names. map (λ k. k.now) names ≡ qtype_names) }
{
    let mut names: GrowingList<&'a [u8]> = GrowingList::new(alloc);
    names.push(b"none")?;
    names.push(b"qnull")?;
    names.push(b"qnum")?;
    names.push(b"qstring")?;
    names.push(b"qdict")?;
    names.push(b"qlist")?;
    names.push(b"qbool")?;
    Ok(names)
}

fn names_of_values<'a>(
    alloc: Global,
    values: &'a [EnumValue],
) -> Result<GrowingList<&'a [u8]>, NoMemory>
    ensures { IfOk result (λ names. map (λ k. k.now) names ≡ map (λ v. v.name) values.now) }
{
    let mut names = GrowingList::new(alloc);
    for value in values {
        names.push(value.name.as_slice())?;
    }
    Ok(names)
}

fn is_qtype(types: &TypeTable, number: u32) -> bool
    ensures { result ≡ (number == qtype_number types.now) }
{
    number as usize >= types.defined() && number as usize - types.defined() == 15
}

fn values_at<'a>(types: &TypeTable<'a>, number: u32) -> &'a [EnumValue]
    ensures { result.now ≡ unwrap_or (option_map values_of (slice_get types.now number)) [] }
{
    match types.definition(number) {
        Some(definition) => definition.values(),
        None => &[],
    }
}

fn value_names<'a>(
    alloc: Global,
    types: &TypeTable<'a>,
    number: u32,
) -> Result<GrowingList<&'a [u8]>, NoMemory>
    ensures { IfOk result (λ names. map (λ k. k.now) names ≡ value_names_at types.now number) }
{
    if is_qtype(types, number) {
        qtype_values(alloc)
    } else {
        names_of_values(alloc, values_at(types, number))
    }
}

fn position_among(members: &[MemberDef], name: &[u8]) -> Option<usize>
    ensures { result ≡ position (λ m. bytes_eq name.now m.name) members.now }
{
    members
        .iter()
        .position(|member| name == member.name.as_slice())
}

fn position_of(members: &[MemberDef], name: &[u8]) -> Option<usize>
    ensures { result ≡ place_of (map (λ m. m.name) members.now) name.now }
{
    position_among(members, name)
}

fn tag(definition: &Definition, members: &[MemberDef]) -> Result<Option<u32>, NoMemory>
    ensures { IfOk result (λ tag. tag ≡ tag_of definition.now members.now) }
{
    match definition.discriminator() {
        Some(name) => narrow_place(position_of(members, name.as_slice())),
        None => Ok(None),
    }
}

fn tag_names<'a>(
    alloc: Global,
    types: &TypeTable<'a>,
    members: &[MemberDef],
    tag: Option<u32>,
) -> Result<GrowingList<&'a [u8]>, NoMemory>
    ensures { IfOk result (λ names. map (λ k. k.now) names ≡ names_of_tag types.now members.now tag) }
{
    let Some(tag) = tag else {
        return Ok(GrowingList::new(alloc));
    };
    match members.get(tag as usize) {
        Some(member) => value_names(alloc, types, member.type_id),
        None => Ok(GrowingList::new(alloc)),
    }
}

fn value_number(names: &Directory, name: &[u8]) -> Result<u32, NoMemory>
    ensures { IfOk result (λ n. n ≡ unwrap_or (place_of names.now name.now) 0) }
{
    match names.place(name) {
        Some(place) => narrow(place),
        None => Ok(0),
    }
}

fn branch_def(
    numbering: &Numbering,
    names: &Directory,
    variant: &Variant,
) -> Result<Branch, NoMemory>
    ensures { IfOk result (λ b. b ≡ branch_told numbering.now names.now variant.now) }
{
    let value = value_number(names, variant.name.as_slice())?;
    let type_id = numbering.type_number(&variant.of)?;
    Ok(Branch { value, type_id })
}

fn branches(
    alloc: Global,
    numbering: &Numbering,
    names: &Directory,
    variants: &[Variant],
) -> Result<BranchList, NoMemory>
    ensures { IfOk result (λ list. list ≡ map (branch_told numbering.now names.now) variants.now) }
{
    let mut list = GrowingList::new(alloc);
    for variant in variants {
        list.push(branch_def(numbering, names, variant)?)?;
    }
    Ok(list)
}

/// The object type of a struct or a union that has these members.
pub fn object(
    alloc: Global,
    numbering: &Numbering,
    definition: &Definition,
    members: MemberList,
) -> Result<ObjectDef, NoMemory>
    ensures { IfOk result (λ o. o ≡ object_with numbering.now definition.now members) }
{
    let tag = tag(definition, members.as_slice())?;
    let names = tag_names(alloc, &numbering.types, members.as_slice(), tag)?;
    let names = Directory::of(alloc, names)?;
    let branches = branches(alloc, numbering, &names, definition.variants())?;
    let features = copy_names(alloc, definition.features())?;
    Ok(ObjectDef {
        members,
        tag,
        branches,
        features,
    })
}
