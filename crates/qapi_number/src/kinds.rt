ghost use Rattle.std.specs.Prelude.{◌≡◌, ◌+◌, ◌++◌, IfOk, OnOk, map, drop, [], ◌∷◌};
ghost use Rattle.std.specs.List.{enumerate_from};
ghost use Rattle.qapi_types.specs.declared.kind.Kind.TheVariants as kind;
ghost use Rattle.qapi_define.specs.Saying.{values_of, features_of};
ghost use Rattle.qapi_number.specs.Numbering.{type_number};
ghost use Rattle.qapi_number.specs.Kinds.{alternatives as alternatives_told, kind_defined, builtin_kinds, whole_kinds, value_def, value_defs, qtype_kind, plain_object as plain, members_at as members_told, member_defs, all_members, object_with, implicit_kind as kind_implied, defined_kinds as kinds_defined, kinds_of, bases_of};

use crate::copies::{copy_names, copy_values};
use crate::counting::narrow;
use crate::implicit::ImplicitType;
use crate::lines::bases;
use crate::members::{members_of_type, members_written};
use crate::numbering::Numbering;
use crate::unions::{object, qtype_values};
use qapi_define::{Definition, Sort, Variant};
use qapi_types::{Kind, KindList, MemberList, ObjectDef, TypeList, ValueDef, ValueList, Whole};
use qm_base::{GrowingList, NoMemory, Text};
use std::alloc::Global;

fn alternatives(
    alloc: Global,
    numbering: &Numbering,
    variants: &[Variant],
) -> Result<TypeList, NoMemory>
    ensures { IfOk result (λ list. list ≡ map (λ v. type_number numbering.now v.of) variants.now) }
{
    let mut list = GrowingList::new(alloc);
    for variant in variants {
        list.push(numbering.type_number(&variant.of)?)?;
    }
    Ok(list)
}

fn enum_kind(alloc: Global, definition: &Definition) -> Result<Kind, NoMemory>
    ensures { IfOk result (λ k. k ≡ kind.Enum (value_defs (values_of definition.now)) (features_of definition.now)) }
{
    let values = copy_values(alloc, definition.values())?;
    let features = copy_names(alloc, definition.features())?;
    Ok(Kind::Enum(values, features))
}

fn alternate_kind(
    alloc: Global,
    numbering: &Numbering,
    definition: &Definition,
) -> Result<Kind, NoMemory>
    ensures { IfOk result (λ k. k ≡ kind.Alternate (alternatives_told numbering.now definition.now) (features_of definition.now)) }
{
    let types = alternatives(alloc, numbering, definition.variants())?;
    let features = copy_names(alloc, definition.features())?;
    Ok(Kind::Alternate(types, features))
}

fn object_kind(
    alloc: Global,
    numbering: &Numbering,
    bases: &[Option<u32>],
    number: usize,
    definition: &Definition,
) -> Result<Kind, NoMemory>
    requires { bases.now ≡ bases_of numbering.now.types }
    ensures { IfOk result (λ k. k ≡ kind.Object (object_with numbering.now definition.now (member_defs numbering.now (all_members numbering.now.types number)))) }
{
    let number = narrow(number)?;
    let members = members_of_type(alloc, numbering, bases, number)?;
    let object = object(alloc, numbering, definition, members)?;
    Ok(Kind::Object(object))
}

fn defined_kind(
    alloc: Global,
    numbering: &Numbering,
    bases: &[Option<u32>],
    number: usize,
    definition: &Definition,
) -> Result<Kind, NoMemory>
    requires { bases.now ≡ bases_of numbering.now.types }
    ensures { IfOk result (λ k. k ≡ kind_defined numbering.now definition.now.sort number definition.now) }
{
    match definition.sort {
        Sort::Enum => enum_kind(alloc, definition),
        Sort::Alternate => alternate_kind(alloc, numbering, definition),
        _ => object_kind(alloc, numbering, bases, number, definition),
    }
}

fn add_defined_kind(
    alloc: Global,
    numbering: &Numbering,
    bases: &[Option<u32>],
    number: usize,
    definition: &Definition,
    kinds: &mut KindList,
) -> Result<(), NoMemory>
    requires { bases.now ≡ bases_of numbering.now.types }
    ensures { OnOk result (kinds.new ≡ kinds.old ++ kind_defined numbering.now definition.now.sort number definition.now ∷ []) }
{
    let kind = defined_kind(alloc, numbering, bases, number, definition)?;
    kinds.push(kind)
}

fn kinds_among(
    alloc: Global,
    numbering: &Numbering,
    bases: &[Option<u32>],
    definitions: &[&Definition],
) -> Result<KindList, NoMemory>
    requires { bases.now ≡ bases_of numbering.now.types }
    ensures { IfOk result (λ kinds. kinds ≡ map (λ e. kind_defined numbering.now e.1.sort e.0 e.1) (enumerate_from 0 (map (λ k. k.now) definitions.now))) }
{
    let mut kinds = GrowingList::new(alloc);
    for (at, definition) in definitions.iter().enumerate() {
        add_defined_kind(alloc, numbering, bases, at, *definition, &mut kinds)?;
    }
    Ok(kinds)
}

fn defined_kinds(alloc: Global, numbering: &Numbering) -> Result<KindList, NoMemory>
    ensures { IfOk result (λ kinds. kinds ≡ kinds_defined numbering.now) }
{
    let bases = bases(alloc, &numbering.types)?;
    kinds_among(
        alloc,
        numbering,
        bases.as_slice(),
        numbering.types.definitions(),
    )
}

fn add_wholes(kinds: &mut KindList) -> Result<(), NoMemory>
    ensures { OnOk result (kinds.new ≡ kinds.old ++ whole_kinds) }
{
    kinds.push(Kind::Whole(Whole::Int))?;
    kinds.push(Kind::Whole(Whole::Int8))?;
    kinds.push(Kind::Whole(Whole::Int16))?;
    kinds.push(Kind::Whole(Whole::Int32))?;
    kinds.push(Kind::Whole(Whole::Int64))?;
    kinds.push(Kind::Whole(Whole::Uint8))?;
    kinds.push(Kind::Whole(Whole::Uint16))?;
    kinds.push(Kind::Whole(Whole::Uint32))?;
    kinds.push(Kind::Whole(Whole::Uint64))?;
    kinds.push(Kind::Whole(Whole::Size))
}

fn plain_values(alloc: Global, names: &[&[u8]]) -> Result<ValueList, NoMemory>
    ensures { IfOk result (λ values. values ≡ map (λ name. value_def name []) (map (λ k. k.now) names.now)) }
{
    let mut values = GrowingList::new(alloc);
    for name in names {
        let name = Text::of(alloc, *name)?;
        let features = GrowingList::new(alloc);
        values.push(ValueDef { name, features })?;
    }
    Ok(values)
}

fn qtype(alloc: Global) -> Result<Kind, NoMemory>
    ensures { IfOk result (λ k. k ≡ qtype_kind) }
{
    let names = qtype_values(alloc)?;
    let values = plain_values(alloc, names.as_slice())?;
    Ok(Kind::Enum(values, GrowingList::new(alloc)))
}

fn add_builtin_kinds(alloc: Global, kinds: &mut KindList) -> Result<(), NoMemory>
    ensures { OnOk result (kinds.new ≡ kinds.old ++ builtin_kinds) }
{
    kinds.push(Kind::Str)?;
    kinds.push(Kind::Number)?;
    add_wholes(kinds)?;
    kinds.push(Kind::Bool)?;
    kinds.push(Kind::Null)?;
    kinds.push(Kind::Any)?;
    kinds.push(qtype(alloc)?)
}

fn plain_object(alloc: Global, members: MemberList) -> Kind
    ensures { result ≡ plain members }
{
    Kind::Object(ObjectDef {
        members,
        tag: None,
        branches: GrowingList::new(alloc),
        features: GrowingList::new(alloc),
    })
}

fn members_at(
    alloc: Global,
    numbering: &Numbering,
    definitions: &[Definition],
    at: u32,
) -> Result<MemberList, NoMemory>
    ensures { IfOk result (λ list. list ≡ member_defs numbering.now (members_told definitions.now at)) }
{
    match definitions.get(at as usize) {
        Some(definition) => members_written(alloc, numbering, definition.members()),
        None => Ok(GrowingList::new(alloc)),
    }
}

fn implicit_kind(
    alloc: Global,
    numbering: &Numbering,
    definitions: &[Definition],
    one: ImplicitType,
) -> Result<Kind, NoMemory>
    ensures { IfOk result (λ k. k ≡ kind_implied numbering.now definitions.now one) }
{
    match one {
        ImplicitType::Array(element) => Ok(Kind::Array(element)),
        ImplicitType::Members(at) => {
            let members = members_at(alloc, numbering, definitions, at)?;
            Ok(plain_object(alloc, members))
        }
        ImplicitType::Empty => Ok(plain_object(alloc, GrowingList::new(alloc))),
    }
}

fn add_implicit_kind(
    alloc: Global,
    numbering: &Numbering,
    definitions: &[Definition],
    place: usize,
    kinds: &mut KindList,
) -> Result<(), NoMemory>
    ensures { OnOk result (kinds.new ++ map (kind_implied numbering.now definitions.now) (drop (place + 1) numbering.now.implicit) ≡
        kinds.old ++ map (kind_implied numbering.now definitions.now) (drop place numbering.now.implicit)) }
{
    match numbering.implicit.at(place) {
        Some(one) => {
            let kind = implicit_kind(alloc, numbering, definitions, one)?;
            kinds.push(kind)?;
            Ok(())
        }
        None => Ok(()),
    }
}

fn add_implicit_kinds(
    alloc: Global,
    numbering: &Numbering,
    definitions: &[Definition],
    kinds: &mut KindList,
) -> Result<(), NoMemory>
    ensures { OnOk result (kinds.new ≡ kinds.old ++ map (kind_implied numbering.now definitions.now) numbering.now.implicit) }
{
    for place in 0..numbering.implicit.len() {
        add_implicit_kind(alloc, numbering, definitions, place, kinds)?;
    }
    Ok(())
}

/// All types by their numbers.
pub fn kinds(
    alloc: Global,
    numbering: &Numbering,
    definitions: &[Definition],
) -> Result<KindList, NoMemory>
    ensures { IfOk result (λ kinds. kinds ≡ kinds_of numbering.now definitions.now) }
{
    let mut kinds = defined_kinds(alloc, numbering)?;
    add_builtin_kinds(alloc, &mut kinds)?;
    add_implicit_kinds(alloc, numbering, definitions, &mut kinds)?;
    Ok(kinds)
}
