ghost use Rattle.std.specs.Prelude.{◌≡◌, ◌++◌, [], ◌∷◌, cond, IfOk, OnOk};
ghost use Rattle.std.specs.List.{fold, flat_map, enumerate_from};
ghost use Rattle.qapi_number.specs.Implicit.{with_implicit, implied, implied_by_members, implied_by_variants, implied_by_part, implied_by, written, lacks_data as data_lacking, has_data as data_there};
ghost use Rattle.qapi_number.specs.declared.implicit.ImplicitType.TheVariants as one;

use crate::counting::narrow;
use crate::implicit::{ImplicitIndex, ImplicitType};
use crate::types::TypeTable;
use qapi_define::{Definition, Member, Part, Sort, TypeName, Variant};
use qm_base::NoMemory;
use std::alloc::Global;

fn note_type(types: &TypeTable, implicit: &mut ImplicitIndex, of: &TypeName) -> Result<(), NoMemory>
    ensures { OnOk result (implicit.new ≡ fold with_implicit implicit.old (implied types.now of.now)) }
{
    if !of.is_array {
        return Ok(());
    }
    let element = types.number(of.name.as_slice())?;
    implicit.add(ImplicitType::Array(element))
}

fn note_members(
    types: &TypeTable,
    implicit: &mut ImplicitIndex,
    members: &[Member],
) -> Result<(), NoMemory>
    ensures { OnOk result (implicit.new ≡ fold with_implicit implicit.old (implied_by_members types.now members.now)) }
{
    for member in members {
        note_type(types, implicit, &member.of)?;
    }
    Ok(())
}

fn note_variants(
    types: &TypeTable,
    implicit: &mut ImplicitIndex,
    variants: &[Variant],
) -> Result<(), NoMemory>
    ensures { OnOk result (implicit.new ≡ fold with_implicit implicit.old (implied_by_variants types.now variants.now)) }
{
    for variant in variants {
        note_type(types, implicit, &variant.of)?;
    }
    Ok(())
}

fn note_written(implicit: &mut ImplicitIndex, sort: Sort, at: u32) -> Result<(), NoMemory>
    ensures { OnOk result (implicit.new ≡ fold with_implicit implicit.old (written sort at)) }
{
    match sort {
        Sort::Command | Sort::Event => implicit.add(ImplicitType::Members(at)),
        _ => Ok(()),
    }
}

fn note_written_members(
    types: &TypeTable,
    implicit: &mut ImplicitIndex,
    sort: Sort,
    at: u32,
    members: &[Member],
) -> Result<(), NoMemory>
    ensures { OnOk result (implicit.new ≡ fold with_implicit implicit.old (written sort at ++ implied_by_members types.now members.now)) }
{
    note_written(implicit, sort, at)?;
    note_members(types, implicit, members)
}

fn note_part(
    types: &TypeTable,
    implicit: &mut ImplicitIndex,
    sort: Sort,
    at: u32,
    part: &Part,
) -> Result<(), NoMemory>
    ensures { OnOk result (implicit.new ≡ fold with_implicit implicit.old (implied_by_part types.now sort at part.now)) }
{
    match part {
        Part::BaseMembers(members) => note_members(types, implicit, members.as_slice()),
        Part::Members(members) => {
            note_written_members(types, implicit, sort, at, members.as_slice())
        }
        Part::Variants(variants) => note_variants(types, implicit, variants.as_slice()),
        Part::Returns(of) => note_type(types, implicit, of),
        _ => Ok(()),
    }
}

fn note_parts(
    types: &TypeTable,
    implicit: &mut ImplicitIndex,
    sort: Sort,
    at: u32,
    parts: &[Part],
) -> Result<(), NoMemory>
    ensures { OnOk result (implicit.new ≡ fold with_implicit implicit.old (flat_map (implied_by_part types.now sort at) parts.now)) }
{
    for part in parts {
        note_part(types, implicit, sort, at, part)?;
    }
    Ok(())
}

fn has_data(definition: &Definition) -> bool
    ensures { result ≡ data_there definition.now }
{
    definition.members().is_some() || definition.data().is_some()
}

fn lacks_data(definition: &Definition) -> bool
    ensures { result ≡ data_lacking definition.now.sort definition.now }
{
    match definition.sort {
        Sort::Command => !has_data(definition) || !definition.returns().is_some(),
        Sort::Event => !has_data(definition),
        _ => false,
    }
}

fn note_empty(implicit: &mut ImplicitIndex, definition: &Definition) -> Result<(), NoMemory>
    ensures { OnOk result (implicit.new ≡ fold with_implicit implicit.old (cond (data_lacking definition.now.sort definition.now) (one.Empty ∷ []) [])) }
{
    if lacks_data(definition) {
        implicit.add(ImplicitType::Empty)
    } else {
        Ok(())
    }
}

fn note_definition(
    types: &TypeTable,
    implicit: &mut ImplicitIndex,
    at: usize,
    definition: &Definition,
) -> Result<(), NoMemory>
    ensures { OnOk result (implicit.new ≡ fold with_implicit implicit.old (implied_by types.now (at, definition.now))) }
{
    let position = narrow(at)?;
    let parts = definition.parts.as_slice();
    note_parts(types, implicit, definition.sort, position, parts)?;
    note_empty(implicit, definition)
}

/// The types without names that the definitions need, each once, in the order of the first need.
pub fn implicit_types(
    alloc: Global,
    types: &TypeTable,
    definitions: &[Definition],
) -> Result<ImplicitIndex, NoMemory>
    ensures { IfOk result (λ implicit. implicit ≡ fold with_implicit [] (flat_map (implied_by types.now) (enumerate_from 0 definitions.now))) }
{
    let mut implicit = ImplicitIndex::new(alloc);
    for (at, definition) in definitions.iter().enumerate() {
        note_definition(types, &mut implicit, at, definition)?;
    }
    Ok(implicit)
}
