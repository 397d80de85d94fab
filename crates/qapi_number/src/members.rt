ghost use Rattle.std.specs.Prelude.{◌≡◌, ◌++◌, IfOk, OnOk, [], unwrap_or, option_copied};
ghost use Rattle.std.specs.List.{flat_map};
ghost use Rattle.qapi_number.specs.Kinds.{member_def as member_told, member_defs, own_members, own_members_at, all_members, bases_of};

use crate::copies::copy_names;
use crate::lines::line;
use crate::numbering::Numbering;
use qapi_define::{Definition, Member};
use qapi_types::{MemberDef, MemberList};
use qm_base::{GrowingList, NoMemory};
use std::alloc::Global;

fn member_def(alloc: Global, numbering: &Numbering, member: &Member) -> Result<MemberDef, NoMemory>
    ensures { IfOk result (λ m. m ≡ member_told numbering.now member.now) }
{
    let name = member.name.copy(alloc)?;
    let type_id = numbering.type_number(&member.of)?;
    let features = copy_names(alloc, member.features.as_slice())?;
    Ok(MemberDef {
        name,
        type_id,
        optional: member.optional,
        features,
    })
}

fn add_members(
    alloc: Global,
    numbering: &Numbering,
    members: &[Member],
    list: &mut MemberList,
) -> Result<(), NoMemory>
    ensures { OnOk result (list.new ≡ list.old ++ member_defs numbering.now members.now) }
{
    for member in members {
        list.push(member_def(alloc, numbering, member)?)?;
    }
    Ok(())
}

/// The members that are written out, by the numbers of their types.
pub fn members_written(
    alloc: Global,
    numbering: &Numbering,
    members: Option<&[Member]>,
) -> Result<MemberList, NoMemory>
    ensures { IfOk result (λ list. list ≡ member_defs numbering.now (unwrap_or (option_copied members.entry) [])) }
{
    let mut list = GrowingList::new(alloc);
    if let Some(members) = members {
        add_members(alloc, numbering, members, &mut list)?;
    }
    Ok(list)
}

fn add_own_members(
    alloc: Global,
    numbering: &Numbering,
    definition: &Definition,
    list: &mut MemberList,
) -> Result<(), NoMemory>
    ensures { OnOk result (list.new ≡ list.old ++ member_defs numbering.now (own_members definition.now)) }
{
    add_members(alloc, numbering, definition.base_members(), list)?;
    match definition.members() {
        Some(members) => add_members(alloc, numbering, members, list),
        None => Ok(()),
    }
}

fn add_members_at(
    alloc: Global,
    numbering: &Numbering,
    number: u32,
    list: &mut MemberList,
) -> Result<(), NoMemory>
    ensures { OnOk result (list.new ≡ list.old ++ member_defs numbering.now (own_members_at numbering.now.types number)) }
{
    match numbering.types.definition(number) {
        Some(definition) => add_own_members(alloc, numbering, definition, list),
        None => Ok(()),
    }
}

fn members_along(alloc: Global, numbering: &Numbering, line: &[u32]) -> Result<MemberList, NoMemory>
    ensures { IfOk result (λ list. list ≡ member_defs numbering.now (flat_map (own_members_at numbering.now.types) line.now)) }
{
    let mut list = GrowingList::new(alloc);
    for number in line {
        add_members_at(alloc, numbering, *number, &mut list)?;
    }
    Ok(list)
}

/// The members of the type of the number, those of its bases first.
pub fn members_of_type(
    alloc: Global,
    numbering: &Numbering,
    bases: &[Option<u32>],
    number: u32,
) -> Result<MemberList, NoMemory>
    requires { bases.now ≡ bases_of numbering.now.types }
    ensures { IfOk result (λ list. list ≡ member_defs numbering.now (all_members numbering.now.types number)) }
{
    let line = line(alloc, bases, number)?;
    members_along(alloc, numbering, line.as_slice())
}
