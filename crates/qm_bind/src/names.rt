ghost use Rattle.std.specs.Prelude.{◌≡◌, IfOk, map, option_map};
ghost use Rattle.qapi_types.specs.Choices.{again};
ghost use Rattle.qapi_types.specs.Sets.{HasNames};
ghost use Rattle.qm_bind.specs.Faults.{member_names};
ghost use Rattle.qm_bind.specs.Parts.{names_of};

use crate::values::text_of;
use qapi_types::NameSet;
use qm_base::NoMemory;
use qm_json::{Json, Member};
use std::alloc::Global;

/// The names of members.
pub fn names_of_members<'a>(alloc: Global, members: &'a [Member]) -> Result<NameSet<'a>, NoMemory>
    ensures { IfOk result (λ set. HasNames set (member_names members.now)) }
{
    let mut set = NameSet::new(alloc);
    for member in members {
        let _is_new = set.add(member.name.as_slice())?;
    }
    Ok(set)
}

/// The texts of a list.
pub fn names_of_texts<'a>(alloc: Global, items: &'a [Json]) -> Result<NameSet<'a>, NoMemory>
    ensures { IfOk result (λ set. HasNames set (names_of items.now)) }
{
    let mut set = NameSet::new(alloc);
    for item in items {
        if let Some(name) = text_of(item) {
            let _is_new = set.add(name)?;
        }
    }
    Ok(set)
}

/// The first text of a list that stands in it before, or is the name of a member.
pub fn first_twice<'a>(
    alloc: Global,
    members: &'a [Member],
    items: &'a [Json],
) -> Result<Option<&'a [u8]>, NoMemory>
    ensures { IfOk result (λ found. option_map (λ name. name.now) found ≡ again (member_names members.now) (names_of items.now)) }
{
    let mut seen = names_of_members(alloc, members)?;
    for item in items {
        if let Some(name) = text_of(item) {
            if !seen.add(name)? {
                return Ok(Some(name));
            }
        }
    }
    Ok(None)
}
