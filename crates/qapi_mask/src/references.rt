//! What the entry of a type refers to.
ghost use Rattle.std.specs.Prelude.{◌≡◌, ◌<◌, ◌++◌, IfOk, map};
ghost use Rattle.qapi_types.specs.Types.{members_of};
ghost use Rattle.std.specs.List.{All};
ghost use Rattle.qapi_types.specs.Goodness.{HasPositions};
ghost use Rattle.qm_admit.specs.Tags.{tag_of};
ghost use Rattle.qapi_mask.specs.Entries.{refs_of, refs_of_tag};
ghost use Rattle.qapi_mask.specs.Tables.{Tells, type_at};

use qapi_types::lookups::tag_values;
use qapi_types::{Branch, Kind, MemberDef};
use qm_base::NoMemory;
use std::alloc::Global;

/// For each of so many values of a tag's enum the type of its branch, or else the empty type.
fn branch_types(
    alloc: Global,
    branches: &[Branch],
    count: usize,
    empty: u32,
) -> Result<Vec<u32>, NoMemory>
    requires { All (λ b. b.value < count) branches.now }
    ensures { IfOk result (λ types. Tells (type_at branches.now empty) count types.items) }
{
    let mut types = vec![in alloc; empty; count]?;
    let mut left = branches.len();
    while left > 0 {
        left -= 1;
        types[branches[left].value as usize] = branches[left].type_id;
    }
    Ok(types)
}

/// The type that each value of a union's tag brings; none of any other type.
pub fn variant_types(
    alloc: Global,
    kinds: &[Kind],
    kind: &Kind,
    empty: u32,
) -> Result<Vec<u32>, NoMemory>
    requires { HasPositions kinds.now kind.now }
    ensures { IfOk result (λ types. types.items ≡ refs_of_tag empty (tag_of kinds.now kind.now)) }
{
    let count = tag_values(kinds, kind).len();
    branch_types(alloc, kind.branches(), count, empty)
}

fn member_types(alloc: Global, members: &[MemberDef]) -> Result<Vec<u32>, NoMemory>
    ensures { IfOk result (λ types. types.items ≡ map (λ m. m.type_id) members.now) }
{
    let mut types = Vec::new(alloc);
    for member in members {
        types.push(member.type_id)?;
    }
    Ok(types)
}

fn object_references(
    alloc: Global,
    kinds: &[Kind],
    kind: &Kind,
    empty: u32,
) -> Result<Vec<u32>, NoMemory>
    requires { HasPositions kinds.now kind.now }
    ensures { IfOk result (λ types. types.items ≡ map (λ m. m.type_id) (members_of kind.now) ++ refs_of_tag empty (tag_of kinds.now kind.now)) }
{
    let mut types = member_types(alloc, kind.members())?;
    let variants = variant_types(alloc, kinds, kind, empty)?;
    types.extend_from_slice(variants.as_slice())?;
    Ok(types)
}

/// The types that an entry refers to, in its printed order.
pub fn references(
    alloc: Global,
    kinds: &[Kind],
    kind: &Kind,
    empty: u32,
) -> Result<Vec<u32>, NoMemory>
    requires { HasPositions kinds.now kind.now }
    ensures { IfOk result (λ types. types.items ≡ refs_of kinds.now empty kind.now) }
{
    match kind {
        Kind::Array(element) => Ok(Vec::from_slice(alloc, &[*element])?),
        Kind::Object(_) => object_references(alloc, kinds, kind, empty),
        Kind::Alternate(types, _) => Ok(Vec::from_slice(alloc, types.as_slice())?),
        _ => Ok(Vec::new(alloc)),
    }
}
