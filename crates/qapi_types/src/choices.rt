ghost use Rattle.std.specs.Prelude.{◌≡◌, ◌<◌, ◌↔◌, map, length, IfOk, IsTrue};
ghost use Rattle.qapi_types.specs.Chains.{IsInside};
ghost use Rattle.qapi_types.specs.Goodness.{choices_of};
ghost use Rattle.qapi_types.specs.Sets.{has_member_in, MeetsMarked, ClashesMarked, HasFaults, HasGoodChoices};
ghost use Rattle.qapi_types.specs.Types.{branch_types};

use crate::graph::{branch_graph, reached, references_of};
use crate::kind::{Kind, TypeList};
use crate::lookups::kind_at;
use crate::names::{NameSet, distinct_names, names_of_members};
use qm_base::NoMemory;
use std::alloc::Global;

/// What is wrong with a type by what its branches lead to.
#[derive(Clone, Copy, Debug, PartialEq, Eq)]
pub struct TypeFaults {
    /// It is on a cycle of branches.
    pub on_cycle: bool,
    /// One of its own members' names stands twice, or in a type that its branches lead to.
    pub clashes: bool,
}

/// Whether a member of the type has a name of the set.
fn meets(set: &NameSet, kind: &Kind) -> bool
    ensures { result ≡ has_member_in set.now kind.now }
{
    kind.members()
        .iter()
        .any(|member| set.has(member.name.as_slice()))
}

/// Whether a member of some marked type has a name of the set.
fn meets_marked(set: &NameSet, kinds: &[Kind], marks: &[bool]) -> bool
    requires { length marks.now ≡ length kinds.now }
    ensures { IsTrue result ↔ MeetsMarked set.now kinds.now marks.now }
{
    for number in 0..kinds.len() {
        if marks[number] && meets(set, &kinds[number]) {
            return true;
        }
    }
    false
}

/// The same; or there is no set.
fn clashes_marked(set: &Option<NameSet>, kinds: &[Kind], marks: &[bool]) -> bool
    requires { length marks.now ≡ length kinds.now }
    ensures { IsTrue result ↔ ClashesMarked set.now kinds.now marks.now }
{
    match set {
        None => true,
        Some(set) => meets_marked(set, kinds, marks),
    }
}

/// What is wrong with a type, where `graph` has the types of each type's branches.
pub fn faults_of(
    alloc: Global,
    kinds: &[Kind],
    graph: &[TypeList],
    number: usize,
) -> Result<TypeFaults, NoMemory>
    requires graph { graph.now ≡ map branch_types kinds.now }
    requires inside { IsInside (map branch_types kinds.now) }
    requires within { number < length kinds.now }
    ensures { IfOk result (λ faults. HasFaults (choices_of kinds.now) number faults) }
{
    let names = names_of_members(alloc, kind_at(kinds, number))?;
    let set = distinct_names(alloc, names.as_slice())?;
    if references_of(graph, number).is_empty() {
        return Ok(TypeFaults {
            on_cycle: false,
            clashes: set.is_none(),
        });
    }
    let marks = reached(alloc, graph, number)?;
    Ok(TypeFaults {
        on_cycle: marks[number],
        clashes: clashes_marked(&set, kinds, &marks),
    })
}

/// Whether no type is on a cycle of branches, and no name stands twice along any choice of them.
pub fn choices_are_good(alloc: Global, kinds: &[Kind]) -> Result<bool, NoMemory>
    requires { IsInside (map branch_types kinds.now) }
    ensures { IfOk result (λ yes. IsTrue yes ↔ HasGoodChoices kinds.now) }
{
    let graph = branch_graph(alloc, kinds)?;
    for number in 0..kinds.len() {
        let faults = faults_of(alloc, kinds, &graph, number)?;
        if faults.on_cycle || faults.clashes {
            return Ok(false);
        }
    }
    Ok(true)
}
