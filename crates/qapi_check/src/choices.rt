ghost use Rattle.std.specs.Prelude.{◌≡◌, ◌<◌, ◌↔◌, map, length, IfOk, IsTrue};
ghost use Rattle.std.specs.List.{All};
ghost use Rattle.std.specs.Option.{option_copied};
ghost use Rattle.qapi_types.specs.Chains.{IsInside, NoneOnCycle, marked};
ghost use Rattle.qapi_types.specs.Goodness.{choices_of};
ghost use Rattle.qapi_types.specs.Sets.{has_member_in};
ghost use Rattle.qapi_types.specs.Types.{branch_types, kind_of, member_names};
ghost use Rattle.qapi_check.specs.Clashes.{clash_of};
ghost use Rattle.qapi_check.specs.Walking.{AddsNames, IsFirstTouching, MarkFaulty, Touches, TouchesFrom, TouchesMarked};

use qapi_types::lookups::kind_at;
use qapi_types::{Kind, NameSet, TypeList, branch_graph, faults_of, reached, references_of};
use qm_base::NoMemory;
use std::alloc::Global;
use std::marker::Model;

/// Types whose branches lead to no cycle, with what finds the names that stand twice along them.
#[derive(Drop)]
pub struct Choices<'a> {
    kinds: &'a [Kind],
    graph: Vec<TypeList>,
    faulty: Vec<bool>,
}

impl<'a> Model for Choices<'a> {
    ghost use Rattle.std.specs.Prelude.{List};
    ghost use Rattle.qapi_types.specs.declared.kind.Kind.{Kind};
    ghost use Rattle.qapi_check.specs.Walking.{AreMarked};

    ghost Value = { List Kind };

    ghost view = { λ s. s.kinds.now };

    ghost invariant = { λ s. AreMarked s.kinds.now s.graph.items s.faulty.items };
}

/// Which types have a fault of their own.
fn faulty_types(alloc: Global, kinds: &[Kind], graph: &[TypeList]) -> Result<Vec<bool>, NoMemory>
    requires graph { graph.now ≡ map branch_types kinds.now }
    requires inside { IsInside (map branch_types kinds.now) }
    ensures { IfOk result (λ marks. MarkFaulty (choices_of kinds.now) (length kinds.now) marks.items) }
{
    let mut marks = Vec::new(alloc);
    for number in 0..kinds.len() {
        let faults = faults_of(alloc, kinds, graph, number)?;
        marks.push(faults.clashes)?;
    }
    Ok(marks)
}

/// Adds the names of a type's members, up to the first that is there already.
fn add_names<'a>(seen: &mut NameSet<'a>, kind: &'a Kind) -> Result<Option<&'a [u8]>, NoMemory>
    ensures { IfOk result (λ first. AddsNames seen.old (member_names kind.now) (option_copied first) seen.new) }
{
    for member in kind.members() {
        let name = member.name.as_slice();
        if !seen.add(name)? {
            return Ok(Some(name));
        }
    }
    Ok(None)
}

/// Whether a type is marked.
fn is_marked(marks: &[bool], number: usize) -> bool
    requires { number < length marks.now }
    ensures { result ≡ marked marks.now number }
{
    marks[number]
}

/// Whether a member of the type has a name of the set.
fn meets(set: &NameSet, kind: &Kind) -> bool
    ensures { result ≡ has_member_in set.now kind.now }
{
    kind.members()
        .iter()
        .any(|member| set.has(member.name.as_slice()))
}

impl<'a> Choices<'a> {
    /// What finds the names that stand twice along the branches of types.
    pub fn of(alloc: Global, kinds: &'a [Kind]) -> Result<Choices<'a>, NoMemory>
        requires inside { IsInside (map branch_types kinds.now) }
        requires free { NoneOnCycle (map branch_types kinds.now) (length kinds.now) }
        ensures { IfOk result (λ choices. choices ≡ kinds.now) }
    {
        let graph = branch_graph(alloc, kinds)?;
        let faulty = faulty_types(alloc, kinds, &graph)?;
        Ok(Choices {
            kinds,
            graph,
            faulty,
        })
    }

    /// Whether the type has a fault of its own, or a name of the set.
    fn touches(&self, seen: &NameSet, number: usize) -> bool
        requires { number < length self.now }
        ensures { IsTrue result ↔ Touches (choices_of self.now) seen.now number }
    {
        if is_marked(&self.faulty, number) {
            return true;
        }
        meets(seen, kind_at(self.kinds, number))
    }

    /// The same for some marked type.
    fn touches_marked(&self, seen: &NameSet, marks: &[bool]) -> bool
        requires { length marks.now ≡ length self.now }
        ensures { IsTrue result ↔ TouchesMarked (choices_of self.now) seen.now marks.now }
    {
        for number in 0..marks.len() {
            if marks[number] && self.touches(seen, number) {
                return true;
            }
        }
        false
    }

    /// The same for the type or one that it leads to.
    fn touches_from(&self, alloc: Global, seen: &NameSet, number: usize) -> Result<bool, NoMemory>
        requires { number < length self.now }
        ensures { IfOk result (λ yes. IsTrue yes ↔ TouchesFrom (choices_of self.now) seen.now number) }
    {
        if self.touches(seen, number) {
            return Ok(true);
        }
        let marks = reached(alloc, &self.graph, number)?;
        Ok(self.touches_marked(seen, &marks))
    }

    /// The first of some types of which that holds.
    fn first_touching(
        &self,
        alloc: Global,
        seen: &NameSet,
        types: &[u32],
    ) -> Result<Option<u32>, NoMemory>
        requires { All (λ b. b < length self.now) types.now }
        ensures { IfOk result (λ first. IsFirstTouching (choices_of self.now) seen.now types.now first) }
    {
        for number in types {
            if self.touches_from(alloc, seen, *number as usize)? {
                return Ok(Some(*number));
            }
        }
        Ok(None)
    }

    /// The first name that stands a second time from a type on: among its own names, those of its
    /// bases first, and then in its branches in order, each with all that it brings (QAPI code
    /// generation guide, "Union types").
    pub fn clash(&self, alloc: Global, from: usize) -> Result<Option<&'a [u8]>, NoMemory>
        ensures { IfOk result (λ name. option_copied name ≡ clash_of (choices_of self.now) from) }
    {
        if from >= self.kinds.len() {
            return Ok(None);
        }
        let mut seen = NameSet::new(alloc);
        if !self.touches_from(alloc, &seen, from)? {
            return Ok(None);
        }
        let mut number = from;
        for turn in 0..self.kinds.len() {
            if let Some(name) = add_names(&mut seen, kind_at(self.kinds, number))? {
                return Ok(Some(name));
            }
            let types = references_of(&self.graph, number);
            match self.first_touching(alloc, &seen, types)? {
                Some(next) => number = next as usize,
                None => unreachable!(),
            }
        }
        unreachable!()
    }
}
