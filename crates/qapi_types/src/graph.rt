ghost use Rattle.std.specs.Prelude.{◌≡◌, ◌<◌, [], ◌∷◌, length, map, IfOk, OnOk, replicate, false};
ghost use Rattle.std.specs.List.{All};
ghost use Rattle.qapi_types.specs.Chains.{IsInside, Spreads, spread_of, row_of, IsReachedFrom};
ghost use Rattle.qapi_types.specs.Types.{branch_types};

use crate::kind::{Kind, TypeList};
use qm_base::NoMemory;
use std::alloc::Global;

/// Marks a number, and notes it where it was not marked.
fn mark(marks: &mut Vec<bool>, pending: &mut Vec<u32>, number: u32) -> Result<(), NoMemory>
    requires { number < length marks.old.items }
    ensures { OnOk result (Spreads (spread_of marks.old.items pending.old.items) (number ∷ [])
        (spread_of marks.new.items pending.new.items)) }
{
    if !marks[number as usize] {
        pending.push(number)?;
        marks[number as usize] = true;
    }
    Ok(())
}

/// Marks numbers, and notes those that were not marked.
fn mark_each(marks: &mut Vec<bool>, pending: &mut Vec<u32>, numbers: &[u32]) -> Result<(), NoMemory>
    requires { All (λ b. b < length marks.old.items) numbers.now }
    ensures { OnOk result (Spreads (spread_of marks.old.items pending.old.items) numbers.now
        (spread_of marks.new.items pending.new.items)) }
{
    for number in numbers {
        mark(marks, pending, *number)?;
    }
    Ok(())
}

/// No marks.
fn no_marks(alloc: Global, length: usize) -> Result<Vec<bool>, NoMemory>
    ensures { IfOk result (λ marks. marks.items ≡ replicate length false) }
{
    let marks = vec![in alloc; false; length]?;
    Ok(marks)
}

/// What a thing refers to.
pub fn references_of(graph: &[TypeList], number: usize) -> &[u32]
    requires { number < length graph.now }
    ensures { result.now ≡ row_of graph.now number }
{
    graph[number].as_slice()
}

/// Which things a thing leads to, by one reference or more.
pub fn reached(alloc: Global, graph: &[TypeList], from: usize) -> Result<Vec<bool>, NoMemory>
    requires inside { IsInside graph.now }
    requires within { from < length graph.now }
    ensures { IfOk result (λ marks. IsReachedFrom graph.now from marks.items) }
{
    let mut marks = no_marks(alloc, graph.len())?;
    let mut pending = Vec::new(alloc);
    mark_each(&mut marks, &mut pending, references_of(graph, from))?;
    for turn in 0..graph.len() {
        let Some(number) = pending.pop() else {
            return Ok(marks);
        };
        mark_each(
            &mut marks,
            &mut pending,
            references_of(graph, number as usize),
        )?;
    }
    Ok(marks)
}

/// The types of the branches of a type.
fn row(alloc: Global, kind: &Kind) -> Result<TypeList, NoMemory>
    ensures { IfOk result (λ row. row ≡ branch_types kind.now) }
{
    let mut row = TypeList::new(alloc);
    for branch in kind.branches() {
        row.push(branch.type_id)?;
    }
    Ok(row)
}

/// The types of the branches of each type.
pub fn branch_graph(alloc: Global, kinds: &[Kind]) -> Result<Vec<TypeList>, NoMemory>
    ensures { IfOk result (λ graph. graph.items ≡ map branch_types kinds.now) }
{
    let mut graph = Vec::new(alloc);
    for kind in kinds {
        let row = row(alloc, kind)?;
        graph.push(row)?;
    }
    Ok(graph)
}
