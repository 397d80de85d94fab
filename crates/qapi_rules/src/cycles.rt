ghost use Rattle.std.specs.Prelude.{◌≡◌, ◌<◌, ◌+◌, ◌^◌, ◌++◌, ◌∷◌, [], ℕ, List, None, length, map, IfOk, OnOk, IsTrue, ◌↔◌, Decides};
ghost use Rattle.std.specs.Option.{option_map, option_to_list, IfNone};
ghost use Rattle.qapi_define.specs.Saying.{base_of};
ghost use Rattle.qapi_types.specs.Chains.{IsInside, Leads, NoneOnCycle};
ghost use Rattle.qapi_rules.specs.Blames.{told, over};
ghost use Rattle.qapi_rules.specs.Cycles;
ghost use Rattle.qapi_rules.specs.References.{judged};

use crate::fault::{Blame, CheckRule};
use crate::references::blame;
use crate::table::DefinitionTable;
use qapi_define::{Definition, Sort, Variant};
use qapi_types::{TypeList, reached};
use qm_base::NoMemory;
use std::alloc::Global;

fn push_place(row: &mut TypeList, place: usize) -> Result<(), NoMemory>
    ensures { OnOk result (row.new ≡ row.old ++ place ∷ []) }
{
    match u32::try_from(place) {
        Ok(place) => row.push(place),
        Err(_) => Err(NoMemory),
    }
}

/// Appends the place of the definition of a name, if there is one.
fn add_place(row: &mut TypeList, table: &DefinitionTable, name: &[u8]) -> Result<(), NoMemory>
    ensures { OnOk result (row.new ≡ row.old ++ Cycles.places_of table.now (name.now ∷ [])) }
{
    match table.place(name) {
        Some(place) => push_place(row, place),
        None => Ok(()),
    }
}

fn add_base(
    row: &mut TypeList,
    table: &DefinitionTable,
    definition: &Definition,
) -> Result<(), NoMemory>
    ensures { OnOk result (row.new ≡
        row.old ++ Cycles.places_of table.now (option_to_list (base_of definition.now))) }
{
    match definition.base() {
        Some(name) => add_place(row, table, name.as_slice()),
        None => Ok(()),
    }
}

fn add_type(row: &mut TypeList, table: &DefinitionTable, variant: &Variant) -> Result<(), NoMemory>
    ensures { OnOk result (row.new ≡
        row.old ++ Cycles.places_of table.now (variant.now.of.name ∷ [])) }
{
    add_place(row, table, variant.of.name.as_slice())
}

fn add_types(
    row: &mut TypeList,
    table: &DefinitionTable,
    variants: &[Variant],
) -> Result<(), NoMemory>
    ensures { OnOk result (row.new ≡
        row.old ++ Cycles.places_of table.now (map (λ v. v.of.name) variants.now)) }
{
    for variant in variants {
        add_type(row, table, variant)?;
    }
    Ok(())
}

fn branches(definition: &Definition) -> &[Variant]
    ensures { result.now ≡ Cycles.branches_of definition.now }
{
    if matches!(definition.sort, Sort::Union) {
        definition.variants()
    } else {
        &[]
    }
}

/// The places of the base and of the types of the branches.
#[tactic(auto, using(crate::proofs::CycleLaws::joined))]
fn references_of(
    alloc: Global,
    table: &DefinitionTable,
    definition: &Definition,
) -> Result<TypeList, NoMemory>
    ensures { IfOk result (λ row. row ≡ Cycles.references_of table.now definition.now) }
{
    let mut row = TypeList::new(alloc);
    add_base(&mut row, table, definition)?;
    add_types(&mut row, table, branches(definition))?;
    Ok(row)
}

fn references_of_each(
    alloc: Global,
    table: &DefinitionTable,
    definitions: &[Definition],
) -> Result<Vec<TypeList>, NoMemory>
    ensures { IfOk result (λ graph.
        graph.items ≡ map (Cycles.references_of table.now) definitions.now) }
{
    let mut graph = Vec::new(alloc);
    for definition in definitions {
        let row = references_of(alloc, table, definition)?;
        graph.push(row)?;
    }
    Ok(graph)
}

/// The places of the base and of the types of the branches of each definition.
pub fn reference_graph(alloc: Global, table: &DefinitionTable) -> Result<Vec<TypeList>, NoMemory>
    ensures { IfOk result (λ graph. graph.items ≡ Cycles.reference_graph table.now) }
{
    references_of_each(alloc, table, table.definitions())
}

/// Whether a thing leads to itself.
fn leads_back(alloc: Global, graph: &[TypeList], place: usize) -> Result<bool, NoMemory>
    requires inside { IsInside graph.now }
    requires within { place < length graph.now }
    ensures { IfOk result (λ yes. IsTrue yes ↔ Leads graph.now place place) }
{
    let marks = reached(alloc, graph, place)?;
    Ok(marks[place])
}

/// Whether a thing is on a cycle.
pub fn is_on_cycle(alloc: Global, graph: &[TypeList], place: usize) -> Result<bool, NoMemory>
    requires inside { IsInside graph.now }
    requires within { place < length graph.now }
    ensures { IfOk result (λ yes. yes ≡ Cycles.is_on_cycle graph.now place) }
{
    leads_back(alloc, graph, place)
}

/// A thing is on a cycle exactly where a chain of references leads from it to itself.
pub fn on_a_cycle_is_a_chain_that_comes_back()
    ensures { (graph : List (List ℕ)) (a : ℕ) → Decides (Cycles.is_on_cycle graph a) (Leads graph a a) }
{}

fn cycle_fault<'a>(
    alloc: Global,
    graph: &[TypeList],
    place: usize,
    definition: &'a Definition,
) -> Result<Option<Blame<'a>>, NoMemory>
    requires inside { IsInside graph.now }
    requires within { place < length graph.now }
    ensures { IfOk result (λ found. option_map told found ≡
        judged CheckRule.BaseCycle definition.now (Cycles.base_cycle graph.now place definition.now)) }
{
    if is_on_cycle(alloc, graph, place)? {
        let name = definition.name.as_slice();
        return Ok(Some(blame(CheckRule::BaseCycle, definition, name)));
    }
    Ok(None)
}

fn first_on_cycle<'a>(
    alloc: Global,
    graph: &[TypeList],
    definitions: &'a [Definition],
) -> Result<Option<Blame<'a>>, NoMemory>
    requires inside { IsInside graph.now }
    requires long { length graph.now ≡ length definitions.now }
    ensures { IfOk result (λ found. option_map told found ≡
        over (Cycles.cycle_fault graph.now) [] definitions.now) }
{
    for (place, definition) in definitions.iter().enumerate() {
        if let Some(blame) = cycle_fault(alloc, graph, place, definition)? {
            return Ok(Some(blame));
        }
    }
    Ok(None)
}

#[tactic(auto, using(crate::proofs::CycleLaws::cycle_found))]
fn cycle_in<'a>(alloc: Global, table: &DefinitionTable<'a>) -> Result<Option<Blame<'a>>, NoMemory>
    ensures { IfOk result (λ found. option_map told found ≡ Cycles.cycles_pass table.now) }
{
    let graph = reference_graph(alloc, table)?;
    let found = first_on_cycle(alloc, &graph, table.definitions())?;
    Ok(found)
}

/// The first definition on a cycle of bases and branches (QAPI code generation guide, "Struct
/// types", "Union types").
pub fn cycles_pass<'a>(
    alloc: Global,
    table: &DefinitionTable<'a>,
) -> Result<Option<Blame<'a>>, NoMemory>
    ensures first { IfOk result (λ found. option_map told found ≡ Cycles.cycles_pass table.now) }
    ensures none { IfOk result (λ found. IfNone found
        (NoneOnCycle (Cycles.reference_graph table.now) (length table.now))) }
{
    match cycle_in(alloc, table)? {
        Some(blame) => Ok(Some(blame)),
        None => Ok(None),
    }
}
