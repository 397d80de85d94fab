ghost use Rattle.std.specs.Prelude.{◌≡◌, ◌<◌, ◌++◌, ◌^◌, map, length, IfOk, OnOk};
ghost use Rattle.qapi_types.specs.Chains.{IsInside, NoneOnCycle};
ghost use Rattle.qapi_types.specs.Goodness.{TakesBelow};
ghost use Rattle.qapi_types.specs.Types.{branch_types};
ghost use Rattle.qm_bind.specs.Walks.{AreAlong, Takes, marked_from, where_marked};

use qapi_types::{ArgType, Kind, TypeList, reached};
use qm_base::NoMemory;
use std::alloc::Global;

/// What a command takes.
#[derive(Drop)]
pub enum Arguments {
    /// Each object.
    Any,
    /// Members of the types of these numbers.
    Of(TypeList),
}

/// Appends a number, where it is marked.
fn add_marked(types: &mut TypeList, number: u32, mark: bool) -> Result<(), NoMemory>
    ensures { OnOk result (types.new ≡ types.old ++ where_marked number mark) }
{
    if mark { types.push(number) } else { Ok(()) }
}

/// The types, and after them those that are marked.
fn with_marked(mut types: TypeList, marks: &[bool]) -> Result<TypeList, NoMemory>
    requires { length marks.now < 2 ^ 32 }
    ensures { IfOk result (λ all. all ≡ types ++ marked_from 0 marks.now) }
{
    for number in 0..marks.len() {
        add_marked(&mut types, number as u32, marks[number])?;
    }
    Ok(types)
}

/// The type of the number, and those that its branches lead to.
fn types_along(alloc: Global, graph: &[TypeList], type_id: u32) -> Result<TypeList, NoMemory>
    requires inside { IsInside graph.now }
    requires within { type_id < length graph.now }
    requires few { length graph.now < 2 ^ 32 }
    ensures { IfOk result (λ types. AreAlong graph.now type_id types) }
{
    let mut types = TypeList::new(alloc);
    types.push(type_id)?;
    let marks = reached(alloc, graph, type_id as usize)?;
    with_marked(types, &marks)
}

/// What a command takes, where `graph` has the types of each type's branches.
pub fn arguments_of(
    alloc: Global,
    kinds: &[Kind],
    graph: &[TypeList],
    arg: ArgType,
) -> Result<Arguments, NoMemory>
    requires graph { graph.now ≡ map branch_types kinds.now }
    requires inside { IsInside (map branch_types kinds.now) }
    requires free { NoneOnCycle (map branch_types kinds.now) (length kinds.now) }
    requires below { TakesBelow (length kinds.now) arg }
    requires few { length kinds.now < 2 ^ 32 }
    ensures { IfOk result (Takes kinds.now arg) }
{
    match arg {
        ArgType::Typed(type_id) => Ok(Arguments::Of(types_along(alloc, graph, type_id)?)),
        ArgType::AnyObject => Ok(Arguments::Any),
    }
}
