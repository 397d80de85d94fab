ghost use Rattle.std.specs.Prelude.{◌≡◌, IfOk, Some, map, length, reverse};
ghost use Rattle.qapi_number.specs.Kinds.{base_number as number_of_base, bases_of, base_at as base_of_type, line_from};

use crate::counting::narrow;
use crate::types::TypeTable;
use qapi_define::Definition;
use qm_base::{GrowingList, NoMemory};
use std::alloc::Global;

/// The place in 32 bits; want of memory where it does not fit.
pub fn narrow_place(place: Option<usize>) -> Result<Option<u32>, NoMemory>
    ensures { IfOk result (λ p. p ≡ place) }
{
    match place {
        Some(place) => Ok(Some(narrow(place)?)),
        None => Ok(None),
    }
}

fn base_number(types: &TypeTable, definition: &Definition) -> Result<Option<u32>, NoMemory>
    ensures { IfOk result (λ base. base ≡ number_of_base types.now definition.now) }
{
    match definition.base() {
        Some(name) => narrow_place(types.place(name.as_slice())),
        None => Ok(None),
    }
}

fn bases_among(
    alloc: Global,
    types: &TypeTable,
    definitions: &[&Definition],
) -> Result<GrowingList<Option<u32>>, NoMemory>
    ensures { IfOk result (λ bases. bases ≡ map (number_of_base types.now) (map (λ k. k.now) definitions.now)) }
{
    let mut bases = GrowingList::new(alloc);
    for definition in definitions {
        let base = base_number(types, *definition)?;
        bases.push(base)?;
    }
    Ok(bases)
}

/// The numbers of the bases of types.
pub fn bases(alloc: Global, types: &TypeTable) -> Result<GrowingList<Option<u32>>, NoMemory>
    ensures { IfOk result (λ bases. bases ≡ bases_of types.now) }
{
    bases_among(alloc, types, types.definitions())
}

fn base_at(bases: &[Option<u32>], number: u32) -> Option<u32>
    ensures { result ≡ base_of_type bases.now number }
{
    match bases.get(number as usize) {
        Some(base) => *base,
        None => None,
    }
}

/// A type and its bases, the type first.
fn climbed(alloc: Global, bases: &[Option<u32>], number: u32) -> Result<Vec<u32>, NoMemory>
    ensures { IfOk result (λ line. reverse line.items ≡ line_from (length bases.now) bases.now (Some number)) }
{
    let mut line = Vec::new(alloc);
    let mut next = Some(number);
    for _turn in 0..bases.len() {
        match next {
            Some(number) => {
                match line.push(number) {
                    Ok(()) => {}
                    Err(_) => return Err(NoMemory),
                }
                next = base_at(bases, number);
            }
            None => return Ok(line),
        }
    }
    Ok(line)
}

/// A type after its bases, the last base first.
pub fn line(alloc: Global, bases: &[Option<u32>], number: u32) -> Result<Vec<u32>, NoMemory>
    ensures { IfOk result (λ line. line.items ≡ line_from (length bases.now) bases.now (Some number)) }
{
    let mut line = climbed(alloc, bases, number)?;
    line.reverse();
    Ok(line)
}
