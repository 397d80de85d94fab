//! The types that introspection lists, and their names.
ghost use Rattle.std.specs.Prelude.{◌≡◌, ◌<◌, ◌^◌, [], not, ◌&&◌, cond, IfOk, OnOk, map, filter, length};
ghost use Rattle.std.specs.List.{All, slice_index_or};
ghost use Rattle.qapi_types.specs.Goodness.{IsGood, RefersBelow};
ghost use Rattle.std.specs.Option.{is_some};
ghost use Rattle.qapi_mask.specs.Naming.{base_of, builtin_of, element_of, first_refs, refs_shown, shown_of, inner_of, is_numbered as is_numbered_of, listed_of};
ghost use Rattle.qapi_mask.specs.Orders.{with_all, with_new};
ghost use Rattle.qapi_types.specs.Prelude.{HasPrelude, empty_of};
ghost use Rattle.qapi_mask.specs.Tables.{Tells, IsMarked, number_in};

use crate::calls::{calls, first_references};
use crate::listing::{Listing, entry};
use crate::references::references;
use crate::standing::{builtin, element};
use qapi_types::lookups::kind_at;
use qapi_types::{Kind, Parts, Schema};
use qm_base::NoMemory;
use std::alloc::Global;
use std::marker::Model;

fn at(numbers: &[u32], index: usize) -> u32
    requires { index < length numbers.now }
    ensures { result ≡ slice_index_or numbers.now index 0 }
{
    numbers[index]
}

/// The number of the type of objects without members.
pub fn empty(parts: &Parts) -> u32
    requires { HasPrelude parts.now }
    ensures { result ≡ empty_of parts.now }
{
    parts.commands.as_slice()[0].ret
}

/// Adds what the entry of the type refers to.
fn add_entry(
    alloc: Global,
    parts: &Parts,
    shown: &[u32],
    number: u32,
    listing: &mut Listing,
) -> Result<(), NoMemory>
    requires good { IsGood parts.now }
    requires begun { HasPrelude parts.now }
    requires within { number < length parts.now.kinds }
    requires shown { Tells (shown_of parts.now.kinds) (length parts.now.kinds) shown.now }
    requires marks { IsMarked (length parts.now.kinds) listing.old.found.items listing.old.marks.items }
    ensures found { OnOk result (listing.new.found.items ≡ with_all listing.old.found.items (refs_shown parts.now number)) }
    ensures marks { OnOk result (IsMarked (length parts.now.kinds) listing.new.found.items listing.new.marks.items) }
{
    let kinds = parts.kinds.as_slice();
    let types = references(alloc, kinds, kind_at(kinds, number as usize), empty(parts))?;
    listing.add_all(shown, types.as_slice())?;
    Ok(())
}

/// What stands for the types that commands and events refer to.
fn first_listed(alloc: Global, parts: &Parts, shown: &[u32]) -> Result<Listing, NoMemory>
    requires good { IsGood parts.now }
    requires begun { HasPrelude parts.now }
    requires shown { Tells (shown_of parts.now.kinds) (length parts.now.kinds) shown.now }
    ensures found { IfOk result (λ listing. listing.found.items ≡ with_all [] (map (shown_of parts.now.kinds) (first_refs parts.now))) }
    ensures marks { IfOk result (λ listing. IsMarked (length parts.now.kinds) listing.found.items listing.marks.items) }
{
    let kinds = parts.kinds.as_slice();
    let calls = calls(alloc, parts)?;
    let first = first_references(alloc, kinds, calls.as_slice())?;
    let mut listing = Listing::new(alloc, kinds.len())?;
    listing.add_all(shown, first.as_slice())?;
    Ok(listing)
}

/// The types that are listed.
pub fn listed(alloc: Global, parts: &Parts, shown: &[u32]) -> Result<Listing, NoMemory>
    requires good { IsGood parts.now }
    requires begun { HasPrelude parts.now }
    requires shown { Tells (shown_of parts.now.kinds) (length parts.now.kinds) shown.now }
    ensures found { IfOk result (λ listing. listing.found.items ≡ listed_of parts.now) }
    ensures marks { IfOk result (λ listing. IsMarked (length parts.now.kinds) listing.found.items listing.marks.items) }
{
    let mut listing = first_listed(alloc, parts, shown)?;
    for walked in 0..parts.kinds.len() {
        if walked >= listing.found.len() {
            return Ok(listing);
        }
        let number = at(listing.found.as_slice(), walked);
        add_entry(alloc, parts, shown, number, &mut listing)?;
    }
    Ok(listing)
}

/// The type whose own name is in the name of the type.
fn inner(kinds: &[Kind], bases: &[u32], number: u32) -> u32
    requires within { number < length kinds.now }
    requires bases { Tells (base_of kinds.now) (length kinds.now) bases.now }
    requires below { All (RefersBelow (length kinds.now)) kinds.now }
    ensures value { result ≡ inner_of kinds.now number }
    ensures within { result < length kinds.now }
{
    match element(kind_at(kinds, number as usize)) {
        Some(element) => entry(bases, element),
        None => number,
    }
}

fn is_numbered(kind: &Kind) -> bool
    ensures { result ≡ (not (is_some (builtin_of kind.now)) && not (is_some (element_of kind.now))) }
{
    builtin(kind).is_none() && element(kind).is_none()
}

/// Adds a type, where it is named by a number.
fn add_numbered(kinds: &[Kind], number: u32, listing: &mut Listing) -> Result<(), NoMemory>
    requires within { number < length kinds.now }
    requires marks { IsMarked (length kinds.now) listing.old.found.items listing.old.marks.items }
    ensures found { OnOk result (listing.new.found.items ≡ cond (is_numbered_of kinds.now number) (with_new listing.old.found.items number) listing.old.found.items) }
    ensures marks { OnOk result (IsMarked (length kinds.now) listing.new.found.items listing.new.marks.items) }
{
    if !is_numbered(kind_at(kinds, number as usize)) {
        return Ok(());
    }
    listing.add(number)
}

/// The types that are named by numbers.
pub fn numbered(
    alloc: Global,
    kinds: &[Kind],
    bases: &[u32],
    listed: &[u32],
) -> Result<Listing, NoMemory>
    requires within { All (λ x. x < length kinds.now) listed.now }
    requires bases { Tells (base_of kinds.now) (length kinds.now) bases.now }
    requires below { All (RefersBelow (length kinds.now)) kinds.now }
    ensures found { IfOk result (λ listing. listing.found.items ≡ with_all [] (filter (is_numbered_of kinds.now) (map (inner_of kinds.now) listed.now))) }
    ensures marks { IfOk result (λ listing. IsMarked (length kinds.now) listing.found.items listing.marks.items) }
{
    let mut listing = Listing::new(alloc, kinds.len())?;
    for number in listed {
        add_numbered(kinds, inner(kinds, bases, *number), &mut listing)?;
    }
    Ok(listing)
}

/// Where each of so many types stands among the numbered ones; how many these are, where it is none.
pub fn numbers(alloc: Global, numbered: &[u32], count: usize) -> Result<Vec<u32>, NoMemory>
    requires within { All (λ x. x < count) numbered.now }
    requires few { length numbered.now < 2 ^ 32 }
    ensures { IfOk result (λ numbers. Tells (number_in numbered.now) count numbers.items) }
{
    let mut numbers = vec![in alloc; numbered.len() as u32; count]?;
    let mut left = numbered.len();
    while left > 0 {
        left -= 1;
        numbers[numbered[left] as usize] = left as u32;
    }
    Ok(numbers)
}

/// A schema, with the types that introspection lists and the numbers that name them. Contracts see
/// it as the schema's parts.
#[derive(Drop)]
pub struct Naming<'a> {
    pub schema: &'a Schema,
    pub shown: Vec<u32>,
    pub listed: Listing,
    pub numbers: Vec<u32>,
}

impl<'a> Model for Naming<'a> {
    ghost use Rattle.qapi_types.specs.declared.parts.Parts.{Parts};
    ghost use Rattle.qapi_mask.specs.Tables.{IsNamed};

    ghost Value = { Parts };

    ghost view = { λ n. n.schema.now };

    ghost invariant = { λ n. IsNamed n.schema.now n.shown.items n.listed.found.items n.listed.marks.items n.numbers.items };
}
