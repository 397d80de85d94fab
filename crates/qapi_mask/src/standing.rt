//! The types that stand for others: of those that share a name the first.
ghost use Rattle.std.specs.Prelude.{◌≡◌, ◌<◌, ◌≤◌, ◌^◌, length, position, IfOk, IfSome};
ghost use Rattle.std.specs.Option.{option_copied};
ghost use Rattle.qapi_types.specs.Goodness.{RefersBelow};
ghost use Rattle.std.specs.List.{All};
ghost use Rattle.qapi_mask.specs.Naming.{builtin_of, builtin_at as builtin_place, element_of, is_text, base_of, shown_of};
ghost use Rattle.qapi_mask.specs.Tables.{array_at};
ghost use Rattle.qapi_mask.specs.Tables.{Tells};

use crate::listing::entry;
use qapi_types::Kind;
use qapi_types::lookups::kind_at;
use qm_base::NoMemory;
use std::alloc::Global;

/// The name of a built-in type.
pub fn builtin(kind: &Kind) -> Option<&'static [u8]>
    ensures { option_copied result ≡ builtin_of kind.now }
{
    match kind {
        Kind::Str => Some(b"str"),
        Kind::Number => Some(b"number"),
        Kind::Whole(_) => Some(b"int"),
        Kind::Bool => Some(b"bool"),
        Kind::Null => Some(b"null"),
        Kind::Any => Some(b"any"),
        Kind::Enum(_, _) | Kind::Array(_) | Kind::Object(_) | Kind::Alternate(_, _) => None,
    }
}

/// The element of an array type.
pub fn element(kind: &Kind) -> Option<u32>
    ensures { result ≡ element_of kind.now }
{
    match kind {
        Kind::Array(element) => Some(*element),
        _ => None,
    }
}

fn is_builtin(kind: &Kind, name: &[u8]) -> bool
    ensures { result ≡ is_text name.now (builtin_of kind.now) }
{
    match builtin(kind) {
        Some(other) => other == name,
        None => false,
    }
}

fn first_builtin(kinds: &[Kind], name: &[u8]) -> Option<usize>
    ensures place { result ≡ position (λ kind. is_text name.now (builtin_of kind)) kinds.now }
    ensures within { IfSome result (λ number. number < length kinds.now) }
{
    kinds.iter().position(|kind| is_builtin(kind, name))
}

/// The first of the types of the built-in name; how many types there are, where there is none.
pub fn builtin_at(kinds: &[Kind], name: &[u8]) -> usize
    ensures place { result ≡ builtin_place kinds.now name.now }
    ensures within { result ≤ length kinds.now }
{
    match first_builtin(kinds, name) {
        Some(number) => number,
        None => kinds.len(),
    }
}

/// The first of the types that go by the same built-in name; of any other type itself.
fn base(kinds: &[Kind], number: usize) -> u32
    requires within { number < length kinds.now }
    requires few { length kinds.now < 2 ^ 32 }
    ensures { result ≡ base_of kinds.now number }
{
    match builtin(kind_at(kinds, number)) {
        Some(name) => builtin_at(kinds, name) as u32,
        None => number as u32,
    }
}

/// The same of each type.
pub fn bases(alloc: Global, kinds: &[Kind]) -> Result<Vec<u32>, NoMemory>
    requires { length kinds.now < 2 ^ 32 }
    ensures { IfOk result (λ bases. Tells (base_of kinds.now) (length kinds.now) bases.items) }
{
    let mut bases = Vec::new(alloc);
    for number in 0..kinds.len() {
        bases.push(base(kinds, number))?;
    }
    Ok(bases)
}

/// The first array for each type that stands for its element; how many types there are, where there
/// is none.
fn arrays(alloc: Global, kinds: &[Kind], bases: &[u32]) -> Result<Vec<u32>, NoMemory>
    requires few { length kinds.now < 2 ^ 32 }
    requires bases { Tells (base_of kinds.now) (length kinds.now) bases.now }
    requires below { All (RefersBelow (length kinds.now)) kinds.now }
    ensures { IfOk result (λ arrays. Tells (array_at kinds.now) (length kinds.now) arrays.items) }
{
    let mut arrays = vec![in alloc; kinds.len() as u32; kinds.len()]?;
    let mut left = kinds.len();
    while left > 0 {
        left -= 1;
        if let Some(element) = element(kind_at(kinds, left)) {
            let base = entry(bases, element);
            arrays[base as usize] = left as u32;
        }
    }
    Ok(arrays)
}

fn stands_for(kinds: &[Kind], bases: &[u32], arrays: &[u32], number: usize) -> u32
    requires within { number < length kinds.now }
    requires bases { Tells (base_of kinds.now) (length kinds.now) bases.now }
    requires arrays { Tells (array_at kinds.now) (length kinds.now) arrays.now }
    requires below { All (RefersBelow (length kinds.now)) kinds.now }
    ensures { result ≡ shown_of kinds.now number }
{
    match element(kind_at(kinds, number)) {
        Some(element) => entry(arrays, entry(bases, element)),
        None => bases[number],
    }
}

/// For each type the one whose entry stands for it.
pub fn shown(alloc: Global, kinds: &[Kind], bases: &[u32]) -> Result<Vec<u32>, NoMemory>
    requires few { length kinds.now < 2 ^ 32 }
    requires bases { Tells (base_of kinds.now) (length kinds.now) bases.now }
    requires below { All (RefersBelow (length kinds.now)) kinds.now }
    ensures { IfOk result (λ shown. Tells (shown_of kinds.now) (length kinds.now) shown.items) }
{
    let arrays = arrays(alloc, kinds, bases)?;
    let mut shown = Vec::new(alloc);
    for number in 0..kinds.len() {
        shown.push(stands_for(kinds, bases, &arrays, number))?;
    }
    Ok(shown)
}
