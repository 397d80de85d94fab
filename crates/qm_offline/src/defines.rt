//! The names that hold in a schema's conditions.
ghost use Rattle.std.specs.Prelude.{◌≡◌, ◌<◌, length, position, IfSome, IfOk};
ghost use Rattle.std.specs.List.{slice_split};
ghost use Rattle.std.specs.Option.{option_copied};
ghost use Rattle.qm_offline.specs.Words.{is_comma, names_defined as names_defined_of};

use qm_base::{GrowingList, NoMemory, Text};
use std::alloc::Global;

fn comma_at(text: &[u8]) -> Option<usize>
    ensures place { result ≡ position is_comma text.now }
    ensures within { IfSome result (λ at. at < length text.now) }
{
    text.iter().position(|byte| *byte == b',')
}

#[tactic(auto, using(crate::proofs::WordLemmas::first_piece, crate::proofs::WordLemmas::only_piece))]
fn pieces(alloc: Global, text: &[u8]) -> Result<GrowingList<Text>, NoMemory>
    ensures { IfOk result (λ names. names ≡ slice_split is_comma text.now) }
{
    let mut names = GrowingList::new(alloc);
    let mut rest = text;
    while let Some(at) = comma_at(rest) {
        names.push(Text::of(alloc, &rest[..at])?)?;
        rest = &rest[at + 1..];
    }
    names.push(Text::of(alloc, rest)?)?;
    Ok(names)
}

/// The names of `--define A,B`, of which some may be empty; none without the option.
pub fn names_defined(alloc: Global, define: Option<&[u8]>) -> Result<GrowingList<Text>, NoMemory>
    ensures { IfOk result (λ names. names ≡ names_defined_of (option_copied define.entry)) }
{
    match define {
        None => Ok(GrowingList::new(alloc)),
        Some(text) => pieces(alloc, text),
    }
}
