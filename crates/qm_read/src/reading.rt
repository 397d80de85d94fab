ghost use Rattle.std.specs.Prelude.{ℕ, List, length, ◌+◌, ◌<◌, ◌≤◌, ◌^◌, ◌↔◌, ◌≡◌, ◌≢◌, IfOk, IfErr, Ok, Err};
ghost use Rattle.qm_json.specs.Cleanness.{IsClean};
ghost use Rattle.qm_json.specs.Nesting.{depth};
ghost use Rattle.qm_json.specs.Printing.{printed};
ghost use Rattle.qm_read.specs.Faults.{reading_of, reading_within};
ghost use Rattle.qm_read.specs.Progress.{Advances, reading_from};
ghost use Rattle.qm_read.specs.Texts.{HasFault, HasFaultWithin, IsWithin, Spells, SpellsWithin};

use crate::JsonFault;
use crate::lexer::lexeme;
use crate::reader::Reader;
use crate::strings::past;
use crate::token::Lexeme;
use qm_frame::MAX_DEPTH;
use qm_json::Json;
use std::alloc::Global;

/// Takes the lexeme at the front of these bytes, and answers its length.
#[tactic(auto, using(crate::proofs::Advancing::none_taken, crate::proofs::Advancing::one_taken))]
fn advance(
    alloc: Global,
    limit: usize,
    reader: &mut Reader,
    text: &[u8],
    place: u64,
) -> Result<usize, JsonFault>
    requires some { 0 < length text.now }
    requires within { place + length text.now < 2 ^ 64 }
    ensures { Advances (reading_from limit) reader.old place text.now result reader.new }
{
    let Lexeme { token, more } = lexeme(alloc, text, place)?;
    match token {
        Some(token) => {
            reader.push(limit, token, place)?;
            Ok(1 + more)
        }
        None => Ok(1 + more),
    }
}

/// The value of a text or its first fault, by the lexemes of the text from the left.
#[tactic(auto, using(crate::proofs::Advancing::from_begin))]
fn value_of(alloc: Global, text: &[u8], limit: usize) -> Result<Json, JsonFault>
    ensures { result ≢ Err JsonFault.Memory → result ≡ reading_within limit text.now }
{
    let mut reader = Reader::new(alloc);
    let mut place = 0;
    while place < text.len() {
        place += advance(alloc, limit, &mut reader, past(text, place), place as u64)?;
    }
    reader.finish(text.len() as u64)
}

/// The value that a text spells, nested at most so deep, with white space round it (RFC 8259,
/// section 2), or the first fault of the text: each token is looked at from the left, first by
/// itself, then whether it may stand there, then whether it is a name that the object has already.
#[tactic(auto, using(crate::proofs::Results::result_spelled, crate::proofs::Results::result_fault, crate::proofs::Results::result_clean))]
pub fn read_within(alloc: Global, text: &[u8], limit: usize) -> Result<Json, JsonFault>
    ensures value { result ≢ Err JsonFault.Memory → result ≡ reading_within limit text.now }
    ensures spelled { IfOk result (SpellsWithin limit text.now) }
    ensures fault { IfErr result (λ f. f ≢ JsonFault.Memory → HasFaultWithin limit text.now f) }
    ensures clean { IfOk result IsClean }
{
    value_of(alloc, text, limit)
}

/// The value that a text spells, nested at most 128 deep, as deep as a message may be; or the first
/// fault of the text.
pub fn read(alloc: Global, text: &[u8]) -> Result<Json, JsonFault>
    ensures value { result ≢ Err JsonFault.Memory → result ≡ reading_of text.now }
    ensures spelled { IfOk result (Spells text.now) }
    ensures fault { IfErr result (λ f. f ≢ JsonFault.Memory → HasFault text.now f) }
    ensures clean { IfOk result IsClean }
{
    read_within(alloc, text, MAX_DEPTH)
}

/// A text is read as a value exactly where it spells it.
#[tactic(auto, using(crate::proofs::Results::value_spelled, crate::proofs::Results::spelled_value))]
pub fn each_value_is_spelled()
    ensures { (text : List ℕ) (value : Json) →
        (reading_of text ≡ Ok value) ↔ Spells text value }
{}

/// The same, nested at most so deep.
#[tactic(auto, using(crate::proofs::Results::value_spelled, crate::proofs::Results::spelled_value))]
pub fn each_value_is_spelled_within()
    ensures { (limit : ℕ) (text : List ℕ) (value : Json) →
        (reading_within limit text ≡ Ok value) ↔ SpellsWithin limit text value }
{}

/// A text is refused with a fault exactly where that is its first fault: what stands before it
/// begins a value, and with it nothing does.
#[tactic(auto, using(crate::proofs::Results::fault_first, crate::proofs::Results::first_fault_of))]
pub fn each_fault_is_the_first()
    ensures { (text : List ℕ) (fault : JsonFault) →
        (reading_of text ≡ Err fault) ↔ HasFault text fault }
{}

/// The same, where values are nested at most so deep.
#[tactic(auto, using(crate::proofs::Results::fault_first, crate::proofs::Results::first_fault_of))]
pub fn each_fault_is_the_first_within()
    ensures { (limit : ℕ) (text : List ℕ) (fault : JsonFault) →
        (reading_within limit text ≡ Err fault) ↔ HasFaultWithin limit text fault }
{}

/// What a text is read as is clean.
pub fn each_value_is_clean()
    ensures { (text : List ℕ) (value : Json) → reading_of text ≡ Ok value → IsClean value }
{}

/// A fault lies in its text, or at the end of it.
#[tactic(auto, using(crate::proofs::Results::read_within))]
pub fn each_fault_is_within_its_text()
    ensures { (text : List ℕ) (fault : JsonFault) → reading_of text ≡ Err fault →
        IsWithin (length text) fault }
{}

/// Want of memory is no fault of a text.
#[tactic(auto, using(crate::proofs::Results::read_told))]
pub fn memory_is_no_fault()
    ensures { (text : List ℕ) → reading_of text ≢ Err JsonFault.Memory }
{}

/// What a text is read as is nested at most 128 deep (RFC 8259, section 9).
#[tactic(auto, using(crate::proofs::Results::value_nested))]
pub fn no_value_is_too_deep()
    ensures { (text : List ℕ) (value : Json) → reading_of text ≡ Ok value →
        depth value ≤ 128 }
{}

/// The printed text of a clean value, nested at most 128 deep, spells the value.
#[tactic(auto, using(crate::proofs::PrintedValues::printed_spells))]
pub fn each_printed_value_is_spelled()
    ensures { (value : Json) → IsClean value → depth value ≤ 128 →
        Spells (printed value) value }
{}

/// The printed text of a clean value, nested at most 128 deep, is read as the value.
#[tactic(auto, using(crate::proofs::PrintedValues::printed_value))]
pub fn each_printed_value_is_read()
    ensures { (value : Json) → IsClean value → depth value ≤ 128 →
        reading_of (printed value) ≡ Ok value }
{}

/// The printed text of a clean value, nested at most so deep, is read within that depth as the value.
#[tactic(auto, using(crate::proofs::PrintedValues::printed_within))]
pub fn each_printed_value_is_read_within()
    ensures { (limit : ℕ) (value : Json) → IsClean value → depth value ≤ limit →
        reading_within limit (printed value) ≡ Ok value }
{}
