ghost use Rattle.std.specs.Prelude.{◌≡◌, ◌++◌, IfOk};
ghost use Rattle.std.specs.Fmt.{decimal};
ghost use Rattle.qm_admit.specs.Paths.{printed_path};
ghost use Rattle.qm_core.specs.Inputs.{arguments_in as arguments_in_input};
ghost use Rattle.qm_core.specs.Judged.{told};
ghost use Rattle.qm_core.specs.Refusals.{bad_desc_of, class_name_of, class_of, desc_of, frame_desc_of, json_desc_of, misfit_desc_of};

use crate::arguments::arguments_in;
use crate::inputs::{BadInput, FrameWord, Input, JsonWord};
use crate::verdicts::{Class, Refusal};
use crate::world::World;
use itoa::Buffer;
use qm_admit::{Fault, PathList, path_text};
use qm_base::{NoMemory, Text};
use std::alloc::Global;

fn with_place(alloc: Global, front: &[u8], place: u64) -> Result<Text, NoMemory>
    ensures { IfOk result (λ text. text ≡ front.now ++ decimal place) }
{
    let mut text = Text::of(alloc, front)?;
    let mut buffer = Buffer::new();
    text.extend(buffer.format(place).as_bytes())?;
    Ok(text)
}

fn with_name(alloc: Global, front: &[u8], name: &[u8], back: &[u8]) -> Result<Text, NoMemory>
    ensures { IfOk result (λ text. text ≡ front.now ++ name.now ++ back.now) }
{
    let mut text = Text::of(alloc, front)?;
    text.extend(name)?;
    text.extend(back)?;
    Ok(text)
}

fn frame_desc(alloc: Global, word: FrameWord) -> Result<Text, NoMemory>
    ensures { IfOk result (λ text. text ≡ frame_desc_of word) }
{
    match word {
        FrameWord::LexError => Text::of(alloc, b"Invalid JSON: lexical error"),
        FrameWord::Unbalanced => Text::of(alloc, b"Invalid JSON: unbalanced bracket"),
        FrameWord::TooDeep => Text::of(alloc, b"Invalid JSON: nesting is deeper than 128"),
        FrameWord::TooLong => {
            Text::of(alloc, b"Invalid JSON: message is longer than 1048576 bytes")
        }
    }
}

fn json_desc(alloc: Global, word: JsonWord) -> Result<Text, NoMemory>
    ensures { IfOk result (λ text. text ≡ json_desc_of word) }
{
    match word {
        JsonWord::Expected(place) => {
            with_place(alloc, b"Invalid JSON: syntax error at byte ", place)
        }
        JsonWord::Duplicate(place) => {
            with_place(alloc, b"Invalid JSON: duplicate member at byte ", place)
        }
        JsonWord::BadEscape(place) => {
            with_place(alloc, b"Invalid JSON: bad escape at byte ", place)
        }
        JsonWord::BadUtf8(place) => with_place(alloc, b"Invalid JSON: bad UTF-8 at byte ", place),
    }
}

fn bad_desc(alloc: Global, bad: BadInput) -> Result<Text, NoMemory>
    ensures { IfOk result (λ text. text ≡ bad_desc_of bad) }
{
    match bad {
        BadInput::Frame(word) => frame_desc(alloc, word),
        BadInput::Json(word) => json_desc(alloc, word),
    }
}

fn fault_desc(alloc: Global, fault: Fault, path: &[u8]) -> Result<Text, NoMemory>
    ensures { IfOk result (λ text. text ≡ misfit_desc_of fault path.now) }
{
    match fault {
        Fault::Missing => with_name(alloc, b"Parameter '", path, b"' is missing"),
        Fault::Unexpected => with_name(alloc, b"Parameter '", path, b"' is unexpected"),
        Fault::WrongKind => with_name(alloc, b"Invalid parameter type for '", path, b"'"),
        Fault::OutOfRange => with_name(alloc, b"Parameter '", path, b"' is out of range"),
        Fault::BadEnum => with_name(alloc, b"Parameter '", path, b"' does not accept this value"),
        Fault::NoAlternative => with_name(alloc, b"Parameter '", path, b"' matches no alternative"),
    }
}

fn misfit_desc(
    alloc: Global,
    world: &World,
    input: &Input,
    fault: Fault,
    path: &PathList,
) -> Result<Text, NoMemory>
    ensures { let way = printed_path world.now.schema.kinds (arguments_in_input input.now) path.now in
        IfOk result (λ text. text ≡ misfit_desc_of fault way) }
{
    let way = path_text(alloc, &world.schema, arguments_in(input), path)?;
    fault_desc(alloc, fault, way.as_slice())
}

/// The description of a refusal of an input.
pub(crate) fn desc(
    alloc: Global,
    world: &World,
    input: &Input,
    refusal: &Refusal<'_>,
) -> Result<Text, NoMemory>
    ensures { IfOk result (λ text. text ≡ desc_of world.now input.now (told refusal.now)) }
{
    match refusal {
        Refusal::BadInput(bad) => bad_desc(alloc, *bad),
        Refusal::NotAnObject => Text::of(alloc, b"QMP input must be a JSON object"),
        Refusal::UnexpectedMember(name) => {
            with_name(alloc, b"QMP input member '", name, b"' is unexpected")
        }
        Refusal::TwoVerbs => Text::of(alloc, b"QMP input has both 'execute' and 'exec-oob'"),
        Refusal::NoVerb => Text::of(alloc, b"QMP input lacks member 'execute'"),
        Refusal::VerbNoString(name) => {
            with_name(alloc, b"QMP input member '", name, b"' must be a string")
        }
        Refusal::ArgumentsNoObject => {
            Text::of(alloc, b"QMP input member 'arguments' must be an object")
        }
        Refusal::NegotiationExpected => {
            Text::of(
                alloc,
                b"Expecting capabilities negotiation with 'qmp_capabilities'",
            )
        }
        Refusal::NegotiationComplete => {
            Text::of(
                alloc,
                b"Capabilities negotiation is already complete, command ignored",
            )
        }
        Refusal::UnknownCommand(name) => {
            with_name(alloc, b"The command ", name, b" has not been found")
        }
        Refusal::NotOutOfBand(name) => {
            with_name(alloc, b"The command ", name, b" does not support OOB")
        }
        Refusal::Misfit(fault, path) => misfit_desc(alloc, world, input, *fault, path),
    }
}

/// The class of a refusal.
pub(crate) fn class(refusal: &Refusal<'_>) -> Class
    ensures { result ≡ class_of (told refusal.now) }
{
    match refusal {
        Refusal::NegotiationExpected | Refusal::NegotiationComplete | Refusal::UnknownCommand(_) =>
            Class::CommandNotFound,
        Refusal::BadInput(_)
        | Refusal::NotAnObject
        | Refusal::UnexpectedMember(_)
        | Refusal::TwoVerbs
        | Refusal::NoVerb
        | Refusal::VerbNoString(_)
        | Refusal::ArgumentsNoObject
        | Refusal::NotOutOfBand(_)
        | Refusal::Misfit(_, _) => Class::GenericError,
    }
}

/// The name of a class.
pub(crate) fn class_name(class: Class) -> &'static [u8]
    ensures { result.now ≡ class_name_of class }
{
    match class {
        Class::GenericError => b"GenericError",
        Class::CommandNotFound => b"CommandNotFound",
    }
}
