//! What is told of a schema.
ghost use Rattle.std.specs.Prelude.{◌≡◌, ◌++◌, IfOk, position, codes};
ghost use Rattle.qm_json.specs.Printing.{printed};
ghost use Rattle.qm_offline.specs.Output.{is_str as is_str_kind, named_types as named_types_in, ok_line as ok_line_of};

use itoa::Buffer;
use qapi_types::{Kind, Schema};
use qm_base::{NoMemory, Text};
use qm_json::Json;
use std::alloc::Global;

fn is_str(kind: &Kind) -> bool
    ensures { result ≡ is_str_kind kind.now }
{
    match kind {
        Kind::Str => true,
        Kind::Number
        | Kind::Whole(_)
        | Kind::Bool
        | Kind::Null
        | Kind::Any
        | Kind::Enum(_, _)
        | Kind::Array(_)
        | Kind::Object(_)
        | Kind::Alternate(_, _) => false,
    }
}

fn first_str(kinds: &[Kind]) -> Option<usize>
    ensures { result ≡ position is_str_kind kinds.now }
{
    kinds.iter().position(|kind| is_str(kind))
}

fn named_types(kinds: &[Kind]) -> usize
    ensures { result ≡ named_types_in kinds.now }
{
    match first_str(kinds) {
        Some(place) => place,
        None => kinds.len(),
    }
}

/// The line that tells how many commands, events and types a schema defines.
pub fn ok_line(alloc: Global, schema: &Schema) -> Result<Text, NoMemory>
    ensures { IfOk result (λ line. line ≡ ok_line_of schema.now) }
{
    let parts = schema.parts();
    let (mut commands, mut events, mut types) = (Buffer::new(), Buffer::new(), Buffer::new());
    let mut line = Text::of(alloc, b"ok ")?;
    line.extend(commands.format(parts.commands.len()).as_bytes())?;
    line.extend(b" commands, ")?;
    line.extend(events.format(parts.events.len()).as_bytes())?;
    line.extend(b" events, ")?;
    line.extend(types.format(named_types(parts.kinds.as_slice())).as_bytes())?;
    line.extend(b" types\n")?;
    Ok(line)
}

/// The line of a printed value.
pub fn value_line(alloc: Global, value: &Json) -> Result<Text, NoMemory>
    ensures { IfOk result (λ line. line ≡ printed value.now ++ codes "\n") }
{
    let mut line = Text::new(alloc);
    value.write_text(&mut line)?;
    line.push(b'\n')?;
    Ok(line)
}
