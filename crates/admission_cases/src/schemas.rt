//! Schemas of texts. The types of each are numbered from 6 on in the order of their definitions.

ghost use Rattle.std.specs.Prelude.{IfOk};
ghost use Rattle.qapi_types.specs.Prelude.{HasPrelude};

use qapi_check::load_schema;
use qapi_load::{FileList, LibraryFile, MemoryLibrary};
use qapi_types::Schema;
use qm_base::{CallList, NoMemory, Text};
use std::alloc::Global;
use std::test::Fail;

/// A union whose first branch has no type, and an alternate.
pub const SETTINGS: &str = "\
{ 'enum': 'Mode', 'data': [ 'slow', 'fast', 'off' ] }
{ 'struct': 'Common', 'data': { 'mode': 'Mode', '*tag': 'str' } }
{ 'struct': 'Fast', 'data': { 'level': 'int8' } }
{ 'union': 'Setting', 'base': 'Common', 'discriminator': 'mode', 'data': { 'fast': 'Fast' } }
{ 'alternate': 'Place', 'data': { 'n': 'uint16', 's': 'str' } }
{ 'command': 'set', 'data': 'Setting', 'boxed': true }
{ 'command': 'get', 'returns': 'Mode' }
{ 'command': 'put', 'data': { 'at': 'Place', '*note': 'str' }, 'returns': 'int' }
{ 'command': 'ping', 'returns': 'int', 'allow-oob': true }
{ 'command': 'make', 'data': { 'id': 'str' } }
{ 'command': 'level', 'data': { 'n': 'int8' } }
{ 'command': 'bad', 'returns': 'int' }
{ 'event': 'NOTE', 'data': { 'port': 'str', 'n': 'int' } }
{ 'command': 'note', 'data': { 'port': 'str', 'n': 'int' } }
";

/// A struct that holds itself and lists of itself, and a union of a union of it.
pub const CELLS: &str = "\
{ 'enum': 'Color', 'data': [ 'red', 'green' ] }
{ 'alternate': 'Few', 'data': { 's': 'str', 'n': 'uint16' } }
{ 'struct': 'Cell', 'data': { 'n': 'int8', '*color': 'Color', '*few': 'Few', '*in': 'Cell', '*list': [ 'Cell' ] } }
{ 'enum': 'Outer', 'data': [ 'deep', 'flat' ] }
{ 'enum': 'Inner', 'data': [ 'cell', 'none' ] }
{ 'union': 'Middle', 'base': { 'inner': 'Inner' }, 'discriminator': 'inner', 'data': { 'cell': 'Cell' } }
{ 'union': 'Shape', 'base': { 'outer': 'Outer', '*id': 'int8' }, 'discriminator': 'outer', 'data': { 'deep': 'Middle' } }
{ 'alternate': 'Each', 'data': { 'z': 'null', 'b': 'bool', 'n': 'uint8', 's': 'Color', 'a': [ 'int8' ], 'o': 'Shape' } }
{ 'command': 'hold', 'data': 'Cell' }
{ 'command': 'draw', 'data': 'Shape', 'boxed': true }
{ 'command': 'place', 'data': { 'each': 'Each', '*shapes': [ 'Shape' ] } }
{ 'command': 'cells', 'returns': [ 'Cell' ] }
{ 'command': 'color', 'returns': 'Color' }
{ 'command': 'few', 'returns': 'Few' }
{ 'command': 'each', 'returns': 'Each' }
{ 'command': 'plain' }
{ 'command': 'free', 'data': { 'n': 'int' }, 'gen': false }
{ 'event': 'MOVED', 'data': 'Cell' }
{ 'event': 'GONE' }
";

/// A command for each built-in type.
pub const BUILT_IN: &str = "\
{ 'command': 'get-str', 'returns': 'str' }
{ 'command': 'get-number', 'returns': 'number' }
{ 'command': 'get-int', 'returns': 'int' }
{ 'command': 'get-int8', 'returns': 'int8' }
{ 'command': 'get-int16', 'returns': 'int16' }
{ 'command': 'get-int32', 'returns': 'int32' }
{ 'command': 'get-int64', 'returns': 'int64' }
{ 'command': 'get-uint8', 'returns': 'uint8' }
{ 'command': 'get-uint16', 'returns': 'uint16' }
{ 'command': 'get-uint32', 'returns': 'uint32' }
{ 'command': 'get-uint64', 'returns': 'uint64' }
{ 'command': 'get-size', 'returns': 'size' }
{ 'command': 'get-bool', 'returns': 'bool' }
{ 'command': 'get-null', 'returns': 'null' }
{ 'command': 'get-any', 'returns': 'any' }
{ 'command': 'get-anys', 'returns': [ 'any' ] }
{ 'command': 'get-type', 'returns': 'QType' }
";

/// Features, a struct without members, lists of members that look the same, and arrays whose
/// elements are whole numbers.
pub const SHOWN: &str = "\
{ 'enum': 'Level', 'data': [ 'low', { 'name': 'high', 'features': [ 'fresh' ] } ], 'features': [ 'old', 'odd' ] }
{ 'struct': 'Bare', 'data': {} }
{ 'struct': 'Base', 'data': { 'level': 'Level', '*wide': 'number' } }
{ 'struct': 'Marked', 'base': 'Base', 'data': { '*small': { 'type': [ 'int8' ], 'features': [ 'x', 'y' ] }, 'none': 'null' }, 'features': [ 'z' ] }
{ 'union': 'Both', 'base': 'Base', 'discriminator': 'level', 'data': { 'high': 'Bare' }, 'features': [ 'joint' ] }
{ 'alternate': 'Some', 'data': { 'a': [ 'uint64' ], 'b': 'bool', 'k': 'QType' }, 'features': [ 'loose' ] }
{ 'command': 'bare', 'returns': 'Bare' }
{ 'command': 'empty', 'data': {} }
{ 'event': 'MARK', 'data': 'Marked', 'features': [ 'loud' ] }
{ 'command': 'one', 'data': { 'n': 'int8' } }
{ 'command': 'two', 'data': { 'n': 'int8' }, 'returns': [ 'size' ] }
{ 'command': 'free', 'data': { 'hidden': 'Level' }, 'gen': false, 'returns': 'Some', 'allow-oob': true, 'features': [ 'raw' ] }
{ 'command': 'both', 'data': 'Both', 'boxed': true }
{ 'event': 'MARK-TWO' }
";

/// A struct that may hold itself, in an array too, and another with a mandatory member.
pub const CHAINS: &str = "\
{ 'struct': 'Chain', 'data': { '*next': 'Chain', '*list': [ 'Chain' ], '*stop': 'Stop' } }
{ 'struct': 'Stop', 'data': { 'need': 'int' } }
";

fn library(alloc: Global, text: &str) -> Result<MemoryLibrary, NoMemory> {
    let name = Text::of(alloc, b"main")?;
    let text = Text::of(alloc, text.as_bytes())?;
    let mut files = FileList::new(alloc);
    files.push(LibraryFile::new(name, text))?;
    Ok(MemoryLibrary::new(alloc, files, CallList::new(alloc)))
}

/// The schema of the text.
pub fn schema_of(alloc: Global, text: &str) -> Result<Schema, Fail>
    ensures { IfOk result HasPrelude }
{
    let mut library = library(alloc, text)?;
    match load_schema(alloc, &mut library, Some(b"main"), &[]) {
        Ok(schema) => Ok(schema),
        Err(_) => Err(Fail::from("the schema is refused")),
    }
}
