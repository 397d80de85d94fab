//! The worlds of the cases.

ghost use Rattle.std.specs.Prelude.{IfOk};
ghost use Rattle.qm_core.specs.Worlds.{IsReady};

use qapi_check::checking::check_sources;
use qapi_check::load_schema;
use qapi_load::{FileList, LibraryFile, MemoryLibrary};
use qapi_types::Schema;
use qm_base::{CallList, Text};
use qm_bind::bind;
use qm_core::World;
use qm_json::Json;
use qm_read::read;
use std::alloc::Global;
use std::test::Fail;

/// What clients are told of a schema.
const INTROSPECTION: &[u8] =
    b"[{\"name\": \"str\", \"meta-type\": \"builtin\", \"json-type\": \"string\"}]";

fn introspection(alloc: Global) -> Result<Json, Fail> {
    match read(alloc, INTROSPECTION) {
        Ok(value) => Ok(value),
        Err(_) => Err(Fail::from("the introspection is no JSON")),
    }
}

/// The world of a schema and the text of a bind file; its introspection is an array of one object.
fn world(alloc: Global, schema: Schema, bound: &[u8]) -> Result<World, Fail>
    ensures { IfOk result IsReady }
{
    let introspection = introspection(alloc)?;
    match bind(alloc, &schema, bound) {
        Ok(binding) => Ok(World {
            schema,
            introspection,
            binding,
        }),
        Err(_) => Err(Fail::from("the bind file is refused")),
    }
}

/// The world without a schema's file.
pub(crate) fn prelude_world(alloc: Global) -> Result<World, Fail>
    ensures { IfOk result IsReady }
{
    match check_sources(alloc, &[], &[]) {
        Ok(schema) => world(alloc, schema, b"{}"),
        Err(_) => Err(Fail::from("the definitions are refused")),
    }
}

/// A library of one file.
fn library(alloc: Global, name: &[u8], text: &[u8]) -> Result<MemoryLibrary, Fail> {
    let mut files = FileList::new(alloc);
    let file = LibraryFile::new(Text::of(alloc, name)?, Text::of(alloc, text)?);
    files.push(file)?;
    Ok(MemoryLibrary::new(alloc, files, CallList::new(alloc)))
}

/// The world of the texts of a schema and a bind file.
pub(crate) fn world_of(alloc: Global, text: &[u8], bound: &[u8]) -> Result<World, Fail>
    ensures { IfOk result IsReady }
{
    let mut library = library(alloc, b"main", text)?;
    match load_schema(alloc, &mut library, Some(b"main"), &[]) {
        Ok(schema) => world(alloc, schema, bound),
        Err(_) => Err(Fail::from("the schema is refused")),
    }
}
