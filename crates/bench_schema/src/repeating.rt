ghost use Rattle.std.specs.Prelude.{IfSome};
ghost use Rattle.qapi_types.specs.Prelude.{HasPrelude};

use crate::reading::library;
use crate::tables::wide;
use qapi_check::load_schema;
use qapi_mask::introspect;
use qapi_types::Schema;
use qm_admit::{Verdict, admit};
use qm_json::Json;
use qm_read::read;
use std::alloc::Global;

fn value_of(alloc: Global, text: &[u8]) -> Option<Json> {
    match read(alloc, text) {
        Ok(value) => Some(value),
        Err(_) => None,
    }
}

/// How many members or elements a value has.
fn count_of(value: &Json) -> usize {
    match value {
        Json::Obj(members) => members.len(),
        Json::Arr(items) => items.len(),
        _ => 0,
    }
}

/// Reads the text of a value so many times.
fn values(alloc: Global, text: &[u8], times: u32) -> Option<usize> {
    let mut count = 0;
    for _ in 0..times {
        count = count_of(&value_of(alloc, text)?);
    }
    Some(count)
}

fn fits(schema: &Schema, value: &Json) -> bool {
    schema.types() > 3 && matches!(admit(schema, 3, value), Verdict::Yes)
}

/// Admits the value of a text so many times at a struct of as many members.
fn admitted(alloc: Global, text: &[u8], times: u32) -> Option<usize> {
    let value = value_of(alloc, text)?;
    let count = count_of(&value);
    let schema = wide(alloc, u32::try_from(count).ok()?)?;
    for _ in 0..times {
        if !fits(&schema, &value) {
            return None;
        }
    }
    Some(count)
}

fn schema_of(alloc: Global, text: &[u8]) -> Option<Schema>
    ensures { IfSome result HasPrelude }
{
    let mut library = library(alloc, text)?;
    match load_schema(alloc, &mut library, Some(b"main"), &[]) {
        Ok(schema) => Some(schema),
        Err(_) => None,
    }
}

/// How many entries the introspection array has.
fn entries(alloc: Global, schema: &Schema) -> Option<usize>
    requires { HasPrelude schema.now }
{
    match introspect(alloc, schema) {
        Ok(array) => Some(count_of(&array)),
        Err(_) => None,
    }
}

/// Makes the introspection array of a schema's text so many times.
fn introspected(alloc: Global, text: &[u8], times: u32) -> Option<usize> {
    let schema = schema_of(alloc, text)?;
    let mut count = 0;
    for _ in 0..times {
        count = entries(alloc, &schema)?;
    }
    Some(count)
}

/// Does what the way says with a text so many times, and tells how much it had; None for another
/// way, for a text that is refused, and for want of memory.
pub fn repeated(alloc: Global, way: &str, text: &[u8], times: u32) -> Option<usize> {
    match way {
        "value" => values(alloc, text, times),
        "admit" => admitted(alloc, text, times),
        "introspect" => introspected(alloc, text, times),
        _ => None,
    }
}
