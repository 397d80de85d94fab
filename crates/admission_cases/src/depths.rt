//! Values that nest deeply, and the ways to their faults, of which the first 128 steps are kept.

use crate::schemas::{CHAINS, schema_of};
use crate::verdicts::is_answer;
use qapi_types::Schema;
use qm_json::{Json, Members};
use qm_read::read;
use std::alloc::Global;
use std::test::Fail;

/// Each row is how many objects with a member `next` a value stands in, and the value; then the
/// fault, how many times `next.` stands at the front of the way to it, and what follows.
const DEPTHS: &str = r#"0|{} -> yes|0|
127|{} -> yes|0|
300|{} -> yes|0|
0|7 -> wrong-kind|0|
1|7 -> wrong-kind|0|next
2|7 -> wrong-kind|1|next
128|7 -> wrong-kind|127|next
129|7 -> wrong-kind|127|next
300|7 -> wrong-kind|127|next
126|{"x": 1} -> unexpected|126|x
127|{"x": 1} -> unexpected|127|x
128|{"x": 1} -> unexpected|127|next
125|{"stop": {}} -> missing|125|stop.need
126|{"stop": {}} -> missing|126|stop.need
127|{"stop": {}} -> missing|127|stop
126|{"list": [{}, 7]} -> wrong-kind|126|list[1]
127|{"list": [{}, 7]} -> wrong-kind|127|list
"#;

fn repeated(alloc: Global, word: &str, count: u32) -> Result<String, Fail> {
    let mut out = String::new(alloc);
    for _ in 0..count {
        out.push_str(word)?;
    }
    Ok(out)
}

fn object(alloc: Global, value: Json) -> Result<Json, Fail> {
    let mut members = Members::new(alloc);
    members.add(alloc, b"next", value)?;
    Ok(members.into_json())
}

/// The value in so many objects.
fn nested(alloc: Global, value: Json, count: u32) -> Result<Json, Fail> {
    let mut value = value;
    for _ in 0..count {
        value = object(alloc, value)?;
    }
    Ok(value)
}

/// The value of a row.
fn value_of(alloc: Global, row: &str) -> Result<Json, Fail> {
    let (count, text) = row.split_once("|").unwrap_or((row, ""));
    let count = count.parse::<u32>()?;
    nested(alloc, read(alloc, text.as_bytes())?, count)
}

/// The way of a row to its fault.
fn way_of(alloc: Global, row: &str) -> Result<String, Fail> {
    let (count, last) = row.split_once("|").unwrap_or((row, ""));
    let mut way = repeated(alloc, "next.", count.parse::<u32>()?)?;
    way.push_str(last)?;
    Ok(way)
}

/// The answer of a row.
fn answer_of(alloc: Global, row: &str) -> Result<String, Fail> {
    let (fault, way) = row.split_once("|").unwrap_or((row, ""));
    let mut answer = String::from_str(alloc, fault)?;
    answer.push_str(" ")?;
    answer.push_str(way_of(alloc, way)?.as_str())?;
    Ok(answer)
}

fn is_answered(alloc: Global, schema: &Schema, row: &str) -> Result<bool, Fail> {
    let (value, wanted) = row.split_once(" -> ").unwrap_or((row, ""));
    let value = value_of(alloc, value)?;
    let wanted = answer_of(alloc, wanted)?;
    is_answer(
        alloc,
        schema,
        "type 6",
        Some(&value),
        wanted.as_str().trim(),
    )
}

/// The first row that has another answer over the schema, or the empty text.
fn first_other<'a>(alloc: Global, schema: &Schema, rows: &'a str) -> Result<&'a str, Fail> {
    for row in rows.lines() {
        if !is_answered(alloc, schema, row)? {
            return Ok(row);
        }
    }
    Ok("")
}

#[test]
fn ways_end_after_128_steps(rt: HostRuntime) -> Result<(), Fail> {
    let schema = schema_of(rt.alloc(), CHAINS)?;
    assert_eq!(rt; first_other(rt.alloc(), &schema, DEPTHS)?, "");
    Ok(())
}

/// What is read of the text of a value in so many objects.
fn read_nested(alloc: Global, text: &str, count: u32) -> Result<Json, Fail> {
    let mut out = repeated(alloc, "{\"next\": ", count)?;
    out.push_str(text)?;
    out.push_str(repeated(alloc, "}", count)?.as_str())?;
    Ok(read(alloc, out.as_bytes())?)
}

/// Whether this is the answer for what is read of such a text.
fn is_read_answer(
    alloc: Global,
    schema: &Schema,
    text: &str,
    count: u32,
    wanted: &str,
) -> Result<bool, Fail> {
    let value = read_nested(alloc, text, count)?;
    is_answer(alloc, schema, "type 6", Some(&value), wanted)
}

#[test]
fn the_deepest_text_is_judged(rt: HostRuntime) -> Result<(), Fail> {
    let schema = schema_of(rt.alloc(), CHAINS)?;
    assert!(rt; is_read_answer(rt.alloc(), &schema, "{}", 127, "yes")?);
    let wanted = answer_of(rt.alloc(), "wrong-kind|127|next")?;
    assert!(rt; is_read_answer(rt.alloc(), &schema, "7", 128, wanted.as_str())?);
    Ok(())
}
