//! Files that say what commands do, each with its fault, if it has one.

use crate::schema::schema;
use qapi_types::Schema;
use qm_base::{NoMemory, Text};
use qm_bind::{BindFault, BindRule, bind, binding_good};
use std::alloc::Global;
use std::test::Fail;

// Each row is a file, ` | ` and `ok`, or its first fault and the name of that.

/// The file's own shape.
const SHAPES: &str = r#"
{} | ok
{"events": {}, "commands": {}, "tallies": [], "cells": {}} | ok
[] | bad-recipe
7 | bad-recipe
{"cell": {}} | bad-recipe
{"cells": []} | bad-recipe
{"tallies": {}} | bad-recipe
{"tallies": [1]} | bad-recipe
{"commands": []} | bad-recipe
{"events": 1} | bad-recipe
{ | not-json
{"a": 1, "a": 2} | not-json
"#;

/// Faults of two parts, and which comes first.
const ORDERS: &str = r#"
{"commands": [], "tallies": ["t", "t"]} | bad-recipe
{"tallies": ["a", "t", "t", "a"]} | twice t
{"cells": {"t": 1}, "tallies": ["a", "t"], "commands": {"x": {}}} | twice t
{"commands": {"get": {}, "x": {}, "put": 1}} | unknown-command x
{"commands": {"put": 1, "x": {}}} | bad-recipe put
{"events": {"NONE": {}}, "commands": {"x": {}}} | unknown-command x
{"events": {"NOTE": {}}} | bad-period NOTE
{"events": {"NONE": {}}, "commands": {"put": {}}} | bad-period NONE
{"commands": {"quit": {}}} | unknown-command quit
{"commands": {"qmp_capabilities": {}}} | unknown-command qmp_capabilities
{"commands": {"query-jobs": {}}} | unknown-command query-jobs
{"commands": {"job-dismiss": {}}} | unknown-command job-dismiss
"#;

/// Acts.
const ACTS: &str = r#"
{"commands": {"put": {"act": []}}} | bad-recipe put
{"commands": {"put": {"acts": {}}}} | bad-recipe put
{"commands": {"put": {"acts": [{"set": "c", "to": {"const": 1}}]}}} | bad-recipe put
{"cells": {"c": 1}, "commands": {"put": {"acts": [{"set": "c", "to": {"const": 1}}]}}} | ok
{"cells": {"c": 1}, "commands": {"put": {"acts": [{"to": {"args": true}, "set": "c"}]}}} | ok
{"cells": {"c": 1}, "commands": {"put": {"acts": [{"to": {"args": false}, "set": "c"}]}}} | bad-recipe put
{"cells": {"c": 1}, "commands": {"put": {"acts": [{"set": "c", "to": {"const": 1}, "x": 1}]}}} | bad-recipe put
{"tallies": ["t"], "commands": {"put": {"acts": [{"add": "t", "by": 0}]}}} | bad-recipe put
{"tallies": ["t"], "commands": {"put": {"acts": [{"add": "t", "by": 4294967296}]}}} | bad-recipe put
{"tallies": ["t"], "commands": {"put": {"acts": [{"add": "t", "by": 4294967295}, {"fail": "no"}]}}} | ok
{"tallies": ["t"], "commands": {"put": {"acts": [{"add": "t", "by": 1.0}]}}} | bad-recipe put
{"cells": {"t": 1}, "commands": {"put": {"acts": [{"add": "t", "by": 1}]}}} | bad-recipe put
{"commands": {"put": {"acts": [{"raise": "NOTE"}]}}} | bad-recipe put
{"commands": {"make": {"acts": [{"start": {"id": {"arg": "id"}, "units": 2}}]}}} | bad-recipe make
{"commands": {"put": {"acts": [{"fail": 1}]}}} | bad-recipe put
"#;

/// What is returned, and waiting.
const RETURNS: &str = r#"
{"commands": {"put": {"return": {"arg": "at"}}}} | ok
{"commands": {"put": {"return": {"arg": "x"}}}} | bad-recipe put
{"commands": {"set": {"return": {"arg": "level"}}}} | ok
{"commands": {"set": {"return": {"arg": "tag"}}}} | ok
{"commands": {"set": {"return": {"arg": "lever"}}}} | bad-recipe set
{"commands": {"get": {"return": {"arg": "level"}}}} | bad-recipe get
{"commands": {"free": {"return": {"arg": "anything"}}}} | ok
{"commands": {"put": {"return": {}}}} | bad-recipe put
{"commands": {"put": {"return": {"const": 1, "args": true}}}} | bad-recipe put
{"commands": {"put": {"return": {"Const": 1}}}} | bad-recipe put
{"commands": {"put": {"return": {"object": {"a": {"array": [{"arg": "note"}, {"object": {}}]}}}}}} | ok
{"commands": {"put": {"return": {"object": {"a": {"array": [{"arg": "not"}, {"object": {}}]}}}}}} | bad-recipe put
{"commands": {"put": {"return": {"cell": "c"}}}} | bad-recipe put
{"commands": {"put": {"return": {"tally": "c"}}}} | bad-recipe put
{"commands": {"put": {"wait": "hold"}}} | ok
{"commands": {"put": {"wait": "free", "acts": []}}} | ok
{"commands": {"put": {"wait": "free", "acts": [{"fail": "x"}]}}} | bad-recipe put
{"commands": {"put": {"wait": "no"}}} | bad-recipe put
"#;

fn rule_word(rule: BindRule) -> &'static [u8] {
    match rule {
        BindRule::NotJson(_) => b"not-json",
        BindRule::UnknownCommand => b"unknown-command",
        BindRule::UnknownEvent => b"unknown-event",
        BindRule::BadRecipe => b"bad-recipe",
        BindRule::BadPeriod => b"bad-period",
        BindRule::Twice => b"twice",
        BindRule::Memory => b"memory",
    }
}

fn good_word(is_good: bool) -> &'static [u8] {
    if is_good { b"ok" } else { b"not good" }
}

fn told(alloc: Global, fault: BindFault) -> Result<Text, NoMemory> {
    let mut text = Text::of(alloc, rule_word(fault.rule))?;
    if !fault.name.is_empty() {
        text.extend(b" ")?;
        text.extend(fault.name.as_slice())?;
    }
    Ok(text)
}

fn answer(alloc: Global, schema: &Schema, file: &[u8]) -> Result<Text, NoMemory> {
    match bind(alloc, schema, file) {
        Ok(binding) => Text::of(alloc, good_word(binding_good(schema, &binding))),
        Err(fault) => told(alloc, fault),
    }
}

fn is_answered(alloc: Global, schema: &Schema, row: &str) -> Result<bool, NoMemory> {
    let (file, wanted) = row.split_once(" | ").unwrap_or((row, ""));
    let given = answer(alloc, schema, file.as_bytes())?;
    Ok(given.as_slice() == wanted.as_bytes())
}

/// The first row that has another answer; the empty text where none has.
fn other<'a>(alloc: Global, schema: &Schema, rows: &'a str) -> Result<&'a str, NoMemory> {
    for row in rows.trim().lines() {
        if !is_answered(alloc, schema, row)? {
            return Ok(row);
        }
    }
    Ok("")
}

#[test]
fn shapes(rt: HostRuntime) -> Result<(), Fail> {
    let schema = schema(rt.alloc())?;
    assert_eq!(rt; other(rt.alloc(), &schema, SHAPES)?, "");
    Ok(())
}

#[test]
fn orders(rt: HostRuntime) -> Result<(), Fail> {
    let schema = schema(rt.alloc())?;
    assert_eq!(rt; other(rt.alloc(), &schema, ORDERS)?, "");
    Ok(())
}

#[test]
fn acts(rt: HostRuntime) -> Result<(), Fail> {
    let schema = schema(rt.alloc())?;
    assert_eq!(rt; other(rt.alloc(), &schema, ACTS)?, "");
    Ok(())
}

#[test]
fn returns(rt: HostRuntime) -> Result<(), Fail> {
    let schema = schema(rt.alloc())?;
    assert_eq!(rt; other(rt.alloc(), &schema, RETURNS)?, "");
    Ok(())
}

#[test]
fn another_answer_is_found(rt: HostRuntime) -> Result<(), Fail> {
    let schema = schema(rt.alloc())?;
    assert_eq!(rt; other(rt.alloc(), &schema, "[] | ok")?, "[] | ok");
    Ok(())
}
