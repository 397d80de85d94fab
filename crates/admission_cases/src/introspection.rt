//! Entries of the introspection array as they are printed, and the names that it has for types.

ghost use Rattle.qapi_types.specs.Prelude.{HasPrelude};

use crate::schemas::{SETTINGS, SHOWN, schema_of};
use qapi_mask::{introspect, is_listed, masked};
use qapi_types::Schema;
use qm_base::Text;
use qm_json::Json;
use std::alloc::Global;
use std::process::Abort;
use std::test::Fail;

// Each row is the number of an entry, counted from 1, and the entry, or `none`.

/// The array of the definitions that stand before each schema.
const OF_NO_SCHEMA: &str = r#"0|none
1|{"name": "qmp_capabilities", "meta-type": "command", "arg-type": "0", "ret-type": "1"}
2|{"name": "query-version", "meta-type": "command", "arg-type": "1", "ret-type": "2"}
3|{"name": "query-commands", "meta-type": "command", "arg-type": "1", "ret-type": "[3]"}
4|{"name": "query-qmp-schema", "meta-type": "command", "arg-type": "1", "ret-type": "[any]"}
5|{"name": "query-jobs", "meta-type": "command", "arg-type": "1", "ret-type": "[4]"}
6|{"name": "job-cancel", "meta-type": "command", "arg-type": "5", "ret-type": "1"}
7|{"name": "job-pause", "meta-type": "command", "arg-type": "6", "ret-type": "1"}
8|{"name": "job-resume", "meta-type": "command", "arg-type": "7", "ret-type": "1"}
9|{"name": "job-complete", "meta-type": "command", "arg-type": "8", "ret-type": "1"}
10|{"name": "job-finalize", "meta-type": "command", "arg-type": "9", "ret-type": "1"}
11|{"name": "job-dismiss", "meta-type": "command", "arg-type": "10", "ret-type": "1"}
12|{"name": "quit", "meta-type": "command", "arg-type": "1", "ret-type": "1"}
13|{"name": "JOB_STATUS_CHANGE", "meta-type": "event", "arg-type": "11"}
14|{"name": "0", "meta-type": "object", "members": [{"name": "enable", "type": "[12]", "default": null}]}
15|{"name": "1", "meta-type": "object", "members": []}
16|{"name": "2", "meta-type": "object", "members": [{"name": "qemu", "type": "13"}, {"name": "package", "type": "str"}]}
17|{"name": "[3]", "meta-type": "array", "element-type": "3"}
18|{"name": "[any]", "meta-type": "array", "element-type": "any"}
19|{"name": "[4]", "meta-type": "array", "element-type": "4"}
20|{"name": "5", "meta-type": "object", "members": [{"name": "id", "type": "str"}]}
21|{"name": "6", "meta-type": "object", "members": [{"name": "id", "type": "str"}]}
22|{"name": "7", "meta-type": "object", "members": [{"name": "id", "type": "str"}]}
23|{"name": "8", "meta-type": "object", "members": [{"name": "id", "type": "str"}]}
24|{"name": "9", "meta-type": "object", "members": [{"name": "id", "type": "str"}]}
25|{"name": "10", "meta-type": "object", "members": [{"name": "id", "type": "str"}]}
26|{"name": "11", "meta-type": "object", "members": [{"name": "id", "type": "str"}, {"name": "status", "type": "14"}]}
27|{"name": "[12]", "meta-type": "array", "element-type": "12"}
28|{"name": "13", "meta-type": "object", "members": [{"name": "micro", "type": "int"}, {"name": "minor", "type": "int"}, {"name": "major", "type": "int"}]}
29|{"name": "str", "meta-type": "builtin", "json-type": "string"}
30|{"name": "3", "meta-type": "object", "members": [{"name": "name", "type": "str"}]}
31|{"name": "any", "meta-type": "builtin", "json-type": "value"}
32|{"name": "4", "meta-type": "object", "members": [{"name": "id", "type": "str"}, {"name": "status", "type": "14"}, {"name": "current-progress", "type": "int"}, {"name": "total-progress", "type": "int"}]}
33|{"name": "14", "meta-type": "enum", "members": [{"name": "undefined"}, {"name": "created"}, {"name": "running"}, {"name": "paused"}, {"name": "ready"}, {"name": "standby"}, {"name": "waiting"}, {"name": "pending"}, {"name": "aborting"}, {"name": "concluded"}, {"name": "null"}], "values": ["undefined", "created", "running", "paused", "ready", "standby", "waiting", "pending", "aborting", "concluded", "null"]}
34|{"name": "12", "meta-type": "enum", "members": [{"name": "oob"}], "values": ["oob"]}
35|{"name": "int", "meta-type": "builtin", "json-type": "int"}
36|none
"#;

/// A union, an alternate, and lists of members that are written twice.
const OF_SETTINGS: &str =
    r#"14|{"name": "set", "meta-type": "command", "arg-type": "12", "ret-type": "1"}
15|{"name": "get", "meta-type": "command", "arg-type": "1", "ret-type": "13"}
16|{"name": "put", "meta-type": "command", "arg-type": "14", "ret-type": "int"}
17|{"name": "ping", "meta-type": "command", "arg-type": "1", "ret-type": "int", "allow-oob": true}
21|{"name": "NOTE", "meta-type": "event", "arg-type": "17"}
22|{"name": "note", "meta-type": "command", "arg-type": "18", "ret-type": "1"}
23|{"name": "0", "meta-type": "object", "members": [{"name": "enable", "type": "[19]", "default": null}]}
36|{"name": "12", "meta-type": "object", "members": [{"name": "mode", "type": "13"}, {"name": "tag", "type": "str", "default": null}], "tag": "mode", "variants": [{"case": "slow", "type": "1"}, {"case": "fast", "type": "22"}, {"case": "off", "type": "1"}]}
37|{"name": "13", "meta-type": "enum", "members": [{"name": "slow"}, {"name": "fast"}, {"name": "off"}], "values": ["slow", "fast", "off"]}
38|{"name": "14", "meta-type": "object", "members": [{"name": "at", "type": "23"}, {"name": "note", "type": "str", "default": null}]}
39|{"name": "int", "meta-type": "builtin", "json-type": "int"}
42|{"name": "17", "meta-type": "object", "members": [{"name": "port", "type": "str"}, {"name": "n", "type": "int"}]}
43|{"name": "18", "meta-type": "object", "members": [{"name": "port", "type": "str"}, {"name": "n", "type": "int"}]}
44|{"name": "[19]", "meta-type": "array", "element-type": "19"}
51|{"name": "22", "meta-type": "object", "members": [{"name": "level", "type": "int"}]}
52|{"name": "23", "meta-type": "alternate", "members": [{"type": "int"}, {"type": "str"}]}
53|{"name": "19", "meta-type": "enum", "members": [{"name": "oob"}], "values": ["oob"]}
54|none
"#;

/// Features, types without members, a command with `gen` false, and arrays of whole numbers.
const OF_SHOWN: &str =
    r#"14|{"name": "bare", "meta-type": "command", "arg-type": "1", "ret-type": "12"}
15|{"name": "empty", "meta-type": "command", "arg-type": "13", "ret-type": "1"}
16|{"name": "MARK", "meta-type": "event", "arg-type": "14", "features": ["loud"]}
17|{"name": "one", "meta-type": "command", "arg-type": "15", "ret-type": "1"}
18|{"name": "two", "meta-type": "command", "arg-type": "16", "ret-type": "[int]"}
19|{"name": "free", "meta-type": "command", "arg-type": "any", "ret-type": "17", "allow-oob": true, "features": ["raw"]}
20|{"name": "both", "meta-type": "command", "arg-type": "18", "ret-type": "1"}
21|{"name": "MARK-TWO", "meta-type": "event", "arg-type": "1"}
23|{"name": "1", "meta-type": "object", "members": []}
35|{"name": "12", "meta-type": "object", "members": []}
36|{"name": "13", "meta-type": "object", "members": []}
37|{"name": "14", "meta-type": "object", "members": [{"name": "level", "type": "22"}, {"name": "wide", "type": "number", "default": null}, {"name": "small", "type": "[int]", "default": null, "features": ["x", "y"]}, {"name": "none", "type": "null"}], "features": ["z"]}
38|{"name": "15", "meta-type": "object", "members": [{"name": "n", "type": "int"}]}
39|{"name": "16", "meta-type": "object", "members": [{"name": "n", "type": "int"}]}
40|{"name": "[int]", "meta-type": "array", "element-type": "int"}
41|{"name": "any", "meta-type": "builtin", "json-type": "value"}
42|{"name": "17", "meta-type": "alternate", "members": [{"type": "[int]"}, {"type": "bool"}, {"type": "23"}], "features": ["loose"]}
43|{"name": "18", "meta-type": "object", "members": [{"name": "level", "type": "22"}, {"name": "wide", "type": "number", "default": null}], "tag": "level", "variants": [{"case": "low", "type": "1"}, {"case": "high", "type": "12"}], "features": ["joint"]}
50|{"name": "22", "meta-type": "enum", "members": [{"name": "low"}, {"name": "high", "features": ["fresh"]}], "values": ["low", "high"], "features": ["old", "odd"]}
51|{"name": "number", "meta-type": "builtin", "json-type": "number"}
52|{"name": "null", "meta-type": "builtin", "json-type": "null"}
53|{"name": "int", "meta-type": "builtin", "json-type": "int"}
54|{"name": "bool", "meta-type": "builtin", "json-type": "boolean"}
55|{"name": "23", "meta-type": "enum", "members": [{"name": "none"}, {"name": "qnull"}, {"name": "qnum"}, {"name": "qstring"}, {"name": "qdict"}, {"name": "qlist"}, {"name": "qbool"}], "values": ["none", "qnull", "qnum", "qstring", "qdict", "qlist", "qbool"]}
56|{"name": "19", "meta-type": "enum", "members": [{"name": "oob"}], "values": ["oob"]}
57|none
"#;

/// Numbers of types, and their names: those that are defined, from 12 on the built-in ones, and
/// from 28 on arrays, lists of members and the type of the empty object, as they are first needed.
const NAMES_IN_SHOWN: &str = "\
0|19
1|20
2|2
4|21
5|4
6|22
7|12
8|unlisted
9|14
10|18
11|17
12|str
13|number
14|int
15|int
18|int
23|int
24|bool
25|null
26|any
27|23
28|0
29|[19]
30|1
31|[3]
32|[any]
41|[int]
42|[int]
43|13
44|15
45|16
46|[int]
47|unlisted
48|none
";

/// The same, where the built-in types begin at 11.
const NAMES_IN_SETTINGS: &str = "\
0|19
6|13
7|unlisted
8|22
9|12
10|23
11|str
12|unlisted
13|int
22|int
23|unlisted
24|unlisted
25|any
26|unlisted
";

fn printed(alloc: Global, value: &Json) -> Result<Text, Fail> {
    let mut text = Text::new(alloc);
    value.write_text(&mut text)?;
    Ok(text)
}

fn text_of(alloc: Global, text: &str) -> Result<Text, Fail> {
    Ok(Text::of(alloc, text.as_bytes())?)
}

/// The entry of the number, counted from 1, or `none`.
fn entry(alloc: Global, array: &Json, number: u32) -> Result<Text, Fail> {
    let (Json::Arr(entries), Some(place)) = (array, number.checked_sub(1)) else {
        return text_of(alloc, "none");
    };
    match entries.get(place as usize) {
        Some(entry) => printed(alloc, entry),
        None => text_of(alloc, "none"),
    }
}

fn listed_name(alloc: Global, schema: &Schema, number: u32) -> Result<Text, Fail>
    requires { HasPrelude schema.now }
{
    if number >= schema.types() {
        return text_of(alloc, "none");
    }
    if !is_listed(alloc, schema, number)? {
        return text_of(alloc, "unlisted");
    }
    Ok(masked(alloc, schema, number)?)
}

fn has_entry(alloc: Global, array: &Json, row: &str) -> Result<bool, Fail> {
    let (number, wanted) = row.split_once("|").unwrap_or((row, ""));
    let given = entry(alloc, array, number.parse::<u32>()?)?;
    Ok(given.as_slice() == wanted.as_bytes())
}

fn has_name(alloc: Global, schema: &Schema, row: &str) -> Result<bool, Fail>
    requires { HasPrelude schema.now }
{
    let (number, wanted) = row.split_once("|").unwrap_or((row, ""));
    let given = listed_name(alloc, schema, number.parse::<u32>()?)?;
    Ok(given.as_slice() == wanted.as_bytes())
}

/// The first row that has another entry in the array, or the empty text.
fn first_other_entry<'a>(alloc: Global, array: &Json, rows: &'a str) -> Result<&'a str, Fail> {
    for row in rows.lines() {
        if !has_entry(alloc, array, row)? {
            return Ok(row);
        }
    }
    Ok("")
}

/// The first row that has another name, or the empty text.
fn first_other_name<'a>(alloc: Global, schema: &Schema, rows: &'a str) -> Result<&'a str, Fail>
    requires { HasPrelude schema.now }
{
    for row in rows.lines() {
        if !has_name(alloc, schema, row)? {
            return Ok(row);
        }
    }
    Ok("")
}

/// Asserts that this is the first row that has another entry in the array of the schema.
fn expect_entries(
    rt: &(impl Abort + AllocGlobal),
    schema: &str,
    rows: &str,
    other: &str,
) -> Result<(), Fail> {
    let schema = schema_of(rt.alloc(), schema)?;
    let array = introspect(rt.alloc(), &schema)?;
    assert_eq!(rt; first_other_entry(rt.alloc(), &array, rows)?, other);
    Ok(())
}

/// Asserts that this is the first row that has another name in the schema.
fn expect_names(
    rt: &(impl Abort + AllocGlobal),
    schema: &str,
    rows: &str,
    other: &str,
) -> Result<(), Fail> {
    let schema = schema_of(rt.alloc(), schema)?;
    assert_eq!(rt; first_other_name(rt.alloc(), &schema, rows)?, other);
    Ok(())
}

#[test]
fn entries_without_a_schema(rt: HostRuntime) -> Result<(), Fail> {
    expect_entries(&rt, "", OF_NO_SCHEMA, "")
}

#[test]
fn entries_of_unions_and_alternates(rt: HostRuntime) -> Result<(), Fail> {
    expect_entries(&rt, SETTINGS, OF_SETTINGS, "")
}

#[test]
fn entries_with_features(rt: HostRuntime) -> Result<(), Fail> {
    expect_entries(&rt, SHOWN, OF_SHOWN, "")
}

#[test]
fn another_entry_is_told(rt: HostRuntime) -> Result<(), Fail> {
    expect_entries(&rt, "", "1|none", "1|none")
}

#[test]
fn types_have_names(rt: HostRuntime) -> Result<(), Fail> {
    expect_names(&rt, SHOWN, NAMES_IN_SHOWN, "")
}

#[test]
fn settings_have_names(rt: HostRuntime) -> Result<(), Fail> {
    expect_names(&rt, SETTINGS, NAMES_IN_SETTINGS, "")
}

#[test]
fn another_name_is_told(rt: HostRuntime) -> Result<(), Fail> {
    expect_names(&rt, SHOWN, "8|16", "8|16")
}
