//! Values at what commands take and return, at the data of events and at types.

use crate::schemas::{BUILT_IN, CELLS, SETTINGS, schema_of};
use crate::verdicts::is_answer;
use qapi_types::Schema;
use qm_json::Json;
use qm_read::read;
use std::alloc::Global;
use std::process::Abort;
use std::test::Fail;

// Each row is an answer, a call and values that have this answer, where `none` stands for no
// arguments.

/// The ends of a range, and a union.
const OF_SETTINGS: &str = r#"yes|args level|{"n": 127}; {"n": -128}
out-of-range n|args level|{"n": 128}; {"n": -129}
wrong-kind n|args level|{"n": 1.0}
missing mode|args set|none; {}
unexpected level|args set|{"mode": "slow", "level": 1}
yes|args set|{"mode": "off"}; {"mode": "fast", "level": 3}; {"level": 3, "tag": "t", "mode": "fast"}
missing level|args set|{"mode": "fast"}
bad-enum mode|args set|{"mode": "x"}
"#;

/// Each fault in the value itself or at one of its members.
const AT_THE_TOP: &str =
    r#"yes|args hold|{"n": 1}; {"list": [], "n": -1, "in": {"n": 2}, "few": "a", "color": "red"}
missing n|args hold|none; {}; {"color": "red"}
unexpected x|args hold|{"n": 1, "x": null}; {"x": {"n": 1}, "n": 1}
wrong-kind n|args hold|{"n": "1"}; {"n": null}; {"n": [1]}; {"n": 1.5}; {"n": 1e0}
out-of-range n|args hold|{"n": 128}; {"n": 18446744073709551615}
bad-enum color|args hold|{"n": 1, "color": "pink"}; {"n": 1, "color": ""}; {"n": 1, "color": "RED"}
no-alternative few|args hold|{"n": 1, "few": true}; {"n": 1, "few": {"s": "a"}}
wrong-kind|args hold|null; true; 1; 1.5; "n"; []; [{"n": 1}]
yes|return color|"red"; "green"
bad-enum|return color|"pink"; "redgreen"
wrong-kind|return color|null; 0; []; {}
wrong-kind|return cells|null; 0; "a"; {}; {"0": {"n": 1}}
"#;

/// The same in a member of a member.
const IN_A_MEMBER: &str = r#"yes|args hold|{"n": 1, "in": {"n": 1, "in": {"n": 1}}}
missing in.n|args hold|{"n": 1, "in": {}}
unexpected in.x|args hold|{"n": 1, "in": {"n": 1, "x": 1}}
wrong-kind in|args hold|{"n": 1, "in": 1}
wrong-kind in.n|args hold|{"n": 1, "in": {"n": {}}}
out-of-range in.n|args hold|{"n": 1, "in": {"n": 128}}
bad-enum in.color|args hold|{"n": 1, "in": {"n": 1, "color": "blue"}}
no-alternative in.few|args hold|{"n": 1, "in": {"n": 1, "few": []}}
missing in.in.n|args hold|{"n": 1, "in": {"n": 1, "in": {"few": 1}}}
"#;

/// The same in an element.
const IN_AN_ELEMENT: &str =
    r#"yes|return cells|[]; [{"n": 1}]; [{"n": 1}, {"n": 2, "list": [{"n": 3}, {"n": 4}]}]
missing [0].n|return cells|[{}]; [{}, {}]
unexpected [1].x|return cells|[{"n": 1}, {"n": 1, "x": 1}]
wrong-kind [2]|return cells|[{"n": 1}, {"n": 1}, []]
wrong-kind [1].n|return cells|[{"n": 1}, {"n": "1"}]
out-of-range [0].n|return cells|[{"n": -129}, {"n": 1}]
bad-enum [0].color|return cells|[{"n": 1, "color": "blue"}]
no-alternative [0].few|return cells|[{"n": 1, "few": null}]
missing list[1].n|args hold|{"n": 1, "list": [{"n": 1}, {}]}
out-of-range [1].list[0].in.list[2].n|return cells|[{"n": 1}, {"n": 1, "list": [{"n": 1, "in": {"n": 1, "list": [{"n": 1}, {"n": 1}, {"n": 128}]}}]}]
"#;

/// The same in the branch of a branch, whose members stand beside those of the union.
const IN_A_BRANCH: &str = r#"yes|args draw|{"outer": "flat"}; {"outer": "deep", "inner": "none"}
yes|args draw|{"outer": "deep", "inner": "cell", "n": 1}; {"n": 1, "inner": "cell", "id": 1, "color": "red", "outer": "deep"}
missing inner|args draw|{"outer": "deep"}
missing n|args draw|{"outer": "deep", "inner": "cell"}
unexpected x|args draw|{"outer": "deep", "inner": "cell", "n": 1, "x": 1}
wrong-kind n|args draw|{"outer": "deep", "inner": "cell", "n": true}
out-of-range n|args draw|{"outer": "deep", "inner": "cell", "n": 128}
bad-enum color|args draw|{"outer": "deep", "inner": "cell", "n": 1, "color": "blue"}
no-alternative few|args draw|{"outer": "deep", "inner": "cell", "n": 1, "few": {}}
missing list[0].n|args draw|{"outer": "deep", "inner": "cell", "n": 1, "list": [{}]}
unexpected inner|args draw|{"outer": "flat", "inner": "cell", "n": 1}
unexpected n|args draw|{"outer": "deep", "inner": "none", "n": 1}
bad-enum inner|args draw|{"outer": "deep", "inner": "deep"}
wrong-kind inner|args draw|{"outer": "deep", "inner": 1}
"#;

/// Of several faults the first.
const FIRST_OF_SEVERAL: &str =
    r#"missing n|args hold|{"x": 1}; {"x": 1, "color": "blue"}; {"color": 1, "in": {}}
out-of-range n|args hold|{"x": 1, "n": 128}; {"color": "blue", "n": 128}
bad-enum color|args hold|{"x": 1, "few": [], "color": "blue", "n": 1}
missing in.n|args hold|{"list": [{}], "in": {}, "n": 1}
unexpected in.y|args hold|{"x": 1, "n": 1, "list": 1, "in": {"y": 1, "n": 1}}
unexpected z|args hold|{"z": 1, "n": 1, "a": 2}; {"n": 1, "z": 1, "a": 2}
out-of-range [1].n|return cells|[{"n": 1}, {"n": 128}, {}, 1]
missing outer|args draw|{"x": 1}; {"inner": "cell", "n": 128, "id": 128}
bad-enum outer|args draw|{"inner": "cell", "n": 128, "id": 128, "outer": "x"}
out-of-range id|args draw|{"inner": "x", "n": 128, "id": 128, "outer": "deep"}
bad-enum inner|args draw|{"x": 1, "n": 128, "inner": "x", "outer": "deep"}
out-of-range n|args draw|{"x": 1, "n": 128, "inner": "cell", "outer": "deep"}
missing n|args draw|{"x": 1, "color": "blue", "inner": "cell", "outer": "deep"}
unexpected x|args draw|{"x": 1, "y": 1, "n": 1, "inner": "cell", "outer": "deep"}
missing each|args place|{"shapes": [{}]}
bad-enum shapes[1].outer|args place|{"x": 1, "shapes": [{"outer": "flat"}, {"outer": "x"}], "each": null}
"#;

/// Alternates, with values of each kind.
const ALTERNATES: &str =
    r#"yes|return each|null; true; false; 0; 255; "red"; []; [1, -128]; {"outer": "flat"}
out-of-range|return each|256; -1
wrong-kind|return each|1.5; 18446744073709551616
bad-enum|return each|"pink"
out-of-range [1]|return each|[1, 128]
wrong-kind [0]|return each|["1"]; [null]; [[]]
missing outer|return each|{}
missing n|return each|{"outer": "deep", "inner": "cell"}
unexpected n|return each|{"n": 1, "outer": "flat"}
yes|return few|"a"; ""; 0; 65535
no-alternative|return few|null; true; []; [1]; {}
out-of-range|return few|65536; -1
wrong-kind|return few|0.5
missing each.outer|args place|{"each": {}}
out-of-range each[1]|args place|{"each": [0, 128]}
yes|args place|{"each": null}; {"each": [], "shapes": [{"outer": "flat"}]}
"#;

/// A command without data or with `gen` false, events, and types by their numbers.
const OTHER_CALLS: &str = r#"yes|args plain|none; {}
unexpected a|args plain|{"a": 1}
wrong-kind|args plain|[]; null
yes|return plain|{}
unexpected a|return plain|{"a": 1}
wrong-kind|return plain|null
yes|args free|none; {}; {"n": "x"}; {"a": {"b": [1]}}
wrong-kind|args free|null; true; 1; 1.5; "n"; []; [{}]
yes|event MOVED|{"n": 1}
missing n|event MOVED|{}
missing in.n|event MOVED|{"n": 1, "in": {}}
yes|event GONE|{}
unexpected n|event GONE|{"n": 1}
wrong-kind|event GONE|null
yes|event JOB_STATUS_CHANGE|{"status": "null", "id": "j"}
bad-enum status|event JOB_STATUS_CHANGE|{"status": "gone", "id": "j"}
yes|args qmp_capabilities|none; {}; {"enable": []}; {"enable": ["oob", "oob"]}
bad-enum enable[1]|args qmp_capabilities|{"enable": ["oob", "x"]}
yes|type 6|"red"
bad-enum|type 6|"oob"
bad-enum|type 0|"red"
yes|type 8|{"n": 1}
missing qemu.minor|type 2|{"package": "p", "qemu": {"micro": 1, "major": 1}}
yes|type 12|{"outer": "flat"}
no-alternative|type 7|{}
"#;

/// The built-in types but those of whole numbers.
const KINDS: &str = r#"yes|return get-str|""; "a"
wrong-kind|return get-str|null; true; 1; 1.5; []; ["a"]; {}
yes|return get-number|0; -1; 18446744073709551615; 1.5; 1e400; 18446744073709551616
wrong-kind|return get-number|null; true; "1"; [1]; {}
yes|return get-bool|true; false
wrong-kind|return get-bool|null; 1; 0.0; "true"; [true]; {}
yes|return get-null|null
wrong-kind|return get-null|false; 0; 0.0; "null"; []; {}
yes|return get-any|null; true; -1; 1e5; "a"; []; [1, [null]]; {}; {"a": {"b": [true, "c"]}}
yes|return get-anys|[]; [null, true, 1, 1.5, "a", [], {"a": 1}]
wrong-kind|return get-anys|null; {}; "a"
yes|return get-type|"none"; "qnull"; "qnum"; "qstring"; "qdict"; "qlist"; "qbool"
bad-enum|return get-type|"QNULL"; "qint"
wrong-kind|return get-type|null; 1; {}
wrong-kind|return get-int|null; true; "1"; [1]; {}; 1.0; 1e0; -0.0
"#;

/// The types of whole numbers, whose texts past 64 bits are numbers but not whole ones.
const WHOLE_NUMBERS: &str =
    r#"yes|return get-int|-9223372036854775808; -1; 0; -0; 9223372036854775807
out-of-range|return get-int|9223372036854775808; 18446744073709551615
wrong-kind|return get-int|-9223372036854775809; 18446744073709551616
yes|return get-int8|-128; 127
out-of-range|return get-int8|-129; 128
yes|return get-int16|-32768; 32767
out-of-range|return get-int16|-32769; 32768
yes|return get-int32|-2147483648; 2147483647
out-of-range|return get-int32|-2147483649; 2147483648
yes|return get-int64|-9223372036854775808; 9223372036854775807
out-of-range|return get-int64|9223372036854775808
wrong-kind|return get-int64|-9223372036854775809
yes|return get-uint8|0; 255
out-of-range|return get-uint8|-1; 256
yes|return get-uint16|0; 65535
out-of-range|return get-uint16|-1; 65536
yes|return get-uint32|0; 4294967295
out-of-range|return get-uint32|-1; 4294967296
yes|return get-uint64|0; 18446744073709551615
out-of-range|return get-uint64|-1; -9223372036854775808
wrong-kind|return get-uint64|18446744073709551616
yes|return get-size|0; 18446744073709551615
out-of-range|return get-size|-1
wrong-kind|return get-size|18446744073709551616
"#;

fn value_of(alloc: Global, text: &str) -> Result<Option<Json>, Fail> {
    match text {
        "none" => Ok(None),
        _ => Ok(Some(read(alloc, text.as_bytes())?)),
    }
}

/// Whether the value of this text has the answer.
fn has_answer(
    alloc: Global,
    schema: &Schema,
    call: &str,
    text: &str,
    wanted: &str,
) -> Result<bool, Fail> {
    let value = value_of(alloc, text)?;
    is_answer(alloc, schema, call, value.as_ref(), wanted)
}

/// Whether each of the values has the answer.
fn have_answer(
    alloc: Global,
    schema: &Schema,
    call: &str,
    texts: &str,
    wanted: &str,
) -> Result<bool, Fail> {
    for text in texts.split("; ") {
        if !has_answer(alloc, schema, call, text, wanted)? {
            return Ok(false);
        }
    }
    Ok(true)
}

/// Whether all values of the row have its answer.
fn is_answered(alloc: Global, schema: &Schema, row: &str) -> Result<bool, Fail> {
    let (wanted, rest) = row.split_once("|").unwrap_or((row, ""));
    let (call, texts) = rest.split_once("|").unwrap_or((rest, ""));
    have_answer(alloc, schema, call, texts, wanted)
}

/// The first row that has another answer over the schema, or the empty text.
fn first_other<'a>(alloc: Global, schema: &Schema, rows: &'a str) -> Result<&'a str, Fail> {
    for row in rows.lines() {
        if !is_answered(alloc, schema, row)? {
            return Ok(row);
        }
    }
    Ok("")
}

/// Asserts that this is the first row that has another answer over the schema of the text.
fn expect(
    rt: &(impl Abort + AllocGlobal),
    schema: &str,
    rows: &str,
    other: &str,
) -> Result<(), Fail> {
    let schema = schema_of(rt.alloc(), schema)?;
    assert_eq!(rt; first_other(rt.alloc(), &schema, rows)?, other);
    Ok(())
}

#[test]
fn another_answer_is_told(rt: HostRuntime) -> Result<(), Fail> {
    let wrong = "yes|args hold|{\"n\": 1}; {}";
    expect(&rt, CELLS, wrong, wrong)
}

#[test]
fn settings_are_judged(rt: HostRuntime) -> Result<(), Fail> {
    expect(&rt, SETTINGS, OF_SETTINGS, "")
}

#[test]
fn values_have_faults(rt: HostRuntime) -> Result<(), Fail> {
    expect(&rt, CELLS, AT_THE_TOP, "")
}

#[test]
fn members_have_faults(rt: HostRuntime) -> Result<(), Fail> {
    expect(&rt, CELLS, IN_A_MEMBER, "")
}

#[test]
fn elements_have_faults(rt: HostRuntime) -> Result<(), Fail> {
    expect(&rt, CELLS, IN_AN_ELEMENT, "")
}

#[test]
fn branches_have_faults(rt: HostRuntime) -> Result<(), Fail> {
    expect(&rt, CELLS, IN_A_BRANCH, "")
}

#[test]
fn the_first_fault_is_told(rt: HostRuntime) -> Result<(), Fail> {
    expect(&rt, CELLS, FIRST_OF_SEVERAL, "")
}

#[test]
fn alternates_take_a_value_of_each_kind(rt: HostRuntime) -> Result<(), Fail> {
    expect(&rt, CELLS, ALTERNATES, "")
}

#[test]
fn calls_are_judged_at_their_types(rt: HostRuntime) -> Result<(), Fail> {
    expect(&rt, CELLS, OTHER_CALLS, "")
}

#[test]
fn built_in_types_have_their_kinds(rt: HostRuntime) -> Result<(), Fail> {
    expect(&rt, BUILT_IN, KINDS, "")
}

#[test]
fn whole_numbers_have_ranges(rt: HostRuntime) -> Result<(), Fail> {
    expect(&rt, BUILT_IN, WHOLE_NUMBERS, "")
}
