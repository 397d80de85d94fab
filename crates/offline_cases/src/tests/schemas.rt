//! Schemas, and what `check` puts of each.

use super::{conditions, halves, name_rules, other_answers, run, type_rules};
use std::alloc::{AllocError, Global};
use std::test::Fail;

/// Two files, of which the first includes the second.
const MACHINE: &str = "\
vm/main.json
# A machine.
{ 'pragma': { 'doc-required': true } }
{ 'include': 'common.json' }
{ 'enum': 'RunState', 'data': [ 'paused', 'running', { 'name': 'colo', 'if': 'CONFIG_COLO' } ] }
{ 'struct': 'StatusInfo', 'data': { 'running': 'bool', 'status': 'RunState' } }
{ 'command': 'query-status', 'returns': 'StatusInfo', 'allow-preconfig': true }
{ 'command': 'stop' }
{ 'event': 'STOP' }
{ 'command': 'blockdev-add', 'data': 'BlockdevOptions', 'boxed': true }
{ 'command': 'x-old', 'features': [ 'deprecated' ], 'if': { 'not': 'NO_OLD' } }
{ 'command': 'yank-all', 'allow-oob': true }
@
vm/common.json
{ 'enum': 'Driver', 'data': [ 'file', 'raw' ] }
{ 'struct': 'OptionsFile', 'data': { 'filename': 'str', '*size': 'size' } }
{ 'struct': 'OptionsRaw', 'data': { 'file': 'BlockdevRef' } }
{ 'alternate': 'BlockdevRef', 'data': { 'definition': 'BlockdevOptions', 'reference': 'str' } }
{ 'union': 'BlockdevOptions', 'base': { 'driver': 'Driver', '*node-name': 'str' },
  'discriminator': 'driver', 'data': { 'file': 'OptionsFile', 'raw': 'OptionsRaw' } }
";

const COUNTED: &str = "\
$ check --schema vm/main.json
= 0
ok 17 commands, 2 events, 13 types
$ check --define=NO_OLD --workers=2 --schema vm/main.json
= 0
ok 16 commands, 2 events, 13 types
";

/// An included file whose second definition breaks a rule, and a file that includes itself.
const FAULTY: &str = "\
a.json
{ 'include': 'd/b.json' }
{ 'struct': '1', 'data': {} }
@
d/b.json
{ 'struct': 'B', 'data': {} }

{ 'struct': 'C', 'data': { '-': 'B' } }
@
c.json
{ 'include': 'c.json' }
";

const REFUSED: &str = "\
$ check --schema a.json
= 3
error: schema d/b.json line 3: bad-name -
$ check --schema=c.json
= 3
error: schema c.json line 1: include-cycle c.json
$ check --schema e.json
= 3
error: schema e.json line 0: no-file e.json
";

/// What `check` answers for a schema, of which `^` stands for a line's end.
fn judged(alloc: Global, defines: &str, schema: &str) -> Result<String, Fail> {
    let words = format!(in alloc; "check --schema a.json --define {}", defines)?;
    let schema = schema.replace(alloc, "^", "\n")?;
    let files = format!(in alloc; "a.json\n{}", schema.as_str())?;
    run(alloc, words.as_str(), files.as_str(), 0, 0)
}

/// The whole answer where the schema has no fault, or where this is its fault.
fn wanted(alloc: Global, told: &str) -> Result<String, AllocError> {
    if told.starts_with("ok ") {
        format!(in alloc; "0\n{}\n", told)
    } else {
        format!(in alloc; "3\nerror: schema a.json line {}\n", told)
    }
}

/// The schema and its answer, where this is another.
fn other_fault(alloc: Global, defines: &str, told: &str, schema: &str) -> Result<String, Fail> {
    let given = judged(alloc, defines, schema)?;
    if given.as_str() == wanted(alloc, told)?.as_str() {
        return Ok(String::new(alloc));
    }
    Ok(format!(in alloc; "{} gives {}", schema, given.as_str())?)
}

/// What is told of the rows that are answered otherwise. A row has the names that are defined, what
/// is told, and the schema, in which `~` stands for 256 letters.
fn other_rows(alloc: Global, rows: &str) -> Result<String, Fail> {
    let rows = rows.replace(alloc, "~", "a".repeat(alloc, 256)?.as_str())?;
    let mut others = String::new(alloc);
    for row in rows.as_str().lines() {
        let (defines, rest) = halves(row, " | ");
        let (told, schema) = halves(rest, " | ");
        others.push_str(other_fault(alloc, defines, told, schema)?.as_str())?;
    }
    Ok(others)
}

/// The same of rows with what is told where `X` is defined, what is told where it is not, and the
/// schema.
fn others_behind(alloc: Global, rows: &str) -> Result<String, Fail> {
    let mut others = String::new(alloc);
    for row in rows.lines() {
        let (with, rest) = halves(row, " | ");
        let (without, schema) = halves(rest, " | ");
        others.push_str(other_fault(alloc, "X", with, schema)?.as_str())?;
        others.push_str(other_fault(alloc, "W", without, schema)?.as_str())?;
    }
    Ok(others)
}

#[test]
fn names_are_judged(rt: HostRuntime) -> Result<(), Fail> {
    assert_eq!(rt; other_rows(rt.alloc(), name_rules::NAMES)?.as_str(), "");
    assert_eq!(rt; other_rows(rt.alloc(), name_rules::FORMS)?.as_str(), "");
    assert_eq!(rt; other_rows(rt.alloc(), name_rules::ALONE)?.as_str(), "");
    Ok(())
}

#[test]
fn references_are_judged(rt: HostRuntime) -> Result<(), Fail> {
    assert_eq!(rt;
        other_rows(rt.alloc(), type_rules::REFERENCES)?.as_str(),
        ""
    );
    assert_eq!(rt; other_rows(rt.alloc(), type_rules::ORDER)?.as_str(), "");
    Ok(())
}

#[test]
fn conditions_come_first(rt: HostRuntime) -> Result<(), Fail> {
    assert_eq!(rt;
        other_rows(rt.alloc(), conditions::CONDITIONS)?.as_str(),
        ""
    );
    assert_eq!(rt; other_rows(rt.alloc(), conditions::LOADING)?.as_str(), "");
    assert_eq!(rt; others_behind(rt.alloc(), conditions::BEHIND)?.as_str(), "");
    let other = other_rows(rt.alloc(), "W | ok | ;\n")?;
    assert_eq!(rt;
        other.as_str(),
        "; gives 3\nerror: schema a.json line 1: bad-byte\n"
    );
    Ok(())
}

#[test]
fn schemas_of_several_files(rt: HostRuntime) -> Result<(), Fail> {
    assert_eq!(rt; other_answers(rt.alloc(), MACHINE, COUNTED)?.as_str(), "");
    assert_eq!(rt; other_answers(rt.alloc(), FAULTY, REFUSED)?.as_str(), "");
    let given = run(rt.alloc(), "check", "", 0, 0)?;
    assert_eq!(rt; given.as_str(), "0\nok 12 commands, 1 events, 6 types\n");
    Ok(())
}

/// A file that includes so many others, each of which is empty, and these.
fn including(alloc: Global, count: u32) -> Result<String, AllocError> {
    let mut files = String::from_str(alloc, "a.json\n")?;
    let mut others = String::new(alloc);
    for number in 0..count {
        files.push_str(format!(in alloc; "{{ 'include': '{}' }}\n", number)?.as_str())?;
        others.push_str(format!(in alloc; "@\n{}\n", number)?.as_str())?;
    }
    files.push_str(others.as_str())?;
    Ok(files)
}

#[test]
fn a_257th_file_is_one_too_many(rt: HostRuntime) -> Result<(), Fail> {
    let words = "check --schema a.json";
    let most = including(rt.alloc(), 255)?;
    let given = run(rt.alloc(), words, most.as_str(), 0, 0)?;
    assert_eq!(rt; given.as_str(), "0\nok 12 commands, 1 events, 6 types\n");
    let more = including(rt.alloc(), 256)?;
    let given = run(rt.alloc(), words, more.as_str(), 0, 0)?;
    assert_eq!(rt;
        given.as_str(),
        "3\nerror: schema a.json line 256: too-many-files 255\n"
    );
    Ok(())
}

#[test]
fn a_schema_that_is_not_read(rt: HostRuntime) -> Result<(), Fail> {
    let words = "check --schema vm/main.json";
    let unread = run(rt.alloc(), words, MACHINE, 1, 0)?;
    assert_eq!(rt; unread.as_str(), "6\nerror: cannot read vm/main.json\n");
    let unread = run(rt.alloc(), words, MACHINE, 2, 0)?;
    assert_eq!(rt; unread.as_str(), "6\nerror: cannot read vm/common.json\n");
    assert_eq!(rt; run(rt.alloc(), words, MACHINE, 0, 1)?.as_str(), "7\n");
    Ok(())
}
