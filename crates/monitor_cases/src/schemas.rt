//! Requests of one session whose commands a schema defines, and their replies.

ghost use Rattle.qm_core.specs.Worlds.{IsReady};

use crate::worlds::world_of;
use qm_base::CallList;
use qm_core::{Limits, World};
use qm_link::MemorySink;
use qm_script::{PlayEnd, play};
use std::alloc::Global;
use std::test::Fail;

const SCHEMA: &str = "
{ 'enum': 'Mode', 'data': [ 'slow', 'fast', 'off' ] }
{ 'struct': 'Common', 'data': { 'mode': 'Mode', '*tag': 'str' } }
{ 'struct': 'Fast', 'data': { 'level': 'int8' } }
{ 'union': 'Setting', 'base': 'Common', 'discriminator': 'mode', 'data': { 'fast': 'Fast' } }
{ 'alternate': 'Place', 'data': { 'n': 'uint16', 's': 'str' } }
{ 'command': 'set', 'data': 'Setting', 'boxed': true }
{ 'command': 'get', 'returns': 'Mode' }
{ 'command': 'put', 'data': { 'at': 'Place', '*note': 'str' }, 'returns': 'int' }
{ 'command': 'ping', 'returns': 'int', 'allow-oob': true }
{ 'command': 'make', 'data': { 'id': 'str' } }
{ 'command': 'level', 'data': { 'n': 'int8' } }
{ 'command': 'bad', 'returns': 'int' }
{ 'event': 'NOTE', 'data': { 'port': 'str', 'n': 'int' } }
{ 'command': 'note', 'data': { 'port': 'str', 'n': 'int' } }
{ 'struct': 'Step', 'data': { 'size': 'uint8' } }
{ 'struct': 'Walk', 'data': { 'steps': [ 'Step' ] } }
{ 'command': 'walk', 'data': { 'walk': 'Walk' } }
{ 'struct': 'Loose', 'data': { '*size': 'uint8' } }
{ 'command': 'loose', 'returns': 'Loose' }
{ 'command': 'free', 'gen': false }
";

/// Rows of a command, its arguments where it has some, and its reply: `return` and what is
/// returned, or the class of an error and its description.
const ROWS: &str =
    r#"qmp_capabilities | {"enable": 7} | GenericError Invalid parameter type for 'enable'
qmp_capabilities | {"enable": ["x"]} | GenericError Parameter 'enable[0]' does not accept this value
qmp_capabilities | {"enable": [7]} | GenericError Invalid parameter type for 'enable[0]'
qmp_capabilities | {"enable": ["oob", "x"]} | GenericError Parameter 'enable[1]' does not accept this value
qmp_capabilities | {"enable": [], "x": 1} | GenericError Parameter 'x' is unexpected
query-version | | CommandNotFound Expecting capabilities negotiation with 'qmp_capabilities'
qmp_capabilities | {"enable": []} | return {}
qmp_capabilities | {"enable": []} | CommandNotFound Capabilities negotiation is already complete, command ignored
query-version | {} | return {"qemu": {"micro": 0, "minor": 0, "major": 1}, "package": "qmpd"}
level | {"n": 127} | return {}
level | {"n": -128} | return {}
level | {"n": 128} | GenericError Parameter 'n' is out of range
level | {"n": -129} | GenericError Parameter 'n' is out of range
level | {"n": 1.0} | GenericError Invalid parameter type for 'n'
level | {"m": 1} | GenericError Parameter 'n' is missing
level | {"m": 1, "n": 1} | GenericError Parameter 'm' is unexpected
set | {} | GenericError Parameter 'mode' is missing
set | {"mode": "slow", "level": 1} | GenericError Parameter 'level' is unexpected
set | {"mode": "off"} | return {}
set | {"mode": "fast", "level": 3} | return {}
set | {"mode": "fast"} | GenericError Parameter 'level' is missing
set | {"mode": "x"} | GenericError Parameter 'mode' does not accept this value
set | | GenericError Parameter 'mode' is missing
set | {"mode": "slow", "tag": "t"} | return {}
put | {"at": 1} | GenericError The return value does not fit its type
put | {"at": true} | GenericError Parameter 'at' matches no alternative
put | {"at": 65536} | GenericError Parameter 'at' is out of range
get | | GenericError The return value does not fit its type
get | {"a": 1} | GenericError Parameter 'a' is unexpected
make | {"id": "j"} | return {}
loose | | return {}
walk | {"walk": {"steps": [{"size": 1}, {"size": 255}]}} | return {}
walk | {"walk": {"steps": [{"size": 1}, {"size": 256}]}} | GenericError Parameter 'walk.steps[1].size' is out of range
walk | {"walk": {"steps": [{}]}} | GenericError Parameter 'walk.steps[0].size' is missing
walk | {"walk": {"steps": [{"size": 1, "x": null}]}} | GenericError Parameter 'walk.steps[0].x' is unexpected
walk | {"walk": {"steps": {}}} | GenericError Invalid parameter type for 'walk.steps'
free | {"x": [1, {"y": 2}]} | return {}
free | | return {}
NOTE | | CommandNotFound The command NOTE has not been found
query-commands | | return [{"name": "qmp_capabilities"}, {"name": "query-version"}, {"name": "query-commands"}, {"name": "query-qmp-schema"}, {"name": "query-jobs"}, {"name": "job-cancel"}, {"name": "job-pause"}, {"name": "job-resume"}, {"name": "job-complete"}, {"name": "job-finalize"}, {"name": "job-dismiss"}, {"name": "quit"}, {"name": "set"}, {"name": "get"}, {"name": "put"}, {"name": "ping"}, {"name": "make"}, {"name": "level"}, {"name": "bad"}, {"name": "note"}, {"name": "walk"}, {"name": "loose"}, {"name": "free"}]
query-qmp-schema | | return [{"name": "str", "meta-type": "builtin", "json-type": "string"}]
query-jobs | | GenericError The command query-jobs is not built
job-cancel | {"id": "j"} | GenericError The command job-cancel is not built
job-pause | {"id": "j"} | GenericError The command job-pause is not built
job-resume | {"id": "j"} | GenericError The command job-resume is not built
job-complete | {"id": "j"} | GenericError The command job-complete is not built
job-finalize | {"id": "j"} | GenericError The command job-finalize is not built
job-dismiss | {"id": "j"} | GenericError The command job-dismiss is not built
job-dismiss | | GenericError Parameter 'id' is missing
quit | {"now": true} | GenericError Parameter 'now' is unexpected
quit | | return {}
"#;

/// The request of a command, as it is printed.
fn request(rt: &impl AllocGlobal, command: &str, arguments: &str) -> Result<String, Fail> {
    if arguments.is_empty() {
        return Ok(format!(in rt.alloc(); "{{\"execute\": \"{command}\"}}")?);
    }
    Ok(format!(in rt.alloc(); "{{\"execute\": \"{command}\", \"arguments\": {arguments}}}")?)
}

/// A reply, as it is printed.
fn reply(rt: &impl AllocGlobal, text: &str) -> Result<String, Fail> {
    let (class, told) = text.split_once(" ").unwrap_or((text, ""));
    if class == "return" {
        return Ok(format!(in rt.alloc(); "{{\"return\": {told}}}")?);
    }
    Ok(format!(in rt.alloc(); "{{\"error\": {{\"class\": \"{class}\", \"desc\": \"{told}\"}}}}")?)
}

/// The request and the reply of a row.
fn exchange(rt: &impl AllocGlobal, row: &str) -> Result<(String, String), Fail> {
    let (command, later) = row.split_once(" | ").unwrap_or((row, ""));
    let (arguments, told) = later.split_once("| ").unwrap_or((later, ""));
    let request = request(rt, command, arguments.trim())?;
    Ok((request, reply(rt, told)?))
}

/// The script lines of a row.
fn ordered(rt: &impl AllocGlobal, row: &str) -> Result<String, Fail> {
    let (request, _) = exchange(rt, row)?;
    Ok(format!(in rt.alloc(); "text 1 {request}\nadmit 1\nstart\nfinish 0\n")?)
}

/// The transcript lines of a row, of which the first follows that of this number; it is the row's
/// number in the table, from 1 on.
fn written(rt: &impl AllocGlobal, row: &str, number: u64, before: u64) -> Result<String, Fail> {
    let (request, reply) = exchange(rt, row)?;
    let admit = before.saturating_add(1);
    let start = before.saturating_add(2);
    let done = before.saturating_add(3);
    Ok(format!(in rt.alloc();
        "{admit} admit 1 {number} in {request}\n{start} start 1 {number}\n{done} done 1 {number} @0 {reply}\n"
    )?)
}

/// The script of all rows.
fn script(rt: &impl AllocGlobal) -> Result<String, Fail> {
    let mut out = String::new(rt.alloc());
    out.push_str("open\n")?;
    for row in ROWS.lines() {
        out.push_str(ordered(rt, row)?.as_str())?;
    }
    Ok(out)
}

/// The transcript of all rows.
fn transcript(rt: &impl AllocGlobal) -> Result<String, Fail> {
    let mut out = String::new(rt.alloc());
    out.push_str("1 open 1\n")?;
    let mut number = 0u64;
    let mut entries = 1u64;
    for row in ROWS.lines() {
        number = number.saturating_add(1);
        out.push_str(written(rt, row, number, entries)?.as_str())?;
        entries = entries.saturating_add(3);
    }
    let end = format!(in rt.alloc(); "end {entries}\n")?;
    out.push_str(end.as_str())?;
    Ok(out)
}

/// Plays the script to its end.
fn played(alloc: Global, world: World, script: &str) -> Result<MemorySink, Fail>
    requires { IsReady world }
{
    let limits = Limits {
        entries: 1000,
        text: 1_000_000,
    };
    let mut sink = MemorySink::new(alloc, CallList::new(alloc));
    match play(alloc, world, limits, script.as_bytes(), &mut sink) {
        PlayEnd::Done => Ok(sink),
        _ => Err(Fail::from("the script is refused")),
    }
}

#[test]
fn commands_are_answered_by_the_schema(rt: HostRuntime) -> Result<(), Fail> {
    let world = world_of(rt.alloc(), SCHEMA.as_bytes(), b"{}")?;
    let script = script(&rt)?;
    let sink = played(rt.alloc(), world, script.as_str())?;
    assert_eq!(rt; sink.taken(), transcript(&rt)?.as_bytes());
    assert_eq!(rt; ROWS.lines().count(), 51);
    Ok(())
}
