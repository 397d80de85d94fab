//! Calls of commands by a file that says what they do, each with what comes of it.

ghost use Rattle.std.specs.Prelude.{◌≡◌, [], ◌∷◌, codes, IfOk};
ghost use Rattle.qm_plan.specs.Stores.{names_of};

use crate::schema::schema;
use qapi_types::Schema;
use qm_base::{NoMemory, Shared, Text};
use qm_bind::{Binding, bind};
use qm_json::Json;
use qm_plan::{
    Applied, ApplyFault, Call, Cell, CellList, Facts, MOST_COUNT, Names, Plan, Recipe, Store,
    StoreChange, StoreChangeList, apply, plan,
};
use qm_read::read;
use std::alloc::Global;
use std::test::Fail;

const FILE: &[u8] = br#"{"cells": {"c": "slow", "d": 0}, "tallies": ["s", "t"], "commands": {
 "set": {"acts": [{"set": "c", "to": {"arg": "mode"}}, {"set": "d", "to": {"arg": "tag"}}]},
 "get": {"return": {"cell": "c"}},
 "put": {"acts": [{"add": "t", "by": 1}], "return": {"tally": "t"}},
 "ping": {"return": {"array": [{"tally": "t"}, {"cell": "d"}, {"tally": "s"}]}},
 "make": {"acts": [{"set": "d", "to": {"const": 9}}, {"add": "s", "by": 5}, {"fail": "no make"}]},
 "level": {"return": {"object": {"n": {"arg": "n"}, "all": {"args": true},
   "twice": {"array": [{"arg": "n"}, {"arg": "n"}]}}}},
 "bad": {"acts": [{"set": "c", "to": {"const": "off"}}], "return": {"const": "x"}},
 "free": {"return": {"arg": "x"}},
 "note": {"acts": [{"set": "d", "to": {"cell": "c"}}, {"set": "c", "to": {"const": "fast"}},
   {"set": "d", "to": {"array": [{"cell": "d"}, {"cell": "c"}]}}], "return": {"cell": "d"}}}}"#;

// Each row is a command, a blank, a request, ` = ` and what is returned or fails. What does not fail
// changes the store of the rows behind it.

/// Acts of one command after the other, and of one that fails.
const STORES: &str = r#"
put {"arguments": {"at": 1}} = 1
put {"arguments": {"at": "x"}} = 2
put {"arguments": {"at": 3}} = 3
get {} = "slow"
ping {} = [3, 0, 0]
make {"arguments": {"id": "j"}} = fails no make
ping {} = [3, 0, 0]
bad {} = "x"
get {} = "off"
note {} = ["off", "fast"]
get {} = "fast"
"#;

/// Arguments, absent ones among them.
const ARGUMENTS: &str = r#"
set {"arguments": {"mode": "fast"}} = {}
get {} = "fast"
ping {} = [0, 0, 0]
set {"arguments": {"mode": "off", "tag": "x"}} = {}
ping {} = [0, "x", 0]
level {"arguments": {"n": 7}} = {"n": 7, "all": {"n": 7}, "twice": [7, 7]}
level {} = {"all": {}, "twice": []}
free {"arguments": {"x": [null]}} = [null]
free {"arguments": {"y": 1}} = {}
"#;

/// Commands that stand before each schema.
const STANDING: &str = r#"
query-version {} = "v"
query-commands {} = "c"
query-qmp-schema {} = "i"
query-jobs {} = "j"
qmp_capabilities {"arguments": {"enable": ["oob"]}} = {}; enable
qmp_capabilities {} = {}
quit {} = {}; quit
"#;

/// A tally that is one below the greatest count.
const FULL: &str = r#"
put {} = 9223372036854775807
put {} = full t
put {} = full t
"#;

fn cell(alloc: Global, name: &[u8], first: Json) -> Result<Cell, NoMemory>
    ensures { IfOk result (λ cell. cell.name ≡ name.now) }
{
    let name = Text::of(alloc, name)?;
    Ok(Cell { name, first })
}

fn cells(alloc: Global) -> Result<CellList, NoMemory>
    ensures { IfOk result (λ cells. names_of cells ≡ codes "c" ∷ codes "d" ∷ []) }
{
    let mut cells = CellList::new(alloc);
    cells.push(cell(alloc, b"c", Json::string(alloc, b"slow")?)?)?;
    cells.push(cell(alloc, b"d", Json::Int(0))?)?;
    Ok(cells)
}

fn tallies(alloc: Global) -> Result<Names, NoMemory>
    ensures { IfOk result (λ tallies. tallies ≡ codes "s" ∷ codes "t" ∷ []) }
{
    let mut tallies = Names::new(alloc);
    tallies.push(Text::of(alloc, b"s")?)?;
    tallies.push(Text::of(alloc, b"t")?)?;
    Ok(tallies)
}

/// The store of the file: cells `c` and `d`, tallies `s` and `t`.
fn store(alloc: Global) -> Result<Store, NoMemory> {
    let cells = cells(alloc)?;
    let tallies = tallies(alloc)?;
    Store::new(alloc, cells.as_slice(), tallies.as_slice())
}

fn facts(alloc: Global) -> Result<Facts, NoMemory> {
    Ok(Facts {
        version: Json::string(alloc, b"v")?,
        commands: Json::string(alloc, b"c")?,
        introspection: Json::string(alloc, b"i")?,
        jobs: Json::string(alloc, b"j")?,
    })
}

fn binding(alloc: Global, schema: &Schema) -> Result<Binding, Fail> {
    match bind(alloc, schema, FILE) {
        Ok(binding) => Ok(binding),
        Err(_) => Err(Fail::from("the file is refused")),
    }
}

fn request(alloc: Global, text: &str) -> Result<Json, Fail> {
    match read(alloc, text.as_bytes()) {
        Ok(value) => Ok(value),
        Err(_) => Err(Fail::from("the request is no JSON")),
    }
}

fn note_ends(text: &mut Text, applied: &Applied) -> Result<(), NoMemory> {
    if matches!(applied.enable, Some(true)) {
        text.extend(b"; enable")?;
    }
    if applied.quit {
        text.extend(b"; quit")?;
    }
    Ok(())
}

fn returned(alloc: Global, applied: &Applied) -> Result<Text, NoMemory> {
    let mut text = Text::new(alloc);
    applied.ret.write_text(&mut text)?;
    note_ends(&mut text, applied)?;
    Ok(text)
}

fn failed(alloc: Global, fault: &ApplyFault) -> Result<Text, NoMemory> {
    let (word, name) = match fault {
        ApplyFault::Failed(text) => (b"fails ".as_slice(), text.as_slice()),
        ApplyFault::TallyFull(name) => (b"full ".as_slice(), name.as_slice()),
        ApplyFault::Memory => (b"memory".as_slice(), b"".as_slice()),
    };
    let mut text = Text::of(alloc, word)?;
    text.extend(name)?;
    Ok(text)
}

/// Applies a plan, and lets the store change where it does not fail.
fn done(alloc: Global, store: &mut Store, plan: &Plan) -> Result<Text, NoMemory> {
    match apply(alloc, plan, store, &facts(alloc)?) {
        Ok(applied) => {
            let text = returned(alloc, &applied)?;
            store.commit(applied.changes);
            Ok(text)
        }
        Err(fault) => failed(alloc, &fault),
    }
}

/// A copy of the recipe of a command.
fn recipe(alloc: Global, binding: &Binding, command: u32) -> Result<Recipe, Fail> {
    match binding.recipes.as_slice().get(command as usize) {
        Some(recipe) => Ok(recipe.copy(alloc)?),
        None => Err(Fail::from("the command has no recipe")),
    }
}

fn call(alloc: Global, schema: &Schema, name: &str, told: &str) -> Result<Call, Fail> {
    let Some(command) = schema.find_command(name.as_bytes()) else {
        return Err(Fail::from("no such command"));
    };
    let request = Shared::new(alloc, request(alloc, told)?)?;
    Ok(Call { command, request })
}

fn answer(alloc: Global, schema: &Schema, store: &mut Store, asked: &str) -> Result<Text, Fail> {
    let (name, told) = asked.split_once(" ").unwrap_or((asked, ""));
    let binding = binding(alloc, schema)?;
    let call = call(alloc, schema, name, told)?;
    let recipe = recipe(alloc, &binding, call.command)?;
    let plan = plan(alloc, &recipe, &call)?;
    Ok(done(alloc, store, &plan)?)
}

fn is_answered(alloc: Global, schema: &Schema, store: &mut Store, row: &str) -> Result<bool, Fail> {
    let (asked, wanted) = row.split_once(" = ").unwrap_or((row, ""));
    let given = answer(alloc, schema, store, asked)?;
    Ok(given.as_slice() == wanted.as_bytes())
}

/// The first row that has another answer; the empty text where none has.
fn other<'a>(alloc: Global, store: &mut Store, rows: &'a str) -> Result<&'a str, Fail> {
    let schema = schema(alloc)?;
    for row in rows.trim().lines() {
        if !is_answered(alloc, &schema, store, row)? {
            return Ok(row);
        }
    }
    Ok("")
}

#[test]
fn acts_change_the_store(rt: HostRuntime) -> Result<(), Fail> {
    let mut store = store(rt.alloc())?;
    assert_eq!(rt; other(rt.alloc(), &mut store, STORES)?, "");
    Ok(())
}

#[test]
fn arguments_are_filled_in(rt: HostRuntime) -> Result<(), Fail> {
    let mut store = store(rt.alloc())?;
    assert_eq!(rt; other(rt.alloc(), &mut store, ARGUMENTS)?, "");
    Ok(())
}

#[test]
fn standing_commands(rt: HostRuntime) -> Result<(), Fail> {
    let mut store = store(rt.alloc())?;
    assert_eq!(rt; other(rt.alloc(), &mut store, STANDING)?, "");
    Ok(())
}

/// The change by which `t` gets its last count but one.
fn almost_full(alloc: Global) -> Result<StoreChange, NoMemory> {
    let name = Text::of(alloc, b"t")?;
    Ok(StoreChange::Tally(name, MOST_COUNT - 1))
}

#[test]
fn a_tally_is_full_at_2_to_the_63(rt: HostRuntime) -> Result<(), Fail> {
    let mut store = store(rt.alloc())?;
    let mut changes = StoreChangeList::new(rt.alloc());
    changes.push(almost_full(rt.alloc())?)?;
    store.commit(changes);
    assert_eq!(rt; other(rt.alloc(), &mut store, FULL)?, "");
    Ok(())
}

#[test]
fn another_answer_is_found(rt: HostRuntime) -> Result<(), Fail> {
    let mut store = store(rt.alloc())?;
    assert_eq!(rt; other(rt.alloc(), &mut store, "get {} = 1")?, "get {} = 1");
    Ok(())
}
