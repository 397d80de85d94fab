//! Tables that make a schema, tables that each break one condition, and names that are found.

use crate::rows::{Asked, other_answers};
use qapi_types::{
    ArgType, Branch, CommandDef, EventDef, JsonKind, Kind, MemberDef, ObjectDef, Parts, Schema,
    ValueDef, Whole, parts_good,
};
use qm_base::{GrowingList, Text};
use std::test::Fail;

/// A good table: a type, a command or an event a line. Members are `name:TYPE`, or `name?TYPE`
/// where they may be absent; `tag=POSITION` is the tag, `VALUE>TYPE` a branch.
const TABLE: &str = "\
str
int
enum a b c
object x:0 y?1
object
object kind:2 z?0 tag=0 0>3 1>4
array 5
either 0 1 5 6
any
number
command get 0 4 6
event NOTE 1 3
command set 2 5 4
command any 3 * 8
";

/// The line of the table that another replaces, counted from 0, and the other; 14 is one more line.
const CASES: &str = "\
good |4 object
good |14 bool
good |14 array 3
good |14 object t:2 w:0 tag=0 0>5 2>5
good |14 object t:2 tag=0
good |14 either 2 3
bad |3 object x:14
bad |5 object kind:2 tag=0 0>14
bad |6 array 14
bad |7 either 0 14
bad |10 command get 0 14 6
bad |10 command get 0 4 14
bad |11 event NOTE 1 14
bad |5 object kind:2 tag=1
bad |5 object kind:2 tag=0 3>3
bad |5 object kind:2 0>3
bad |10 command NOTE 0 4 6
bad |12 command get 2 5 4
bad |2 enum a b a
bad |5 object kind:2 tag=0 0>6
bad |5 object kind:2 tag=0 0>3 0>4
bad |5 object kind:2 z:0 tag=1
bad |5 object kind?2 tag=0
bad |3 object x:0 x:1
bad |5 object kind:2 x:0 tag=0 0>3
bad |14 object t:2 x:0 tag=0 1>5
bad |5 object kind:2 tag=0 0>5
bad |14 array 6
bad |7 either 0 8
bad |14 either 9 7
bad |7 either 0 2
bad |7 either 1 9
bad |10 command get 1 4 6
bad |12 command set 4 5 4
bad |13 command any 2 * 8
bad |11 event NOTE 4 3
";

fn numeral(word: &str) -> Result<u32, Fail> {
    Ok(word.parse::<u32>()?)
}

fn text(rt: &impl AllocGlobal, word: &str) -> Result<Text, Fail> {
    Ok(Text::of(rt.alloc(), word.as_bytes())?)
}

fn member(rt: &impl AllocGlobal, name: &str, id: &str, optional: bool) -> Result<MemberDef, Fail> {
    Ok(MemberDef {
        name: text(rt, name)?,
        type_id: numeral(id)?,
        optional,
        features: GrowingList::new(rt.alloc()),
    })
}

fn no_members(rt: &impl AllocGlobal) -> ObjectDef {
    ObjectDef {
        members: GrowingList::new(rt.alloc()),
        tag: None,
        branches: GrowingList::new(rt.alloc()),
        features: GrowingList::new(rt.alloc()),
    }
}

fn branch(value: &str, id: &str) -> Result<Branch, Fail> {
    Ok(Branch {
        value: numeral(value)?,
        type_id: numeral(id)?,
    })
}

fn add_word(rt: &impl AllocGlobal, def: &mut ObjectDef, word: &str) -> Result<(), Fail> {
    if let Some((name, id)) = word.split_once(":") {
        def.members.push(member(rt, name, id, false)?)?;
    } else if let Some((name, id)) = word.split_once("?") {
        def.members.push(member(rt, name, id, true)?)?;
    } else if let Some((_, position)) = word.split_once("=") {
        def.tag = Some(numeral(position)?);
    } else if let Some((value, id)) = word.split_once(">") {
        def.branches.push(branch(value, id)?)?;
    }
    Ok(())
}

fn object(rt: &impl AllocGlobal, words: &str) -> Result<Kind, Fail> {
    let mut def = no_members(rt);
    for word in words.split_whitespace() {
        add_word(rt, &mut def, word)?;
    }
    Ok(Kind::Object(def))
}

fn values(rt: &impl AllocGlobal, words: &str) -> Result<Kind, Fail> {
    let mut values = GrowingList::new(rt.alloc());
    for word in words.split_whitespace() {
        values.push(ValueDef {
            name: text(rt, word)?,
            features: GrowingList::new(rt.alloc()),
        })?;
    }
    Ok(Kind::Enum(values, GrowingList::new(rt.alloc())))
}

fn either(rt: &impl AllocGlobal, words: &str) -> Result<Kind, Fail> {
    let mut types = GrowingList::new(rt.alloc());
    for word in words.split_whitespace() {
        types.push(numeral(word)?)?;
    }
    Ok(Kind::Alternate(types, GrowingList::new(rt.alloc())))
}

fn kind(rt: &impl AllocGlobal, first: &str, rest: &str) -> Result<Kind, Fail> {
    match first {
        "str" => Ok(Kind::Str),
        "int" => Ok(Kind::Whole(Whole::Int)),
        "number" => Ok(Kind::Number),
        "bool" => Ok(Kind::Bool),
        "any" => Ok(Kind::Any),
        "array" => Ok(Kind::Array(numeral(rest)?)),
        "enum" => values(rt, rest),
        "either" => either(rt, rest),
        _ => object(rt, rest),
    }
}

fn command(rt: &impl AllocGlobal, words: &str) -> Result<CommandDef, Fail> {
    let mut words = words.split_whitespace();
    let name = text(rt, words.next().unwrap_or(""))?;
    let place = numeral(words.next().unwrap_or(""))?;
    let arg = match words.next().unwrap_or("") {
        "*" => ArgType::AnyObject,
        id => ArgType::Typed(numeral(id)?),
    };
    Ok(CommandDef {
        name,
        place,
        arg,
        ret: numeral(words.next().unwrap_or(""))?,
        allow_oob: false,
        allow_preconfig: false,
        features: GrowingList::new(rt.alloc()),
    })
}

fn event(rt: &impl AllocGlobal, words: &str) -> Result<EventDef, Fail> {
    let mut words = words.split_whitespace();
    Ok(EventDef {
        name: text(rt, words.next().unwrap_or(""))?,
        place: numeral(words.next().unwrap_or(""))?,
        arg: numeral(words.next().unwrap_or(""))?,
        features: GrowingList::new(rt.alloc()),
    })
}

fn add(rt: &impl AllocGlobal, parts: &mut Parts, line: &str) -> Result<(), Fail> {
    let (first, rest) = line.split_once(" ").unwrap_or((line, ""));
    match first {
        "command" => parts.commands.push(command(rt, rest)?)?,
        "event" => parts.events.push(event(rt, rest)?)?,
        _ => parts.kinds.push(kind(rt, first, rest)?)?,
    }
    Ok(())
}

fn no_parts(rt: &impl AllocGlobal) -> Parts {
    Parts {
        commands: GrowingList::new(rt.alloc()),
        events: GrowingList::new(rt.alloc()),
        kinds: GrowingList::new(rt.alloc()),
    }
}

/// The parts of the lines, of which the one of the number is another; or that is one more.
fn parts_with(rt: &impl AllocGlobal, place: usize, line: &str) -> Result<Parts, Fail> {
    let mut parts = no_parts(rt);
    let mut is_in = false;
    for (i, other) in TABLE.lines().enumerate() {
        is_in = is_in || i == place;
        add(rt, &mut parts, if i == place { line } else { other })?;
    }
    if !is_in {
        add(rt, &mut parts, line)?;
    }
    Ok(parts)
}

fn verdict(rt: &impl AllocGlobal, parts: &Parts) -> Result<String, Fail> {
    let verdict = if parts_good(rt.alloc(), parts)? {
        "good "
    } else {
        "bad "
    };
    Ok(verdict.to_string(rt.alloc())?)
}

/// Whether the table with another line is good.
pub fn answer(rt: &impl AllocGlobal, text: &str) -> Result<String, Fail> {
    let (place, line) = text.split_once(" ").unwrap_or((text, ""));
    let parts = parts_with(rt, numeral(place)? as usize, line)?;
    verdict(rt, &parts)
}

#[test]
fn each_condition_is_looked_for(rt: HostRuntime) -> Result<(), Fail> {
    assert_eq!(rt; other_answers(&rt, Asked::Goodness, CASES)?.as_str(), "");
    Ok(())
}

/// The line of a union with two branches of the next one's type.
fn union_line(rt: &impl AllocGlobal, number: u32) -> Result<String, Fail> {
    let next = number.saturating_add(2);
    Ok(format!(in rt.alloc(); "object t{number}:0 tag=0 0>{next} 1>{next}")?)
}

/// Unions in a chain; the last type has a member of the name given.
fn chain(rt: &impl AllocGlobal, length: u32, last: &str) -> Result<Parts, Fail> {
    let mut parts = no_parts(rt);
    add(rt, &mut parts, "enum a b")?;
    for number in 0..length {
        add(rt, &mut parts, union_line(rt, number)?.as_str())?;
    }
    add(rt, &mut parts, last)?;
    Ok(parts)
}

fn chain_verdict(rt: &impl AllocGlobal, last: &str) -> Result<String, Fail> {
    let parts = chain(rt, 40, last)?;
    verdict(rt, &parts)
}

#[test]
fn forty_unions_with_two_branches_each(rt: HostRuntime) -> Result<(), Fail> {
    assert_eq!(rt; chain_verdict(&rt, "object x:0")?.as_str(), "good ");
    assert_eq!(rt; chain_verdict(&rt, "object t0:0")?.as_str(), "bad ");
    assert_eq!(rt; chain_verdict(&rt, "object t39:0")?.as_str(), "bad ");
    Ok(())
}

fn sealed(rt: &impl AllocGlobal) -> Result<Schema, Fail> {
    let parts = parts_with(rt, 4, "object")?;
    if !parts_good(rt.alloc(), &parts)? {
        return Err(Fail::from("the table is not good"));
    }
    Ok(Schema::seal(rt.alloc(), parts)?)
}

fn all_are_counted(schema: &Schema) -> bool {
    schema.commands() == 3 && schema.events() == 1 && schema.types() == 10
}

fn commands_are_found(schema: &Schema) -> bool {
    schema.find_command(b"set") == Some(1) && schema.find_command(b"NOTE") == None
}

fn events_are_found(schema: &Schema) -> bool {
    schema.find_event(b"NOTE") == Some(0) && schema.find_event(b"set") == None
}

fn member_at(schema: &Schema, id: u32, name: &str) -> Option<u32> {
    if id < schema.types() {
        schema.find_member(id, name.as_bytes())
    } else {
        Some(100)
    }
}

fn members_are_found(schema: &Schema) -> bool {
    member_at(schema, 3, "y") == Some(1)
        && member_at(schema, 3, "z") == None
        && member_at(schema, 2, "a") == None
}

fn value_at(schema: &Schema, id: u32, name: &str) -> Option<u32> {
    if id < schema.types() {
        schema.find_value(id, name.as_bytes())
    } else {
        Some(100)
    }
}

fn values_are_found(schema: &Schema) -> bool {
    value_at(schema, 2, "c") == Some(2) && value_at(schema, 3, "x") == None
}

fn takes_any_object(schema: &Schema, id: u32) -> bool {
    id < schema.commands() && schema.command(id).arg == ArgType::AnyObject
}

fn place_of_event(schema: &Schema, id: u32) -> Option<u32> {
    if id < schema.events() {
        Some(schema.event(id).place)
    } else {
        None
    }
}

fn kind_at(schema: &Schema, id: u32) -> Option<JsonKind> {
    if id < schema.types() {
        schema.kind(id).json_kind()
    } else {
        Some(JsonKind::Null)
    }
}

fn kinds_are_found(schema: &Schema) -> bool {
    kind_at(schema, 6) == Some(JsonKind::Array) && kind_at(schema, 8) == None
}

#[test]
fn names_are_found_in_a_sealed_schema(rt: HostRuntime) -> Result<(), Fail> {
    let schema = sealed(&rt)?;
    assert!(rt; all_are_counted(&schema));
    assert!(rt; commands_are_found(&schema));
    assert!(rt; events_are_found(&schema));
    assert!(rt; members_are_found(&schema));
    assert!(rt; values_are_found(&schema));
    assert!(rt; takes_any_object(&schema, 2));
    assert!(rt; place_of_event(&schema, 0) == Some(1));
    assert!(rt; kinds_are_found(&schema));
    Ok(())
}
