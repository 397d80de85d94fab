use itoa::Buffer;
use qapi_types::{
    ArgType, Branch, BranchList, CommandDef, Kind, KindList, MemberDef, MemberList, ObjectDef,
    Parts, Schema, ValueDef, Whole, parts_good,
};
use qm_base::{GrowingList, NoMemory, Text};
use std::alloc::Global;

/// A name made of a word and a number.
fn name(alloc: Global, word: &[u8], number: u32) -> Result<Text, NoMemory> {
    let mut buffer = Buffer::new();
    let mut text = Text::of(alloc, word)?;
    text.extend(buffer.format(number).as_bytes())?;
    Ok(text)
}

fn member(alloc: Global, name: Text, type_id: u32) -> MemberDef {
    MemberDef {
        name,
        type_id,
        optional: false,
        features: GrowingList::new(alloc),
    }
}

fn object(alloc: Global, members: MemberList, tag: Option<u32>, branches: BranchList) -> Kind {
    Kind::Object(ObjectDef {
        members,
        tag,
        branches,
        features: GrowingList::new(alloc),
    })
}

/// Strings, whole numbers, and an enum of two values: the types 0, 1 and 2.
fn first_kinds(alloc: Global) -> Result<KindList, NoMemory> {
    let mut kinds = GrowingList::new(alloc);
    kinds.push(Kind::Str)?;
    kinds.push(Kind::Whole(Whole::Int))?;
    let mut values = GrowingList::new(alloc);
    for number in 0..2 {
        values.push(ValueDef {
            name: name(alloc, b"value-", number)?,
            features: GrowingList::new(alloc),
        })?;
    }
    kinds.push(Kind::Enum(values, GrowingList::new(alloc)))?;
    Ok(kinds)
}

/// A struct of so many members, whose names begin with a word.
fn structure(alloc: Global, word: &[u8], count: u32) -> Result<Kind, NoMemory> {
    let mut members = GrowingList::new(alloc);
    for number in 0..count {
        members.push(member(alloc, name(alloc, word, number)?, number % 2))?;
    }
    Ok(object(alloc, members, None, GrowingList::new(alloc)))
}

/// A union whose two branches have one type.
fn union(alloc: Global, number: u32, branch: u32) -> Result<Kind, NoMemory> {
    let mut members = GrowingList::new(alloc);
    members.push(member(alloc, name(alloc, b"kind-", number)?, 2))?;
    let mut branches = GrowingList::new(alloc);
    for value in 0..2 {
        branches.push(Branch {
            value,
            type_id: branch,
        })?;
    }
    Ok(object(alloc, members, Some(0), branches))
}

/// Structs of eight members, as many unions as a quarter of them, and commands as a half.
fn plain(alloc: Global, size: u32) -> Result<Parts, NoMemory> {
    let mut kinds = first_kinds(alloc)?;
    for _ in 0..size {
        kinds.push(structure(alloc, b"member-", 8)?)?;
    }
    for number in 0..size / 4 {
        kinds.push(union(alloc, number, 3)?)?;
    }
    let mut commands = GrowingList::new(alloc);
    for place in 0..size / 2 {
        commands.push(CommandDef {
            name: name(alloc, b"command-", place)?,
            place,
            arg: ArgType::Typed(3),
            ret: 4,
            allow_oob: false,
            allow_preconfig: false,
            features: GrowingList::new(alloc),
        })?;
    }
    Ok(Parts {
        commands,
        events: GrowingList::new(alloc),
        kinds,
    })
}

fn without_commands(alloc: Global, kinds: KindList) -> Parts {
    Parts {
        commands: GrowingList::new(alloc),
        events: GrowingList::new(alloc),
        kinds,
    }
}

/// A struct, and unions each of whose branches are of the type before.
fn chain(alloc: Global, size: u32) -> Result<Parts, NoMemory> {
    let mut kinds = first_kinds(alloc)?;
    kinds.push(structure(alloc, b"member-", 1)?)?;
    for number in 0..size {
        kinds.push(union(alloc, number, number.saturating_add(3))?)?;
    }
    Ok(without_commands(alloc, kinds))
}

/// Structs each of which has the one before as its base, and one more member.
fn bases(alloc: Global, size: u32) -> Result<Parts, NoMemory> {
    let mut kinds = first_kinds(alloc)?;
    for number in 0..size {
        kinds.push(structure(alloc, b"member-", number)?)?;
    }
    Ok(without_commands(alloc, kinds))
}

/// The schema of a table, where that is good.
fn schema_of(alloc: Global, parts: Parts) -> Option<Schema> {
    match parts_good(alloc, &parts) {
        Ok(true) => match Schema::seal(alloc, parts) {
            Ok(schema) => Some(schema),
            Err(_) => None,
        },
        Ok(false) | Err(_) => None,
    }
}

/// How many types a table has, which is sealed where it is good, by its shape and size.
pub fn sealed(alloc: Global, shape: &str, size: u32) -> Option<usize> {
    let parts = match shape {
        "plain" => plain(alloc, size),
        "chain" => chain(alloc, size),
        "bases" => bases(alloc, size),
        _ => Err(NoMemory),
    };
    match parts {
        Ok(parts) => Some(schema_of(alloc, parts)?.types() as usize),
        Err(_) => None,
    }
}

fn wide_parts(alloc: Global, count: u32) -> Result<Parts, NoMemory> {
    let mut kinds = first_kinds(alloc)?;
    kinds.push(structure(alloc, b"member-", count)?)?;
    Ok(without_commands(alloc, kinds))
}

/// A schema whose type 3 is a struct of so many members, in turn strings and whole numbers.
pub fn wide(alloc: Global, count: u32) -> Option<Schema> {
    match wide_parts(alloc, count) {
        Ok(parts) => schema_of(alloc, parts),
        Err(_) => None,
    }
}
