ghost use Rattle.std.specs.Prelude.{◌≡◌, length};
ghost use Rattle.std.specs.Option.{option_copied, option_map, option_or};
ghost use Rattle.qapi_define.specs.Saying.{first_some};
ghost use Rattle.qapi_rules.specs.Meanings.{meant};
ghost use Rattle.qapi_rules.specs.References;

use crate::meaning::Meaning;
use crate::table::DefinitionTable;
use qapi_define::{Definition, Member, Variant};

fn own_members(definition: &Definition) -> &[Member]
    ensures { result.now ≡ References.own_members definition.now }
{
    match definition.members() {
        Some(members) => members,
        None => &[],
    }
}

fn enum_of_member<'a>(
    table: &DefinitionTable<'a>,
    name: &[u8],
    member: &Member,
) -> Option<Meaning<'a>>
    ensures { option_map meant result ≡
        References.enum_of_member table.now name.now member.now }
{
    let meaning = table.meaning(member.of.name.as_slice());
    if member.name.as_slice() == name
        && !member.optional
        && !member.of.is_array
        && meaning.is_enum()
    {
        Some(meaning)
    } else {
        None
    }
}

/// The enum of the first of the members that is mandatory, of the name and of an enum.
fn enum_among<'a>(
    table: &DefinitionTable<'a>,
    name: &[u8],
    members: &[Member],
) -> Option<Meaning<'a>>
    ensures { option_map meant result ≡
        first_some (References.enum_of_member table.now name.now) members.now }
{
    for member in members {
        if let Some(meaning) = enum_of_member(table, name, member) {
            return Some(meaning);
        }
    }
    None
}

/// The definition of its base.
pub fn base_definition<'a>(
    table: &DefinitionTable<'a>,
    definition: &Definition,
) -> Option<&'a Definition>
    ensures { option_copied result ≡ References.base_definition table.now definition.now }
{
    match definition.base() {
        Some(name) => table.find(name.as_slice()),
        None => None,
    }
}

fn first_of<'a>(first: Option<Meaning<'a>>, second: Option<Meaning<'a>>) -> Option<Meaning<'a>>
    ensures { option_map meant result ≡
        option_or (option_map meant first.entry) (option_map meant second.entry) }
{
    match first {
        Some(meaning) => Some(meaning),
        None => second,
    }
}

/// The same over the members of a definition and of its bases, those of its bases first.
fn enum_in_line<'a>(
    table: &DefinitionTable<'a>,
    name: &[u8],
    definition: Option<&'a Definition>,
) -> Option<Meaning<'a>>
    ensures { option_map meant result ≡ References.enum_in_line
        (length table.now) table.now name.now (option_copied definition.entry) }
{
    let mut found = None;
    let mut next = definition;
    for turn in 0..table.definitions().len() {
        let Some(definition) = next else {
            return found;
        };
        found = first_of(enum_among(table, name, own_members(definition)), found);
        next = base_definition(table, definition);
    }
    found
}

/// The enum of the member of the base whose value chooses the branch.
fn enum_of_branches<'a>(
    table: &DefinitionTable<'a>,
    definition: &Definition,
    name: &[u8],
) -> Option<Meaning<'a>>
    ensures { option_map meant result ≡
        References.enum_of_branches table.now definition.now name.now }
{
    first_of(
        enum_among(table, name, definition.base_members()),
        enum_in_line(table, name, base_definition(table, definition)),
    )
}

/// The discriminator, where it is no mandatory member of the base or not of an enum.
pub fn bad_discriminator<'a>(
    table: &DefinitionTable,
    definition: &'a Definition,
) -> Option<&'a [u8]>
    ensures { option_copied result ≡
        References.bad_discriminator table.now definition.now }
{
    match definition.discriminator() {
        Some(name) => {
            if enum_of_branches(table, definition, name.as_slice()).is_some() {
                None
            } else {
                Some(name.as_slice())
            }
        }
        None => None,
    }
}

fn branch_without_value<'a>(meaning: Meaning, variants: &'a [Variant]) -> Option<&'a [u8]>
    ensures { option_copied result ≡
        References.branch_without_value (meant meaning.entry) variants.now }
{
    for variant in variants {
        if !meaning.has_value(variant.name.as_slice()) {
            return Some(variant.name.as_slice());
        }
    }
    None
}

fn enum_of_discriminator<'a>(
    table: &DefinitionTable<'a>,
    definition: &Definition,
) -> Option<Meaning<'a>>
    ensures { option_map meant result ≡
        References.enum_of_discriminator table.now definition.now }
{
    match definition.discriminator() {
        Some(name) => enum_of_branches(table, definition, name.as_slice()),
        None => None,
    }
}

/// The first branch that is for no value of the enum.
pub fn unknown_branch<'a>(table: &DefinitionTable, definition: &'a Definition) -> Option<&'a [u8]>
    ensures { option_copied result ≡ References.unknown_branch table.now definition.now }
{
    match enum_of_discriminator(table, definition) {
        Some(meaning) => branch_without_value(meaning, definition.variants()),
        None => None,
    }
}
