ghost use Rattle.std.specs.Prelude.{◌≡◌, Some};
ghost use Rattle.std.specs.Option.{option_copied, option_map};
ghost use Rattle.qapi_define.specs.Saying.{first_some};
ghost use Rattle.qapi_rules.specs.Blames.{told};
ghost use Rattle.qapi_rules.specs.References;

use crate::branches::{bad_discriminator, unknown_branch};
use crate::fault::{Blame, CheckRule};
use crate::names::without_star;
use crate::table::DefinitionTable;
use crate::variants::{bad_data, kind_clash};
use qapi_define::{Definition, Member, Part, Variant};

/// The blame of a definition, with the name without a star.
pub fn blame<'a>(rule: CheckRule, definition: &'a Definition, name: &'a [u8]) -> Blame<'a>
    ensures { Some (told result) ≡ References.judged rule definition.now (Some name.now) }
{
    Blame {
        rule,
        file: definition.file.as_slice(),
        line: definition.line,
        name: without_star(name),
    }
}

fn unknown<'a>(table: &DefinitionTable, name: &'a [u8]) -> Option<&'a [u8]>
    ensures { option_copied result ≡ References.unknown table.now name.now }
{
    if table.meaning(name).is_type() {
        None
    } else {
        Some(name)
    }
}

fn unknown_in_members<'a>(table: &DefinitionTable, members: &'a [Member]) -> Option<&'a [u8]>
    ensures { option_copied result ≡ References.unknown_in_members table.now members.now }
{
    for member in members {
        if let Some(name) = unknown(table, member.of.name.as_slice()) {
            return Some(name);
        }
    }
    None
}

fn unknown_in_variants<'a>(table: &DefinitionTable, variants: &'a [Variant]) -> Option<&'a [u8]>
    ensures { option_copied result ≡
        first_some (λ v. References.unknown table.now v.of.name) variants.now }
{
    for variant in variants {
        if let Some(name) = unknown(table, variant.of.name.as_slice()) {
            return Some(name);
        }
    }
    None
}

fn unknown_in<'a>(table: &DefinitionTable, part: &'a Part) -> Option<&'a [u8]>
    ensures { option_copied result ≡ References.unknown_in table.now part.now }
{
    match part {
        Part::Base(name) => unknown(table, name.as_slice()),
        Part::BaseMembers(members) => unknown_in_members(table, members.as_slice()),
        Part::Members(members) => unknown_in_members(table, members.as_slice()),
        Part::Data(name) => unknown(table, name.as_slice()),
        Part::Variants(variants) => unknown_in_variants(table, variants.as_slice()),
        Part::Returns(of) => unknown(table, of.name.as_slice()),
        _ => None,
    }
}

/// The first reference that is to no type.
fn unknown_type<'a>(table: &DefinitionTable, definition: &'a Definition) -> Option<&'a [u8]>
    ensures { option_copied result ≡ References.unknown_type table.now definition.now }
{
    for part in definition.parts.as_slice() {
        if let Some(name) = unknown_in(table, part) {
            return Some(name);
        }
    }
    None
}

/// The name of the base, where it is no struct's.
fn bad_base<'a>(table: &DefinitionTable, definition: &'a Definition) -> Option<&'a [u8]>
    ensures { option_copied result ≡ References.bad_base table.now definition.now }
{
    match definition.base() {
        Some(name) => {
            if table.meaning(name.as_slice()).is_struct() {
                None
            } else {
                Some(name.as_slice())
            }
        }
        None => None,
    }
}

/// The first fault of a definition's references, rule by rule.
#[tactic(auto, unfolding(crate::specs::References::bad_reference))]
fn bad_reference<'a>(table: &DefinitionTable<'a>, definition: &'a Definition) -> Option<Blame<'a>>
    ensures { option_map told result ≡ References.bad_reference table.now definition.now }
{
    if let Some(name) = unknown_type(table, definition) {
        return Some(blame(CheckRule::UnknownType, definition, name));
    }
    if let Some(name) = bad_base(table, definition) {
        return Some(blame(CheckRule::BadBase, definition, name));
    }
    if let Some(name) = bad_discriminator(table, definition) {
        return Some(blame(CheckRule::BadDiscriminator, definition, name));
    }
    if let Some(name) = unknown_branch(table, definition) {
        return Some(blame(CheckRule::UnknownBranch, definition, name));
    }
    if let Some(name) = bad_data(table, definition) {
        return Some(blame(CheckRule::BadData, definition, name));
    }
    if let Some(name) = kind_clash(table, definition) {
        return Some(blame(CheckRule::KindClash, definition, name));
    }
    None
}

fn first_bad<'a>(table: &DefinitionTable<'a>, definitions: &'a [Definition]) -> Option<Blame<'a>>
    ensures { option_map told result ≡
        first_some (References.bad_reference table.now) definitions.now }
{
    for definition in definitions {
        if let Some(blame) = bad_reference(table, definition) {
            return Some(blame);
        }
    }
    None
}

/// The first fault of references: over definitions in reading order, rule by rule (QAPI code
/// generation guide, "Schema syntax"). It takes no memory.
pub fn references_pass<'a>(table: &DefinitionTable<'a>) -> Option<Blame<'a>>
    ensures { option_map told result ≡ References.references_pass table.now }
{
    first_bad(table, table.definitions())
}
