ghost use Rattle.std.specs.Prelude.{◌≡◌, []};
ghost use Rattle.std.specs.List.{list_any};
ghost use Rattle.std.specs.Option.{option_copied};
ghost use Rattle.qapi_rules.specs.Blames.{over};
ghost use Rattle.qapi_rules.specs.Meanings.{is_alternate_sort};
ghost use Rattle.qapi_rules.specs.References;

use crate::meaning::are_same;
use crate::table::DefinitionTable;
use qapi_define::{Definition, Part, Sort, Variant};
use qapi_types::JsonKind;

fn may_be_branch(table: &DefinitionTable, variant: &Variant) -> bool
    ensures { result ≡ References.may_be_branch table.now variant.now }
{
    let meaning = table.meaning(variant.of.name.as_slice());
    !variant.of.is_array && (meaning.is_struct() || meaning.is_union())
}

fn may_be_alternative(table: &DefinitionTable, variant: &Variant) -> bool
    ensures { result ≡ References.may_be_alternative table.now variant.now }
{
    variant.of.is_array || !table.meaning(variant.of.name.as_slice()).is_mixed()
}

fn may_be_variant(table: &DefinitionTable, is_alternate: bool, variant: &Variant) -> bool
    ensures { result ≡ References.may_be_variant table.now is_alternate variant.now }
{
    if is_alternate {
        may_be_alternative(table, variant)
    } else {
        may_be_branch(table, variant)
    }
}

fn may_be_data(table: &DefinitionTable, boxed: bool, name: &[u8]) -> bool
    ensures { result ≡ References.may_be_data table.now boxed name.now }
{
    let meaning = table.meaning(name);
    meaning.is_struct() || (boxed && meaning.is_union())
}

fn is_alternate(definition: &Definition) -> bool
    ensures { result ≡ is_alternate_sort definition.now.sort }
{
    matches!(definition.sort, Sort::Alternate)
}

fn bad_variant<'a>(
    table: &DefinitionTable,
    is_alternate: bool,
    variants: &'a [Variant],
) -> Option<&'a [u8]>
    ensures { option_copied result ≡ References.bad_variant table.now is_alternate variants.now }
{
    for variant in variants {
        if !may_be_variant(table, is_alternate, variant) {
            return Some(variant.name.as_slice());
        }
    }
    None
}

fn bad_data_in<'a>(
    table: &DefinitionTable,
    definition: &Definition,
    part: &'a Part,
) -> Option<&'a [u8]>
    ensures { option_copied result ≡
        References.bad_data_in table.now definition.now part.now }
{
    match part {
        Part::Variants(variants) => {
            bad_variant(table, is_alternate(definition), variants.as_slice())
        }
        Part::Data(name) => {
            if may_be_data(table, definition.flags.boxed, name.as_slice()) {
                None
            } else {
                Some(name.as_slice())
            }
        }
        _ => None,
    }
}

/// The first branch or alternative that is of no type that may stand there, or the type that the
/// data names where it may not.
pub fn bad_data<'a>(table: &DefinitionTable, definition: &'a Definition) -> Option<&'a [u8]>
    ensures { option_copied result ≡ References.bad_data table.now definition.now }
{
    for part in definition.parts.as_slice() {
        if let Some(name) = bad_data_in(table, definition, part) {
            return Some(name);
        }
    }
    None
}

fn kind_of_alternative(table: &DefinitionTable, variant: &Variant) -> Option<JsonKind>
    ensures { result ≡ References.kind_of_alternative table.now variant.now }
{
    if variant.of.is_array {
        Some(JsonKind::Array)
    } else {
        table.meaning(variant.of.name.as_slice()).kind()
    }
}

fn is_of_kind(table: &DefinitionTable, kind: JsonKind, variant: &Variant) -> bool
    ensures { result ≡ References.is_of_kind table.now kind variant.now }
{
    match kind_of_alternative(table, variant) {
        Some(other) => are_same(kind, other),
        None => false,
    }
}

fn is_one_of_kind(table: &DefinitionTable, kind: JsonKind, variants: &[Variant]) -> bool
    ensures { result ≡ list_any (References.is_of_kind table.now kind) variants.now }
{
    variants
        .iter()
        .any(|variant| is_of_kind(table, kind, variant))
}

fn has_kind_of_one(table: &DefinitionTable, before: &[Variant], variant: &Variant) -> bool
    ensures { result ≡ References.has_kind_of_one table.now before.now variant.now }
{
    match kind_of_alternative(table, variant) {
        Some(kind) => is_one_of_kind(table, kind, before),
        None => false,
    }
}

fn clash_among<'a>(table: &DefinitionTable, variants: &'a [Variant]) -> Option<&'a [u8]>
    ensures { option_copied result ≡
        over (References.clash_after table.now) [] variants.now }
{
    for (i, variant) in variants.iter().enumerate() {
        if has_kind_of_one(table, &variants[..i], variant) {
            return Some(variant.name.as_slice());
        }
    }
    None
}

/// The first alternative of the same JSON kind as one before it.
pub fn kind_clash<'a>(table: &DefinitionTable, definition: &'a Definition) -> Option<&'a [u8]>
    ensures { option_copied result ≡ References.kind_clash table.now definition.now }
{
    if is_alternate(definition) {
        clash_among(table, definition.variants())
    } else {
        None
    }
}
