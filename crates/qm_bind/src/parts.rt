ghost use Rattle.std.specs.Prelude.{◌≡◌, Some, None, IfSome, IfNone, option_map};
ghost use Rattle.std.specs.List.{list_all};
ghost use Rattle.std.specs.Option.{option_copied};
ghost use Rattle.qm_bind.specs.Parts.{are_part_names, is_file_object, is_part_name, is_text as is_text_value, members_given as given_members, parts_of as parts_in, texts_given as given_texts, texts_in as texts_among};
ghost use Rattle.qm_bind.specs.Walks.{seen_parts};

use crate::values::{array_of, object_of, text_of};
use qm_json::{Json, Member};

/// The parts of a bind file.
#[derive(Clone, Copy)]
pub struct FileParts<'a> {
    /// The cells with their first values.
    pub cells: &'a [Member],
    /// The names of the tallies.
    pub tallies: &'a [Json],
    /// The recipes by the names of commands.
    pub commands: &'a [Member],
    /// What is said of events, by their names.
    pub events: &'a [Member],
}

/// The members of an object that may be absent.
fn members_given(value: Option<&Json>) -> Option<&[Member]>
    ensures some { IfSome result (λ members. given_members (option_copied value.entry) ≡ Some members.now) }
    ensures none { IfNone result (given_members (option_copied value.entry) ≡ None) }
{
    match value {
        Some(value) => object_of(value),
        None => Some(&[]),
    }
}

fn is_text(value: &Json) -> bool
    ensures { result ≡ is_text_value value.now }
{
    text_of(value).is_some()
}

fn are_texts(items: &[Json]) -> bool
    ensures { result ≡ list_all is_text_value items.now }
{
    items.iter().all(|item| is_text(item))
}

fn texts_in(items: &[Json]) -> Option<&[Json]>
    ensures some { IfSome result (λ texts. texts_among items.now ≡ Some texts.now) }
    ensures none { IfNone result (texts_among items.now ≡ None) }
{
    if are_texts(items) { Some(items) } else { None }
}

/// The items of a list of strings that may be absent.
fn texts_given(value: Option<&Json>) -> Option<&[Json]>
    ensures some { IfSome result (λ texts. given_texts (option_copied value.entry) ≡ Some texts.now) }
    ensures none { IfNone result (given_texts (option_copied value.entry) ≡ None) }
{
    match value {
        Some(value) => texts_in(array_of(value)?),
        None => Some(&[]),
    }
}

fn is_part(name: &[u8]) -> bool
    ensures { result ≡ is_part_name name.now }
{
    name == b"cells".as_slice()
        || name == b"tallies".as_slice()
        || name == b"commands".as_slice()
        || name == b"events".as_slice()
}

fn are_parts(members: &[Member]) -> bool
    ensures { result ≡ are_part_names members.now }
{
    members.iter().all(|member| is_part(member.name.as_slice()))
}

/// Whether the value is an object of the known members.
fn is_object(value: &Json) -> bool
    ensures { result ≡ is_file_object value.now }
{
    match object_of(value) {
        Some(members) => are_parts(members),
        None => false,
    }
}

/// The parts of the file that a value is.
pub fn parts_of(value: &Json) -> Option<FileParts<'_>>
    ensures { option_map seen_parts result ≡ parts_in value.now }
{
    if !is_object(value) {
        return None;
    }
    let cells = members_given(value.member(b"cells"))?;
    let tallies = texts_given(value.member(b"tallies"))?;
    let commands = members_given(value.member(b"commands"))?;
    let events = members_given(value.member(b"events"))?;
    Some(FileParts {
        cells,
        tallies,
        commands,
        events,
    })
}
