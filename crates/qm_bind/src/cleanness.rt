ghost use Rattle.std.specs.Prelude.{◌≡◌, ◌&&◌, not, map};
ghost use Rattle.std.specs.List.{list_all};
ghost use Rattle.std.specs.Str.{is_utf8 as is_utf8_text};
ghost use Rattle.qm_json.specs.Cleanness as values;
ghost use Rattle.qm_json.specs.Numbers as numbers;
ghost use Rattle.qm_plan.specs.Cleanness as templates;
ghost use Rattle.qm_bind.specs.Goodness as goodness;

use crate::literals::{is_in_whole_range, is_literal, is_whole_literal};
use crate::named::{distinct_members, distinct_templates};
use qm_json::{Json, Member};
use qm_plan::{Act, Cell, Template, TemplateMember};

/// Whether the bytes are UTF-8.
pub fn is_utf8(bytes: &[u8]) -> bool
    ensures { result ≡ is_utf8_text bytes.now }
{
    match str::from_utf8(bytes) {
        Ok(_) => true,
        Err(_) => false,
    }
}

/// Whether the text is a number's that is kept as its text.
fn is_number(text: &[u8]) -> bool
    ensures { result ≡ (numbers.is_literal text.now && not (numbers.is_whole_literal text.now)) }
{
    is_literal(text) && !is_whole_literal(text)
}

/// Whether a text can spell the value.
#[cycle(clean)]
pub fn is_clean(value: &Json) -> bool
    ensures { result ≡ values.is_clean value.now }
{
    match value {
        Json::Null => true,
        Json::Bool(_) => true,
        Json::Int(n) => is_in_whole_range(*n),
        Json::Num(text) => is_number(text.as_slice()),
        Json::Str(bytes) => is_utf8(bytes.as_slice()),
        Json::Arr(items) => are_clean(items.as_slice()),
        Json::Obj(members) => {
            distinct_members(members.as_slice()) && are_clean_members(members.as_slice())
        }
    }
}

#[cycle(clean)]
fn are_clean(items: &[Json]) -> bool
    ensures { result ≡ list_all values.is_clean items.now }
{
    for item in items {
        if !is_clean(item) {
            return false;
        }
    }
    true
}

#[cycle(clean)]
fn is_clean_member(member: &Member) -> bool
    ensures { result ≡ values.is_clean_member member.now }
{
    is_utf8(member.name.as_slice()) && is_clean(&member.value)
}

#[cycle(clean)]
fn are_clean_members(members: &[Member]) -> bool
    ensures { result ≡ list_all values.is_clean_member members.now }
{
    for member in members {
        if !is_clean_member(member) {
            return false;
        }
    }
    true
}

/// Whether a text can spell what the template makes of what texts can spell.
#[cycle(clean_template)]
pub fn is_clean_template(template: &Template) -> bool
    ensures { result ≡ templates.is_clean_template template.now }
{
    match template {
        Template::Const(value) => is_clean(value),
        Template::Object(members) => {
            distinct_templates(members.as_slice()) && are_clean_named(members.as_slice())
        }
        Template::Array(items) => are_clean_templates(items.as_slice()),
        Template::Arg(_) => true,
        Template::Args => true,
        Template::Cell(_) => true,
        Template::Tally(_) => true,
        Template::Version => true,
        Template::Commands => true,
        Template::Introspection => true,
        Template::Jobs => true,
    }
}

#[cycle(clean_template)]
fn are_clean_templates(items: &[Template]) -> bool
    ensures { result ≡ list_all templates.is_clean_template items.now }
{
    for item in items {
        if !is_clean_template(item) {
            return false;
        }
    }
    true
}

#[cycle(clean_template)]
fn is_clean_named(member: &TemplateMember) -> bool
    ensures { result ≡ templates.is_clean_member member.now }
{
    is_utf8(member.name.as_slice()) && is_clean_template(&member.template)
}

#[cycle(clean_template)]
fn are_clean_named(members: &[TemplateMember]) -> bool
    ensures { result ≡ list_all templates.is_clean_member members.now }
{
    for member in members {
        if !is_clean_named(member) {
            return false;
        }
    }
    true
}

/// Whether a text can spell what the act leaves of what texts can spell.
pub fn is_clean_act(act: &Act) -> bool
    ensures { result ≡ templates.is_clean_act act.now }
{
    match act {
        Act::Set { to, .. } => is_clean_template(to),
        Act::Add { tally, .. } => is_utf8(tally.as_slice()),
        Act::Raise { payload, .. } => match payload {
            Some(payload) => is_clean_template(payload),
            None => true,
        },
        Act::Start { id, .. } => is_clean_template(id),
        Act::OnJob { id, .. } => is_clean_template(id),
        Act::Fail(text) => is_utf8(text.as_slice()),
        Act::Negotiate => true,
        Act::Enable(_) => true,
        Act::Quit => true,
    }
}

/// Whether a text can spell the cell.
pub fn is_clean_cell(cell: &Cell) -> bool
    ensures { result ≡ goodness.is_clean_cell cell.now }
{
    is_utf8(cell.name.as_slice()) && is_clean(&cell.first)
}
