ghost use Rattle.std.specs.Prelude.{◌≡◌, IfOk, map, option_map};
ghost use Rattle.qm_bind.specs.Grammar.{each_of, naming_template, simple_template, template_of};
ghost use Rattle.qm_bind.specs.Walks.{scope_in, member_template, member_templates, item_templates, template_at, template_among};

use crate::scope::Names;
use crate::values::{argument_name, cell_name, is_true, tally_name};
use qm_base::NoMemory;
use qm_json::{Json, Member};
use qm_plan::{Template, TemplateMember};
use sqlite_items::Items;
use std::alloc::Global;

/// A template of an argument, a cell or a tally.
fn naming(
    alloc: Global,
    names: &Names,
    name: &[u8],
    value: &Json,
) -> Result<Option<Template>, NoMemory>
    ensures { IfOk result (λ made. made ≡ naming_template (scope_in names.now) name.now value.now) }
{
    if name == b"arg".as_slice() {
        return Ok(argument_name(alloc, names, value)?.map(Template::Arg));
    }
    if name == b"cell".as_slice() {
        return Ok(cell_name(alloc, names, value)?.map(Template::Cell));
    }
    if name == b"tally".as_slice() {
        return Ok(tally_name(alloc, names, value)?.map(Template::Tally));
    }
    Ok(None)
}

/// A template without others inside.
fn simple(
    alloc: Global,
    names: &Names,
    name: &[u8],
    value: &Json,
) -> Result<Option<Template>, NoMemory>
    ensures { IfOk result (λ made. made ≡ simple_template (scope_in names.now) name.now value.now) }
{
    if name == b"const".as_slice() {
        return Ok(Some(Template::Const(value.copy(alloc)?)));
    }
    if name == b"args".as_slice() {
        return Ok(if is_true(value) {
            Some(Template::Args)
        } else {
            None
        });
    }
    naming(alloc, names, name, value)
}

/// The template that a value is.
#[cycle(template)]
pub fn template(alloc: Global, names: &Names, value: &Json) -> Result<Option<Template>, NoMemory>
    ensures { IfOk result (λ made. made ≡ template_of (scope_in names.now) value.now) }
{
    match value {
        Json::Obj(members) => template_among(alloc, names, members.as_slice()),
        _ => Ok(None),
    }
}

/// The template that these members are together.
#[cycle(template)]
fn template_among(
    alloc: Global,
    names: &Names,
    members: &[Member],
) -> Result<Option<Template>, NoMemory>
    ensures { IfOk result (λ made. made ≡ template_among (scope_in names.now) members.now) }
{
    match members {
        [member] => template_at(alloc, names, member),
        _ => Ok(None),
    }
}

/// The template that a member is alone in its object.
#[cycle(template)]
fn template_at(alloc: Global, names: &Names, member: &Member) -> Result<Option<Template>, NoMemory>
    ensures { IfOk result (λ made. made ≡ template_at (scope_in names.now) member.now) }
{
    let name = member.name.as_slice();
    if name == b"object".as_slice() {
        return object(alloc, names, &member.value);
    }
    if name == b"array".as_slice() {
        return array(alloc, names, &member.value);
    }
    simple(alloc, names, name, &member.value)
}

#[cycle(template)]
fn object(alloc: Global, names: &Names, value: &Json) -> Result<Option<Template>, NoMemory>
    ensures { IfOk result (λ made. made ≡ option_map Template.Object (member_templates (scope_in names.now) value.now)) }
{
    match value {
        Json::Obj(members) => Ok(member_list(alloc, names, members.as_slice())?.map(
            Template::Object,
        )),
        _ => Ok(None),
    }
}

#[cycle(template)]
fn array(alloc: Global, names: &Names, value: &Json) -> Result<Option<Template>, NoMemory>
    ensures { IfOk result (λ made. made ≡ option_map Template.Array (item_templates (scope_in names.now) value.now)) }
{
    match value {
        Json::Arr(items) => Ok(item_list(alloc, names, items.as_slice())?.map(Template::Array)),
        _ => Ok(None),
    }
}

/// The templates that items are.
#[cycle(template)]
fn item_list(
    alloc: Global,
    names: &Names,
    items: &[Json],
) -> Result<Option<Items<Template>>, NoMemory>
    ensures { IfOk result (λ made. made ≡ each_of (map (template_of (scope_in names.now)) items.now)) }
{
    let mut made = Items::new(alloc);
    for item in items {
        let Some(next) = template(alloc, names, item)? else {
            return Ok(None);
        };
        made.push(next)?;
    }
    Ok(Some(made))
}

/// The template of a member, with its name.
#[cycle(template)]
fn member_of(
    alloc: Global,
    names: &Names,
    member: &Member,
) -> Result<Option<TemplateMember>, NoMemory>
    ensures { IfOk result (λ made. made ≡ member_template (scope_in names.now) member.now) }
{
    let Some(template) = template(alloc, names, &member.value)? else {
        return Ok(None);
    };
    let name = member.name.copy(alloc)?;
    Ok(Some(TemplateMember { name, template }))
}

/// The templates of members, with their names.
#[cycle(template)]
fn member_list(
    alloc: Global,
    names: &Names,
    members: &[Member],
) -> Result<Option<Items<TemplateMember>>, NoMemory>
    ensures { IfOk result (λ made. made ≡ each_of (map (member_template (scope_in names.now)) members.now)) }
{
    let mut made = Items::new(alloc);
    for member in members {
        let Some(next) = member_of(alloc, names, member)? else {
            return Ok(None);
        };
        made.push(next)?;
    }
    Ok(Some(made))
}
