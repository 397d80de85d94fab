ghost use Rattle.std.specs.Prelude.{◌≡◌, IfOk, option_map};
ghost use Rattle.std.specs.List.{filter_map};
ghost use Rattle.qm_json.specs.Members.{member_of};
ghost use Rattle.qm_plan.specs.Templates.{filled, filled_member};
ghost use Rattle.qm_plan.specs.declared.templates.Template.TheVariants.{Const};

use crate::lists::push_some;
use crate::templates::{Template, TemplateMember};
use qm_base::{NoMemory, Text};
use qm_json::Json;
use sqlite_items::Items;
use std::alloc::Global;

fn constant(alloc: Global, value: &Json) -> Result<Template, NoMemory>
    ensures { IfOk result (λ template. template ≡ Const value.now) }
{
    Ok(Template::Const(value.copy(alloc)?))
}

fn argument(alloc: Global, name: &Text, arguments: &Json) -> Result<Option<Template>, NoMemory>
    ensures { IfOk result (λ left. left ≡ option_map Const (member_of arguments.now name.now)) }
{
    let Some(value) = arguments.member(name.as_slice()) else {
        return Ok(None);
    };
    Ok(Some(constant(alloc, value)?))
}

/// What is left of a template once arguments are in their places.
#[cycle(fill)]
pub(crate) fn fill(
    alloc: Global,
    template: &Template,
    arguments: &Json,
) -> Result<Option<Template>, NoMemory>
    ensures { IfOk result (λ left. left ≡ filled arguments.now template.now) }
{
    match template {
        Template::Const(value) => Ok(Some(constant(alloc, value)?)),
        Template::Arg(name) => argument(alloc, name, arguments),
        Template::Args => Ok(Some(constant(alloc, arguments)?)),
        Template::Cell(name) => Ok(Some(Template::Cell(name.copy(alloc)?))),
        Template::Tally(name) => Ok(Some(Template::Tally(name.copy(alloc)?))),
        Template::Object(members) => {
            let members = fill_members(alloc, members.as_slice(), arguments)?;
            Ok(Some(Template::Object(members)))
        }
        Template::Array(items) => {
            let items = fill_items(alloc, items.as_slice(), arguments)?;
            Ok(Some(Template::Array(items)))
        }
        Template::Version => Ok(Some(Template::Version)),
        Template::Commands => Ok(Some(Template::Commands)),
        Template::Introspection => Ok(Some(Template::Introspection)),
        Template::Jobs => Ok(Some(Template::Jobs)),
    }
}

#[cycle(fill)]
fn fill_items(
    alloc: Global,
    items: &[Template],
    arguments: &Json,
) -> Result<Items<Template>, NoMemory>
    ensures { IfOk result (λ left. left ≡ filter_map (filled arguments.now) items.now) }
{
    let mut left = Items::new(alloc);
    for item in items {
        let next = fill(alloc, item, arguments)?;
        push_some(&mut left, next)?;
    }
    Ok(left)
}

#[cycle(fill)]
fn fill_member(
    alloc: Global,
    member: &TemplateMember,
    arguments: &Json,
) -> Result<Option<TemplateMember>, NoMemory>
    ensures { IfOk result (λ left. left ≡ filled_member arguments.now member.now) }
{
    match fill(alloc, &member.template, arguments)? {
        Some(template) => {
            let name = member.name.copy(alloc)?;
            Ok(Some(TemplateMember { name, template }))
        }
        None => Ok(None),
    }
}

#[cycle(fill)]
fn fill_members(
    alloc: Global,
    members: &[TemplateMember],
    arguments: &Json,
) -> Result<Items<TemplateMember>, NoMemory>
    ensures { IfOk result (λ left. left ≡ filter_map (filled_member arguments.now) members.now) }
{
    let mut left = Items::new(alloc);
    for member in members {
        let next = fill_member(alloc, member, arguments)?;
        push_some(&mut left, next)?;
    }
    Ok(left)
}
