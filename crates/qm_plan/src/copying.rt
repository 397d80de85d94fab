ghost use Rattle.std.specs.Prelude.{◌≡◌, IfOk};

use crate::recipes::{Act, Recipe};
use crate::templates::{Template, TemplateMember};
use qm_base::NoMemory;
use sqlite_items::Items;
use std::alloc::Global;

impl Template {
    /// An equal template.
    pub fn copy(&self, alloc: Global) -> Result<Template, NoMemory>
        ensures { IfOk result (λ copied. copied ≡ self.now) }
    {
        copy_template(alloc, self)
    }
}

#[cycle(copy)]
fn copy_template(alloc: Global, template: &Template) -> Result<Template, NoMemory>
    ensures { IfOk result (λ copied. copied ≡ template.now) }
{
    match template {
        Template::Const(value) => Ok(Template::Const(value.copy(alloc)?)),
        Template::Arg(name) => Ok(Template::Arg(name.copy(alloc)?)),
        Template::Args => Ok(Template::Args),
        Template::Cell(name) => Ok(Template::Cell(name.copy(alloc)?)),
        Template::Tally(name) => Ok(Template::Tally(name.copy(alloc)?)),
        Template::Object(members) => {
            Ok(Template::Object(copy_members(alloc, members.as_slice())?))
        }
        Template::Array(items) => Ok(Template::Array(copy_items(alloc, items.as_slice())?)),
        Template::Version => Ok(Template::Version),
        Template::Commands => Ok(Template::Commands),
        Template::Introspection => Ok(Template::Introspection),
        Template::Jobs => Ok(Template::Jobs),
    }
}

#[cycle(copy)]
fn copy_items(alloc: Global, items: &[Template]) -> Result<Items<Template>, NoMemory>
    ensures { IfOk result (λ copied. copied ≡ items.now) }
{
    let mut copied = Items::new(alloc);
    for item in items {
        copied.push(copy_template(alloc, item)?)?;
    }
    Ok(copied)
}

#[cycle(copy)]
fn copy_member(alloc: Global, member: &TemplateMember) -> Result<TemplateMember, NoMemory>
    ensures { IfOk result (λ copied. copied ≡ member.now) }
{
    let name = member.name.copy(alloc)?;
    let template = copy_template(alloc, &member.template)?;
    Ok(TemplateMember { name, template })
}

#[cycle(copy)]
fn copy_members(
    alloc: Global,
    members: &[TemplateMember],
) -> Result<Items<TemplateMember>, NoMemory>
    ensures { IfOk result (λ copied. copied ≡ members.now) }
{
    let mut copied = Items::new(alloc);
    for member in members {
        copied.push(copy_member(alloc, member)?)?;
    }
    Ok(copied)
}

fn copy_payload(alloc: Global, payload: &Option<Template>) -> Result<Option<Template>, NoMemory>
    ensures { IfOk result (λ copied. copied ≡ payload.now) }
{
    match payload {
        Some(payload) => Ok(Some(payload.copy(alloc)?)),
        None => Ok(None),
    }
}

fn copy_act(alloc: Global, act: &Act) -> Result<Act, NoMemory>
    ensures { IfOk result (λ copied. copied ≡ act.now) }
{
    match act {
        Act::Set { cell, to } => {
            let cell = cell.copy(alloc)?;
            let to = to.copy(alloc)?;
            Ok(Act::Set { cell, to })
        }
        Act::Add { tally, by } => {
            let tally = tally.copy(alloc)?;
            Ok(Act::Add { tally, by: *by })
        }
        Act::Raise { event, payload } => {
            let payload = copy_payload(alloc, payload)?;
            Ok(Act::Raise {
                event: *event,
                payload,
            })
        }
        Act::Start {
            id,
            units,
            ready,
            manual,
        } => {
            let id = id.copy(alloc)?;
            Ok(Act::Start {
                id,
                units: *units,
                ready: *ready,
                manual: *manual,
            })
        }
        Act::OnJob { verb, id } => {
            let id = id.copy(alloc)?;
            Ok(Act::OnJob { verb: *verb, id })
        }
        Act::Negotiate => Ok(Act::Negotiate),
        Act::Enable(oob) => Ok(Act::Enable(*oob)),
        Act::Quit => Ok(Act::Quit),
        Act::Fail(text) => Ok(Act::Fail(text.copy(alloc)?)),
    }
}

fn copy_acts(alloc: Global, acts: &[Act]) -> Result<Items<Act>, NoMemory>
    ensures { IfOk result (λ copied. copied ≡ acts.now) }
{
    let mut copied = Items::new(alloc);
    for act in acts {
        copied.push(copy_act(alloc, act)?)?;
    }
    Ok(copied)
}

impl Recipe {
    /// An equal recipe.
    pub fn copy(&self, alloc: Global) -> Result<Recipe, NoMemory>
        ensures { IfOk result (λ copied. copied ≡ self.now) }
    {
        let acts = copy_acts(alloc, self.acts.as_slice())?;
        let ret = self.ret.copy(alloc)?;
        Ok(Recipe {
            acts,
            ret,
            waiting: self.waiting,
        })
    }
}
