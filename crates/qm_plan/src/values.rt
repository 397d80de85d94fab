ghost use Rattle.std.specs.Prelude.{◌≡◌, IfOk, Option, map, pos, unwrap_or};
ghost use Rattle.std.specs.Option.{option_copied};
ghost use Rattle.qm_json.specs.declared.value.Json.TheVariants as json;
ghost use Rattle.qm_plan.specs.Applying.{payload_of};
ghost use Rattle.qm_plan.specs.Stores.{cell_of, committed, tally_of};
ghost use Rattle.qm_plan.specs.Templates.{value_of, value_of_member};

use crate::changes::StoreChange;
use crate::facts::Facts;
use crate::stores::Store;
use crate::templates::{Template, TemplateMember};
use qm_base::{NoMemory, Text};
use qm_json::{Json, Member};
use sqlite_items::Items;
use std::alloc::Global;

fn copy_or_null(alloc: Global, value: Option<&Json>) -> Result<Json, NoMemory>
    ensures { IfOk result (λ copied. copied ≡ unwrap_or (option_copied value.entry) json.Null) }
{
    match value {
        Some(value) => value.copy(alloc),
        None => Ok(Json::Null),
    }
}

fn cell_value(
    alloc: Global,
    store: &Store,
    changes: &[StoreChange],
    name: &Text,
) -> Result<Json, NoMemory>
    ensures { IfOk result (λ value. value ≡
        unwrap_or (cell_of name.now (committed changes.now store.now)) json.Null) }
{
    copy_or_null(alloc, store.cell_after(changes, name.as_slice()))
}

pub(crate) fn count_or_zero(store: &Store, changes: &[StoreChange], name: &Text) -> u64
    ensures { result ≡ unwrap_or (tally_of name.now (committed changes.now store.now)) 0 }
{
    store.tally_after(changes, name.as_slice()).unwrap_or(0)
}

/// The value that a template stands for, once changes of the store are committed.
#[cycle(value)]
pub(crate) fn value(
    alloc: Global,
    template: &Template,
    store: &Store,
    changes: &[StoreChange],
    facts: &Facts,
) -> Result<Json, NoMemory>
    ensures { IfOk result (λ value. value ≡
        value_of facts.now (committed changes.now store.now) template.now) }
{
    match template {
        Template::Const(value) => value.copy(alloc),
        Template::Arg(_) => Ok(Json::Null),
        Template::Args => Ok(Json::Null),
        Template::Cell(name) => cell_value(alloc, store, changes, name),
        Template::Tally(name) => Ok(Json::Int(i128::from(count_or_zero(store, changes, name)))),
        Template::Object(members) => {
            let members = values_of_members(alloc, members.as_slice(), store, changes, facts)?;
            Ok(Json::Obj(members))
        }
        Template::Array(items) => {
            let items = values(alloc, items.as_slice(), store, changes, facts)?;
            Ok(Json::Arr(items))
        }
        Template::Version => facts.version.copy(alloc),
        Template::Commands => facts.commands.copy(alloc),
        Template::Introspection => facts.introspection.copy(alloc),
        Template::Jobs => facts.jobs.copy(alloc),
    }
}

#[cycle(value)]
fn values(
    alloc: Global,
    items: &[Template],
    store: &Store,
    changes: &[StoreChange],
    facts: &Facts,
) -> Result<Items<Json>, NoMemory>
    ensures { IfOk result (λ made. made ≡
        map (value_of facts.now (committed changes.now store.now)) items.now) }
{
    let mut made = Items::new(alloc);
    for item in items {
        made.push(value(alloc, item, store, changes, facts)?)?;
    }
    Ok(made)
}

#[cycle(value)]
fn value_of_one(
    alloc: Global,
    member: &TemplateMember,
    store: &Store,
    changes: &[StoreChange],
    facts: &Facts,
) -> Result<Member, NoMemory>
    ensures { IfOk result (λ made. made ≡
        value_of_member facts.now (committed changes.now store.now) member.now) }
{
    let name = member.name.copy(alloc)?;
    let value = value(alloc, &member.template, store, changes, facts)?;
    Ok(Member { name, value })
}

#[cycle(value)]
fn values_of_members(
    alloc: Global,
    members: &[TemplateMember],
    store: &Store,
    changes: &[StoreChange],
    facts: &Facts,
) -> Result<Items<Member>, NoMemory>
    ensures { IfOk result (λ made. made ≡
        map (value_of_member facts.now (committed changes.now store.now)) members.now) }
{
    let mut made = Items::new(alloc);
    for member in members {
        made.push(value_of_one(alloc, member, store, changes, facts)?)?;
    }
    Ok(made)
}

/// The data of an event, once changes of the store are committed.
pub(crate) fn payload_value(
    alloc: Global,
    payload: &Option<Template>,
    store: &Store,
    changes: &[StoreChange],
    facts: &Facts,
) -> Result<Json, NoMemory>
    ensures { IfOk result (λ value. value ≡
        payload_of facts.now (committed changes.now store.now) payload.now) }
{
    match payload {
        Some(payload) => value(alloc, payload, store, changes, facts),
        None => Ok(Json::Obj(Items::new(alloc))),
    }
}
