ghost use Rattle.std.specs.Prelude.{◌≡◌, IfOk};
ghost use Rattle.std.specs.List.{filter_map};
ghost use Rattle.std.specs.Option.{option_and_then, option_copied};
ghost use Rattle.qm_plan.specs.Plans.{arguments_of, filled_act, filled_or_empty, given_arguments, no_members, plan_of};
ghost use Rattle.qm_plan.specs.Templates.{filled};
ghost use Rattle.qm_plan.specs.declared.recipes.Act.TheVariants.{Set};

use crate::arguments::enabled_oob;
use crate::calls::Call;
use crate::filling::fill;
use crate::lists::push_some;
use crate::recipes::{Act, Plan, Recipe};
use crate::templates::Template;
use qm_base::{NoMemory, Text};
use qm_json::Json;
use sqlite_items::Items;
use std::alloc::Global;

/// The object without members.
fn empty(alloc: Global) -> Json
    ensures { result ≡ no_members }
{
    Json::Obj(Items::new(alloc))
}

/// What is left of a template, the empty object where nothing is.
fn fill_or_empty(alloc: Global, template: &Template, arguments: &Json) -> Result<Template, NoMemory>
    ensures { IfOk result (λ left. left ≡ filled_or_empty arguments.now template.now) }
{
    match fill(alloc, template, arguments)? {
        Some(left) => Ok(left),
        None => Ok(Template::Const(empty(alloc))),
    }
}

/// What is left of an event's data.
fn fill_payload(
    alloc: Global,
    payload: &Option<Template>,
    arguments: &Json,
) -> Result<Option<Template>, NoMemory>
    ensures { IfOk result (λ left. left ≡ option_and_then (filled arguments.now) payload.now) }
{
    match payload {
        Some(payload) => fill(alloc, payload, arguments),
        None => Ok(None),
    }
}

/// What is left of an act that sets a cell.
fn fill_set(
    alloc: Global,
    cell: &Text,
    to: &Template,
    arguments: &Json,
) -> Result<Option<Act>, NoMemory>
    ensures { IfOk result (λ left. left ≡ filled_act arguments.now (Set cell.now to.now)) }
{
    match fill(alloc, to, arguments)? {
        Some(to) => {
            let cell = cell.copy(alloc)?;
            Ok(Some(Act::Set { cell, to }))
        }
        None => Ok(None),
    }
}

/// What is left of an act.
fn fill_act(alloc: Global, act: &Act, arguments: &Json) -> Result<Option<Act>, NoMemory>
    ensures { IfOk result (λ left. left ≡ filled_act arguments.now act.now) }
{
    match act {
        Act::Set { cell, to } => fill_set(alloc, cell, to, arguments),
        Act::Raise { event, payload } => {
            let payload = fill_payload(alloc, payload, arguments)?;
            Ok(Some(Act::Raise {
                event: *event,
                payload,
            }))
        }
        Act::Start {
            id,
            units,
            ready,
            manual,
        } => {
            let id = fill_or_empty(alloc, id, arguments)?;
            Ok(Some(Act::Start {
                id,
                units: *units,
                ready: *ready,
                manual: *manual,
            }))
        }
        Act::OnJob { verb, id } => {
            let id = fill_or_empty(alloc, id, arguments)?;
            Ok(Some(Act::OnJob { verb: *verb, id }))
        }
        Act::Negotiate => Ok(Some(Act::Enable(enabled_oob(arguments)))),
        Act::Add { tally, by } => {
            let tally = tally.copy(alloc)?;
            Ok(Some(Act::Add { tally, by: *by }))
        }
        Act::Enable(oob) => Ok(Some(Act::Enable(*oob))),
        Act::Quit => Ok(Some(Act::Quit)),
        Act::Fail(text) => Ok(Some(Act::Fail(text.copy(alloc)?))),
    }
}

/// What is left of acts.
fn fill_acts(alloc: Global, acts: &[Act], arguments: &Json) -> Result<Items<Act>, NoMemory>
    ensures { IfOk result (λ left. left ≡ filter_map (filled_act arguments.now) acts.now) }
{
    let mut left = Items::new(alloc);
    for act in acts {
        let next = fill_act(alloc, act, arguments)?;
        push_some(&mut left, next)?;
    }
    Ok(left)
}

fn fill_recipe(alloc: Global, recipe: &Recipe, arguments: &Json) -> Result<Plan, NoMemory>
    ensures { IfOk result (λ plan. plan ≡ plan_of recipe.now arguments.now) }
{
    let acts = fill_acts(alloc, recipe.acts.as_slice(), arguments)?;
    let ret = fill_or_empty(alloc, &recipe.ret, arguments)?;
    Ok(Plan { acts, ret })
}

/// The plan of a recipe and arguments; without any they are the empty object.
pub fn plan_with(alloc: Global, recipe: &Recipe, arguments: Option<&Json>) -> Result<Plan, NoMemory>
    ensures { IfOk result (λ plan. plan ≡
        plan_of recipe.now (arguments_of (option_copied arguments.entry))) }
{
    match arguments {
        Some(given) => fill_recipe(alloc, recipe, given),
        None => fill_recipe(alloc, recipe, &empty(alloc)),
    }
}

/// The plan of a call: the recipe of its command with the arguments of the call filled in.
pub fn plan(alloc: Global, recipe: &Recipe, call: &Call) -> Result<Plan, NoMemory>
    ensures { IfOk result (λ plan. plan ≡
        plan_of recipe.now (arguments_of (given_arguments call.now))) }
{
    plan_with(alloc, recipe, call.arguments())
}
