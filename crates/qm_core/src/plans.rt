//! The command that a request makes take effect, its call and its plan. This project's own rule.

ghost use Rattle.std.specs.Prelude.{◌≡◌, ◌<◌, length, IfOk, IfSome};
ghost use Rattle.std.specs.Option.{option_copied};
ghost use Rattle.qm_plan.specs.Plans.{arguments_of, plan_of};
ghost use Rattle.qm_core.specs.Planned.{call_with, command_by, command_for, plain_recipe as plain_recipe_of, plan_for, recipe_at};

use crate::arguments::arguments_in;
use crate::judging::verdict;
use crate::requests::Request;
use crate::verdicts::Verdict;
use crate::world::World;
use qm_base::{NoMemory, Shared};
use qm_json::{Json, Members};
use qm_plan::{Call, Plan, Recipe, Template, Waiting, plan_with};
use sqlite_items::Items;
use std::alloc::Global;

/// The command of a request that takes effect. It takes no memory.
pub(crate) fn command(world: &World, request: &Request) -> Option<u32>
    ensures value { result ≡ command_for world.now request.now }
    ensures known { IfSome result (λ command. command < length world.now.schema.commands) }
{
    match verdict(world, request.mode, &request.input) {
        Verdict::Run(command) => Some(command),
        Verdict::Refused(_) => None,
    }
}

/// The call of a command by a value.
pub(crate) fn call(command: Option<u32>, request: Option<Shared<Json>>) -> Option<Call>
    ensures { result ≡ call_with command request }
{
    match (command, request) {
        (Some(command), Some(request)) => Some(Call { command, request }),
        (_, _) => None,
    }
}

fn plain_recipe(alloc: Global) -> Recipe
    ensures { result ≡ plain_recipe_of }
{
    Recipe {
        acts: Items::new(alloc),
        ret: Template::Const(Members::new(alloc).into_json()),
        waiting: Waiting::No,
    }
}

fn command_plan(
    alloc: Global,
    world: &World,
    command: u32,
    arguments: Option<&Json>,
) -> Result<Plan, NoMemory>
    ensures { IfOk result (λ plan. plan
        ≡ plan_of (recipe_at world.now command) (arguments_of (option_copied arguments.entry))) }
{
    match world.binding.recipes.as_slice().get(command as usize) {
        Some(recipe) => plan_with(alloc, recipe, arguments),
        None => plan_with(alloc, &plain_recipe(alloc), arguments),
    }
}

/// The plan of a command that a request calls.
pub(crate) fn call_plan(
    alloc: Global,
    world: &World,
    request: &Request,
    command: u32,
) -> Result<Plan, NoMemory>
    ensures { IfOk result (λ plan. plan ≡ plan_for world.now request.now command) }
{
    let arguments = arguments_in(&request.input);
    command_plan(alloc, world, command, arguments)
}
