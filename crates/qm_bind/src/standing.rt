ghost use Rattle.std.specs.Prelude.{◌≡◌, IfOk, codes, is_some};
ghost use Rattle.qm_bind.specs.Standing.{acting, act_named, answer_named, answering, standing_recipe, verb_named};

use crate::recipes::nothing;
use qm_base::{NoMemory, Text};
use qm_plan::{Act, Recipe, Template, Verb, Waiting};
use sqlite_items::Items;
use std::alloc::Global;

/// What a command asks of a job.
pub fn verb(name: &[u8]) -> Option<Verb>
    ensures { result ≡ verb_named name.now }
{
    if name == b"job-cancel".as_slice() {
        Some(Verb::Cancel)
    } else if name == b"job-pause".as_slice() {
        Some(Verb::Pause)
    } else if name == b"job-resume".as_slice() {
        Some(Verb::Resume)
    } else if name == b"job-complete".as_slice() {
        Some(Verb::Complete)
    } else if name == b"job-finalize".as_slice() {
        Some(Verb::Finalize)
    } else if name == b"job-dismiss".as_slice() {
        Some(Verb::Dismiss)
    } else {
        None
    }
}

/// An act on the job of the argument `id`.
fn on_job(alloc: Global, verb: Verb) -> Result<Act, NoMemory>
    ensures { IfOk result (λ act. act ≡ Act.OnJob verb (Template.Arg (codes "id"))) }
{
    let id = Template::Arg(Text::of(alloc, b"id")?);
    Ok(Act::OnJob { verb, id })
}

/// The act of a command.
fn act(alloc: Global, name: &[u8]) -> Result<Option<Act>, NoMemory>
    ensures { IfOk result (λ act. act ≡ act_named name.now) }
{
    if name == b"qmp_capabilities".as_slice() {
        return Ok(Some(Act::Negotiate));
    }
    if name == b"quit".as_slice() {
        return Ok(Some(Act::Quit));
    }
    match verb(name) {
        Some(verb) => Ok(Some(on_job(alloc, verb)?)),
        None => Ok(None),
    }
}

/// What a query returns.
pub fn answer(name: &[u8]) -> Option<Template>
    ensures { result ≡ answer_named name.now }
{
    if name == b"query-version".as_slice() {
        Some(Template::Version)
    } else if name == b"query-commands".as_slice() {
        Some(Template::Commands)
    } else if name == b"query-qmp-schema".as_slice() {
        Some(Template::Introspection)
    } else if name == b"query-jobs".as_slice() {
        Some(Template::Jobs)
    } else {
        None
    }
}

fn with_act(alloc: Global, act: Act) -> Result<Recipe, NoMemory>
    ensures { IfOk result (λ recipe. recipe ≡ acting act) }
{
    let mut acts = Items::new(alloc);
    acts.push(act)?;
    Ok(Recipe {
        acts,
        ret: nothing(alloc),
        waiting: Waiting::No,
    })
}

fn with_answer(alloc: Global, ret: Template) -> Recipe
    ensures { result ≡ answering ret }
{
    Recipe {
        acts: Items::new(alloc),
        ret,
        waiting: Waiting::No,
    }
}

/// The recipe of a command that stands before each schema.
pub fn standing(alloc: Global, name: &[u8]) -> Result<Option<Recipe>, NoMemory>
    ensures { IfOk result (λ recipe. recipe ≡ standing_recipe name.now) }
{
    if let Some(act) = act(alloc, name)? {
        return Ok(Some(with_act(alloc, act)?));
    }
    match answer(name) {
        Some(ret) => Ok(Some(with_answer(alloc, ret))),
        None => Ok(None),
    }
}

/// Whether the command of the name acts.
pub fn acts(name: &[u8]) -> bool
    ensures { result ≡ is_some (act_named name.now) }
{
    name == b"qmp_capabilities".as_slice() || name == b"quit".as_slice() || verb(name).is_some()
}

/// Whether a command of the name stands before each schema.
pub fn is_standing(name: &[u8]) -> bool
    ensures { result ≡ is_some (standing_recipe name.now) }
{
    acts(name) || answer(name).is_some()
}
