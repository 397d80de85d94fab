//! What comes of a command that takes effect. This project's own rule.

ghost use Rattle.std.specs.Prelude.{◌≡◌, ◌≢◌, ◌<◌, [], IfOk, OnErr, Ok, Err, length};
ghost use Rattle.qm_base.specs.Names.{is_named};
ghost use Rattle.qm_admit.specs.Misfits.{return_misfit, verdict_of as admission_of};
ghost use Rattle.qm_plan.specs.Applying.{applied_of};
ghost use Rattle.qm_plan.specs.Stores.{committed};
ghost use Rattle.qm_plan.specs.declared.applied.ApplyFault.TheVariants.{Memory};
ghost use Rattle.qm_core.specs.Effects.{command_name_at, effect_of, facts_of, failure_text, full_text, named_effect, outcome_effect, applied_effect, returned as returned_by, unbuilt_names, unbuilt_text};
ghost use Rattle.qm_core.specs.State.{left_by};

use crate::world::{Setting, World};
use qm_admit::{Verdict, admit_return};
use qm_base::{NoMemory, Text};
use qm_json::Json;
use qm_plan::{Applied, ApplyFault, Plan, Store, StoreChangeList, apply};
use std::alloc::Global;

/// What a command returns, or what its failure says.
pub(crate) type Effect = Result<Json, Text>;

/// What comes of a command, and how it changes the store.
#[derive(Drop)]
pub(crate) struct Ended {
    pub(crate) effect: Effect,
    pub(crate) changes: StoreChangeList,
}

fn is_unbuilt(name: &[u8]) -> bool
    ensures { result ≡ is_named unbuilt_names name.now }
{
    name == b"query-jobs".as_slice()
        || name == b"job-cancel".as_slice()
        || name == b"job-pause".as_slice()
        || name == b"job-resume".as_slice()
        || name == b"job-complete".as_slice()
        || name == b"job-finalize".as_slice()
        || name == b"job-dismiss".as_slice()
}

fn unbuilt_text(alloc: Global, name: &[u8]) -> Result<Text, NoMemory>
    ensures { IfOk result (λ text. text ≡ unbuilt_text name.now) }
{
    let mut text = Text::of(alloc, b"The command ")?;
    text.extend(name)?;
    text.extend(b" is not built")?;
    Ok(text)
}

fn full_text(alloc: Global, name: &[u8]) -> Result<Text, NoMemory>
    ensures { IfOk result (λ text. text ≡ full_text name.now) }
{
    let mut text = Text::of(alloc, b"Tally '")?;
    text.extend(name)?;
    text.extend(b"' is full")?;
    Ok(text)
}

/// What a failure says; want of memory is none.
fn failure_text(alloc: Global, fault: ApplyFault) -> Result<Text, NoMemory>
    ensures text { IfOk result (λ text. text ≡ failure_text fault) }
    ensures known { IfOk result (λ _. fault ≢ Memory) }
{
    match fault {
        ApplyFault::Failed(text) => Ok(text),
        ApplyFault::TallyFull(name) => full_text(alloc, name.as_slice()),
        ApplyFault::Memory => Err(NoMemory),
    }
}

fn returned(alloc: Global, world: &World, command: u32, value: Json) -> Result<Effect, NoMemory>
    requires id { command < length world.now.schema.commands }
    ensures { let admission = admission_of (return_misfit world.now.schema command value) in
        IfOk result (λ effect. effect ≡ returned_by value admission) }
{
    match admit_return(&world.schema, command, &value) {
        Verdict::Yes => Ok(Ok(value)),
        Verdict::No(_, _) => Ok(Err(Text::of(alloc, b"The return value does not fit its type")?)),
    }
}

fn failed(alloc: Global, text: Text) -> Ended
    ensures effect { result.effect ≡ Err text }
    ensures changes { result.changes ≡ [] }
{
    Ended {
        effect: Err(text),
        changes: StoreChangeList::new(alloc),
    }
}

fn outcome_ending(
    alloc: Global,
    world: &World,
    command: u32,
    applied: Applied,
) -> Result<Ended, NoMemory>
    requires id { command < length world.now.schema.commands }
    ensures effect { IfOk result (λ ending. ending.effect
        ≡ outcome_effect world.now command applied.ret) }
    ensures changes { IfOk result (λ ending. IfOk ending.effect (λ _.
        ending.changes ≡ applied.changes)) }
    ensures none { IfOk result (λ ending. OnErr ending.effect (ending.changes ≡ [])) }
{
    let Applied { ret, changes, .. } = applied;
    match returned(alloc, world, command, ret)? {
        Ok(value) => Ok(Ended {
            effect: Ok(value),
            changes,
        }),
        Err(text) => Ok(failed(alloc, text)),
    }
}

fn applied_ending(
    alloc: Global,
    setting: &Setting,
    store: &Store,
    command: u32,
    plan: &Plan,
) -> Result<Ended, NoMemory>
    requires id { command < length setting.now.schema.commands }
    ensures effect { let applied = applied_of (facts_of setting.now) plan.now store.now in
        IfOk result (λ ending. ending.effect ≡ applied_effect setting.now command applied) }
    ensures changes { let applied = applied_of (facts_of setting.now) plan.now store.now in
        IfOk result (λ ending. IfOk ending.effect (λ _.
        committed ending.changes store.now ≡ left_by store.now applied)) }
    ensures none { IfOk result (λ ending. OnErr ending.effect (ending.changes ≡ [])) }
{
    match apply(alloc, plan, store, setting.facts()) {
        Ok(applied) => outcome_ending(alloc, setting.world(), command, applied),
        Err(fault) => Ok(failed(alloc, failure_text(alloc, fault)?)),
    }
}

fn command_name(world: &World, command: u32) -> &[u8]
    requires id { command < length world.now.schema.commands }
    ensures { result.now ≡ command_name_at world.now command }
{
    world.schema.command(command).name.as_slice()
}

/// What comes of the command of the number, by its plan and the store, which stays as it is. An
/// error says that memory was wanting.
pub(crate) fn ending(
    alloc: Global,
    setting: &Setting,
    store: &Store,
    command: u32,
    plan: &Plan,
) -> Result<Ended, NoMemory>
    requires id { command < length setting.now.schema.commands }
    ensures effect { IfOk result (λ ending. ending.effect
        ≡ effect_of setting.now store.now command plan.now) }
    ensures changes { let applied = applied_of (facts_of setting.now) plan.now store.now in
        IfOk result (λ ending. IfOk ending.effect (λ _.
        committed ending.changes store.now ≡ left_by store.now applied)) }
    ensures none { IfOk result (λ ending. OnErr ending.effect (ending.changes ≡ [])) }
{
    let name = command_name(setting.world(), command);
    if is_unbuilt(name) {
        return Ok(failed(alloc, unbuilt_text(alloc, name)?));
    }
    applied_ending(alloc, setting, store, command, plan)
}
