ghost use Rattle.std.specs.Prelude.{◌≡◌, ◌<◌, [], ◌∷◌, ◌++◌, length, codes, false, option_map, IfOk, IfSome, Some, slice_get};
ghost use Rattle.std.specs.List.{filter_map};
ghost use Rattle.std.specs.Option.{option_copied};
ghost use Rattle.qm_json.specs.Members.{has_name};
ghost use Rattle.qm_caps.specs.Greetings.{named};
ghost use Rattle.qm_json.specs.declared.value.Json.TheVariants as json;
ghost use Rattle.qm_plan.specs.Applying.{applied_of, enabled_by};
ghost use Rattle.qm_plan.specs.Stores.{committed};
ghost use Rattle.qm_core.specs.Effects.{effect_of, facts_of};
ghost use Rattle.qm_core.specs.Judged.{told, told_verdict};
ghost use Rattle.qm_core.specs.Planned.{command_by, command_for, enables_out_of_band as enables_out_of_band_by, mode_by, plan_for, planned_for};
ghost use Rattle.qm_core.specs.Refusals.{class_of, desc_of};
ghost use Rattle.qm_core.specs.Replies.{effect_member, error_value, id_members, id_of, is_return, outcome_of, reply_to};
ghost use Rattle.qm_core.specs.State.{effect_store, stored, verdict_store};
ghost use Rattle.qm_core.specs.Standing.{calls as calls_by};
ghost use Rattle.qm_core.specs.Verdicts.{IsKnown, verdict_of};

use crate::effects::{Effect, Ended, ending};
use crate::inputs::Input;
use crate::judging::{command_name, members, verdict};
use crate::refusals::{class, class_name, desc};
use crate::requests::Request;
use crate::verdicts::{Class, Refusal, Verdict};
use crate::world::{Setting, World};
use qm_base::{NoMemory, Text};
use qm_caps::Mode;
use qm_json::{Json, Members, has_member};
use qm_plan::{Act, Plan, Store, StoreChangeList};
use std::alloc::Global;

fn error(alloc: Global, class: Class, desc: Text) -> Result<Json, NoMemory>
    ensures { IfOk result (λ value. value ≡ error_value class desc) }
{
    let mut members = Members::new(alloc);
    let class = Json::string(alloc, class_name(class))?;
    members.add(alloc, b"class", class)?;
    members.add(alloc, b"desc", Json::Str(desc))?;
    Ok(members.into_json())
}

fn lone(alloc: Global, name: &[u8], value: Json) -> Result<Members, NoMemory>
    ensures { IfOk result (λ members. members ≡ named name.now value ∷ []) }
{
    let mut members = Members::new(alloc);
    members.add(alloc, name, value)?;
    Ok(members)
}

fn refused(
    alloc: Global,
    world: &World,
    input: &Input,
    refusal: &Refusal<'_>,
) -> Result<Members, NoMemory>
    ensures value { let desc = desc_of world.now input.now (told refusal.now) in
        IfOk result (λ members. members
        ≡ named (codes "error") (error_value (class_of (told refusal.now)) desc) ∷ []) }
    ensures no_id { IfOk result (λ members. has_name members (codes "id") ≡ false) }
{
    let desc = desc(alloc, world, input, refusal)?;
    lone(alloc, b"error", error(alloc, class(refusal), desc)?)
}

fn effect_members(alloc: Global, effect: Effect) -> Result<Members, NoMemory>
    ensures value { IfOk result (λ members. members ≡ effect_member effect ∷ []) }
    ensures no_id { IfOk result (λ members. has_name members (codes "id") ≡ false) }
{
    match effect {
        Ok(value) => lone(alloc, b"return", value),
        Err(text) => lone(alloc, b"error", error(alloc, Class::GenericError, text)?),
    }
}

/// What a reply says before its id, and how the store is changed.
#[derive(Drop)]
struct Message {
    members: Members,
    changes: StoreChangeList,
}

fn refused_outcome(
    alloc: Global,
    world: &World,
    input: &Input,
    refusal: &Refusal<'_>,
) -> Result<Message, NoMemory>
    ensures value { let desc = desc_of world.now input.now (told refusal.now) in
        IfOk result (λ outcome. outcome.members
        ≡ named (codes "error") (error_value (class_of (told refusal.now)) desc) ∷ []) }
    ensures no_id { IfOk result (λ outcome. has_name outcome.members (codes "id") ≡ false) }
    ensures changes { IfOk result (λ outcome. outcome.changes ≡ []) }
{
    Ok(Message {
        members: refused(alloc, world, input, refusal)?,
        changes: StoreChangeList::new(alloc),
    })
}

fn command_outcome(
    alloc: Global,
    setting: &Setting,
    store: &Store,
    command: u32,
    plan: &Plan,
) -> Result<Message, NoMemory>
    requires id { command < length setting.now.schema.commands }
    ensures value { IfOk result (λ outcome. outcome.members
        ≡ effect_member (effect_of setting.now store.now command plan.now) ∷ []) }
    ensures no_id { IfOk result (λ outcome. has_name outcome.members (codes "id") ≡ false) }
    ensures changes { let effect = effect_of setting.now store.now command plan.now in
        let applied = applied_of (facts_of setting.now) plan.now store.now in
        IfOk result (λ outcome. committed outcome.changes store.now ≡ effect_store store.now applied effect) }
{
    let Ended { effect, changes } = ending(alloc, setting, store, command, plan)?;
    let members = effect_members(alloc, effect)?;
    Ok(Message { members, changes })
}

fn outcome(
    alloc: Global,
    setting: &Setting,
    store: &Store,
    request: &Request,
    verdict: &Verdict<'_>,
    plan: &Option<Plan>,
) -> Result<Message, NoMemory>
    requires known { IsKnown setting.now (told_verdict verdict.now) }
    requires planned { let command = command_by (told_verdict verdict.now) in
        plan.now ≡ option_map (plan_for setting.now request.now) command }
    ensures value { IfOk result (λ outcome. outcome.members
        ≡ outcome_of setting.now store.now request.now (told_verdict verdict.now) ∷ []) }
    ensures no_id { IfOk result (λ outcome. has_name outcome.members (codes "id") ≡ false) }
    ensures changes { IfOk result (λ outcome. committed outcome.changes store.now
        ≡ verdict_store setting.now store.now request.now (told_verdict verdict.now)) }
{
    match (verdict, plan) {
        (Verdict::Refused(refusal), _) => refused_outcome(
            alloc,
            setting.world(),
            &request.input,
            refusal,
        ),
        (Verdict::Run(command), Some(plan)) => command_outcome(
            alloc, setting, store, *command, plan,
        ),
        (Verdict::Run(_), None) => unreachable!(),
    }
}

fn id(input: &Input) -> Option<&Json>
    ensures { id_members (option_copied result) ≡ id_of input.now }
{
    match input {
        Input::Doc(value) => value.get().member(b"id"),
        Input::Bad(_) => None,
    }
}

fn with_id(alloc: Global, mut members: Members, input: &Input) -> Result<Json, NoMemory>
    requires no_id { has_name members (codes "id") ≡ false }
    ensures { IfOk result (λ value. value ≡ json.Obj (members ++ id_of input.now)) }
{
    match id(input) {
        Some(id) => {
            members.add(alloc, b"id", id.copy(alloc)?)?;
            Ok(members.into_json())
        }
        None => Ok(members.into_json()),
    }
}

/// A reply, and how the store is changed.
#[derive(Drop)]
pub(crate) struct Reply {
    pub(crate) value: Json,
    pub(crate) changes: StoreChangeList,
}

/// The verdict on a request whose command is known, where one takes effect.
#[tactic(auto, using(crate::proofs::StoreLaws::run_by_command))]
fn verdict_by<'a>(world: &World, request: &'a Request, command: Option<u32>) -> Verdict<'a>
    requires command { command ≡ command_for world.now request.now }
    requires known { IfSome command (λ c. c < length world.now.schema.commands) }
    ensures value { told_verdict result ≡ verdict_of world.now request.now.mode request.now.input }
    ensures known { IsKnown world.now (told_verdict result) }
{
    match command {
        Some(command) => Verdict::Run(command),
        None => verdict(world, request.mode, &request.input),
    }
}

fn judged_message(
    alloc: Global,
    setting: &Setting,
    store: &Store,
    request: &Request,
    command: Option<u32>,
    plan: &Option<Plan>,
) -> Result<Message, NoMemory>
    requires command { command ≡ command_for setting.now request.now }
    requires known { IfSome command (λ c. c < length setting.now.schema.commands) }
    requires planned { plan.now ≡ planned_for setting.now request.now }
    ensures value { let verdict = verdict_of setting.now request.now.mode request.now.input in
        IfOk result (λ message. message.members
        ≡ outcome_of setting.now store.now request.now verdict ∷ []) }
    ensures no_id { IfOk result (λ message. has_name message.members (codes "id") ≡ false) }
    ensures changes { let verdict = verdict_of setting.now request.now.mode request.now.input in
        IfOk result (λ message. committed message.changes store.now
        ≡ verdict_store setting.now store.now request.now verdict) }
{
    let verdict = verdict_by(setting.world(), request, command);
    outcome(alloc, setting, store, request, &verdict, plan)
}

/// The reply to a request, by its mode at its admission, its command that takes effect, its plan
/// and the store, which stays as it is (QMP specification, "Commands Responses").
#[tactic(auto, using(crate::proofs::StoreLaws::stored_by_verdict))]
pub(crate) fn replied(
    alloc: Global,
    setting: &Setting,
    store: &Store,
    request: &Request,
    command: Option<u32>,
    plan: &Option<Plan>,
) -> Result<Reply, NoMemory>
    requires command { command ≡ command_for setting.now request.now }
    requires known { IfSome command (λ c. c < length setting.now.schema.commands) }
    requires planned { plan.now ≡ planned_for setting.now request.now }
    ensures value { IfOk result (λ reply. reply.value ≡ reply_to setting.now store.now request.now) }
    ensures changes { IfOk result (λ reply. committed reply.changes store.now
        ≡ stored setting.now store.now plan.now (reply_to setting.now store.now request.now)) }
{
    let Message { members, changes } = judged_message(
        alloc, setting, store, request, command, plan,
    )?;
    let value = with_id(alloc, members, &request.input)?;
    Ok(Reply { value, changes })
}

/// Whether a reply is no error.
pub(crate) fn is_return(reply: &Json) -> bool
    ensures { result ≡ is_return reply.now }
{
    has_member(members(reply), b"return")
}

/// Whether a request names the command.
pub(crate) fn calls(request: &Request, name: &[u8]) -> bool
    ensures { result ≡ calls_by name.now (Some request.now) }
{
    match &request.input {
        Input::Doc(value) => match command_name(value.get()) {
            Some(named) => named == name,
            None => name.is_empty(),
        },
        Input::Bad(_) => name.is_empty(),
    }
}

fn enabled(act: &Act) -> Option<bool>
    ensures { result ≡ enabled_by act.now }
{
    match act {
        Act::Enable(oob) => Some(*oob),
        _ => None,
    }
}

/// What the first act that ends the negotiation enables.
fn first_enabled(acts: &[Act]) -> Option<bool>
    ensures { result ≡ slice_get (filter_map enabled_by acts.now) 0 }
{
    for act in acts {
        if let Some(oob) = enabled(act) {
            return Some(oob);
        }
    }
    None
}

fn enables_out_of_band(plan: &Plan) -> bool
    ensures { result ≡ enables_out_of_band_by plan.now }
{
    matches!(first_enabled(plan.acts.as_slice()), Some(true))
}

/// The command mode that negotiation by a plan opens (QMP specification, "Capabilities
/// Negotiation").
pub(crate) fn mode(plan: &Option<Plan>) -> Mode
    ensures { result ≡ mode_by plan.now }
{
    match plan {
        Some(plan) if enables_out_of_band(plan) => Mode::CommandOob,
        _ => Mode::Command,
    }
}
