ghost use Rattle.std.specs.Prelude.{◌≡◌, ◌≢◌, ◌+◌, ◌++◌, ◌∷◌, [], Ok, Err, IfOk, IfErr, OnOk, slice_get, unwrap_or};
ghost use Rattle.std.specs.List.{filter_map, list_any};
ghost use Rattle.qm_plan.specs.Applying.{act_of, acts_of, added, applied_of, enabled_by, is_quit, job_act_of, outcome_in, raised_of};
ghost use Rattle.qm_plan.specs.Stores.{changed, committed, tally_of};
ghost use Rattle.qm_plan.specs.Templates.{value_of};
ghost use Rattle.qm_plan.specs.declared.applied.ApplyFault.TheVariants.{Memory};
ghost use Rattle.qm_plan.specs.declared.changes.StoreChange.TheVariants as change;

use crate::MOST_COUNT;
use crate::applied::{Applied, ApplyFault};
use crate::changes::{StoreChange, StoreChangeList};
use crate::events::{Raised, RaisedList};
use crate::facts::Facts;
use crate::lists::{note_some, push_some};
use crate::recipes::{Act, Plan};
use crate::stores::Store;
use crate::templates::Template;
use crate::values::{count_or_zero, payload_value, value};
use qm_base::{NoMemory, Text};
use sqlite_items::Items;
use std::alloc::Global;

/// The change by which a cell gets a value.
fn set(
    alloc: Global,
    cell: &Text,
    to: &Template,
    store: &Store,
    changes: &[StoreChange],
    facts: &Facts,
) -> Result<StoreChange, NoMemory>
    ensures { IfOk result (λ made. made ≡
        change.Cell cell.now (value_of facts.now (committed changes.now store.now) to.now)) }
{
    let value = value(alloc, to, store, changes, facts)?;
    let name = cell.copy(alloc)?;
    Ok(StoreChange::Cell(name, value))
}

/// The change by which a tally grows to a count.
fn grow(alloc: Global, tally: &Text, count: u64) -> Result<StoreChange, NoMemory>
    ensures { IfOk result (λ made. made ≡ change.Tally tally.now count) }
{
    let name = tally.copy(alloc)?;
    Ok(StoreChange::Tally(name, count))
}

/// The change by which a tally grows by a number.
fn add(
    alloc: Global,
    tally: &Text,
    by: u32,
    store: &Store,
    changes: &[StoreChange],
) -> Result<StoreChange, ApplyFault>
    ensures ok { let now = committed changes.now store.now in IfOk result (λ made.
        added tally.now (unwrap_or (tally_of tally.now now) 0 + by) now ≡ Ok (changed made now)) }
    ensures err { let now = committed changes.now store.now in IfErr result (λ fault.
        fault ≢ Memory → added tally.now (unwrap_or (tally_of tally.now now) 0 + by) now ≡ Err fault) }
{
    let count = count_or_zero(store, changes, tally);
    let by = u64::from(by);
    if count > MOST_COUNT - by {
        return Err(ApplyFault::TallyFull(tally.copy(alloc)?));
    }
    Ok(grow(alloc, tally, count + by)?)
}

/// Notes a change behind the others.
fn note(changes: &mut StoreChangeList, change: StoreChange) -> Result<(), ApplyFault>
    ensures ok { OnOk result (changes.new ≡ changes.old ++ change ∷ []) }
    ensures err { IfErr result (λ fault. fault ≡ Memory) }
{
    match changes.push(change) {
        Ok(()) => Ok(()),
        Err(_) => Err(ApplyFault::Memory),
    }
}

/// Notes what an act changes of the store.
fn act(
    alloc: Global,
    act: &Act,
    store: &Store,
    facts: &Facts,
    changes: &mut StoreChangeList,
) -> Result<(), ApplyFault>
    ensures ok { OnOk result (act_of facts.now act.now (committed changes.old store.now) ≡
        Ok (committed changes.new store.now)) }
    ensures err { IfErr result (λ fault. fault ≢ Memory →
        act_of facts.now act.now (committed changes.old store.now) ≡ Err fault) }
{
    match act {
        Act::Set { cell, to } => {
            let made = set(alloc, cell, to, store, changes.as_slice(), facts)?;
            note(changes, made)?;
            Ok(())
        }
        Act::Add { tally, by } => {
            let made = add(alloc, tally, *by, store, changes.as_slice())?;
            note(changes, made)?;
            Ok(())
        }
        Act::Fail(text) => Err(ApplyFault::Failed(text.copy(alloc)?)),
        _ => Ok(()),
    }
}

/// What acts change of the store.
fn changes_by(
    alloc: Global,
    acts: &[Act],
    store: &Store,
    facts: &Facts,
) -> Result<StoreChangeList, ApplyFault>
    ensures ok { IfOk result (λ changes. acts_of facts.now acts.now store.now ≡
        Ok (committed changes store.now)) }
    ensures err { IfErr result (λ fault. fault ≢ Memory →
        acts_of facts.now acts.now store.now ≡ Err fault) }
{
    let mut changes = StoreChangeList::new(alloc);
    for next in acts {
        act(alloc, next, store, facts, &mut changes)?;
    }
    Ok(changes)
}

/// An act on a job, its id a constant.
fn job_act(
    alloc: Global,
    act: &Act,
    store: &Store,
    changes: &[StoreChange],
    facts: &Facts,
) -> Result<Option<Act>, NoMemory>
    ensures { IfOk result (λ made. made ≡
        job_act_of facts.now (committed changes.now store.now) act.now) }
{
    match act {
        Act::Start {
            id,
            units,
            ready,
            manual,
        } => {
            let id = Template::Const(value(alloc, id, store, changes, facts)?);
            Ok(Some(Act::Start {
                id,
                units: *units,
                ready: *ready,
                manual: *manual,
            }))
        }
        Act::OnJob { verb, id } => {
            let id = Template::Const(value(alloc, id, store, changes, facts)?);
            Ok(Some(Act::OnJob { verb: *verb, id }))
        }
        _ => Ok(None),
    }
}

/// The acts on jobs.
fn job_acts(
    alloc: Global,
    acts: &[Act],
    store: &Store,
    changes: &[StoreChange],
    facts: &Facts,
) -> Result<Items<Act>, NoMemory>
    ensures { IfOk result (λ made. made ≡
        filter_map (job_act_of facts.now (committed changes.now store.now)) acts.now) }
{
    let mut made = Items::new(alloc);
    for act in acts {
        let next = job_act(alloc, act, store, changes, facts)?;
        push_some(&mut made, next)?;
    }
    Ok(made)
}

/// The event that an act raises.
fn raise(
    alloc: Global,
    act: &Act,
    store: &Store,
    changes: &[StoreChange],
    facts: &Facts,
) -> Result<Option<Raised>, NoMemory>
    ensures { IfOk result (λ raised. raised ≡
        raised_of facts.now (committed changes.now store.now) act.now) }
{
    match act {
        Act::Raise { event, payload } => {
            let payload = payload_value(alloc, payload, store, changes, facts)?;
            Ok(Some(Raised {
                event: *event,
                payload,
            }))
        }
        _ => Ok(None),
    }
}

/// The events that acts raise.
fn raise_all(
    alloc: Global,
    acts: &[Act],
    store: &Store,
    changes: &[StoreChange],
    facts: &Facts,
) -> Result<RaisedList, NoMemory>
    ensures { IfOk result (λ raised. raised ≡
        filter_map (raised_of facts.now (committed changes.now store.now)) acts.now) }
{
    let mut raised = RaisedList::new(alloc);
    for act in acts {
        let next = raise(alloc, act, store, changes, facts)?;
        note_some(&mut raised, next)?;
    }
    Ok(raised)
}

fn enabling(act: &Act) -> Option<bool>
    ensures { result ≡ enabled_by act.now }
{
    match act {
        Act::Enable(oob) => Some(*oob),
        _ => None,
    }
}

/// What the first act that ends the negotiation enables.
fn first_enabling(acts: &[Act]) -> Option<bool>
    ensures { result ≡ slice_get (filter_map enabled_by acts.now) 0 }
{
    for act in acts {
        if let Some(oob) = enabling(act) {
            return Some(oob);
        }
    }
    None
}

fn quits(act: &Act) -> bool
    ensures { result ≡ is_quit act.now }
{
    match act {
        Act::Quit => true,
        _ => false,
    }
}

fn any_quits(acts: &[Act]) -> bool
    ensures { result ≡ list_any is_quit acts.now }
{
    acts.iter().any(|act| quits(act))
}

/// What comes of a plan, which leaves the store as it is. `Failed` comes exactly where its first
/// act that fails is one that fails with that text, and `TallyFull` exactly where it is one by
/// which that tally would pass 2^63-1.
pub fn apply(
    alloc: Global,
    plan: &Plan,
    store: &Store,
    facts: &Facts,
) -> Result<Applied, ApplyFault>
    ensures ok { IfOk result (λ applied. applied_of facts.now plan.now store.now ≡
        Ok (outcome_in applied store.now)) }
    ensures err { IfErr result (λ fault. fault ≢ Memory →
        applied_of facts.now plan.now store.now ≡ Err fault) }
{
    let acts = plan.acts.as_slice();
    let changes = changes_by(alloc, acts, store, facts)?;
    let jobs = job_acts(alloc, acts, store, changes.as_slice(), facts)?;
    let raised = raise_all(alloc, acts, store, changes.as_slice(), facts)?;
    let ret = value(alloc, &plan.ret, store, changes.as_slice(), facts)?;
    Ok(Applied {
        ret,
        changes,
        jobs,
        raised,
        enable: first_enabling(acts),
        quit: any_quits(acts),
    })
}
