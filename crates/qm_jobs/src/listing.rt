ghost use Rattle.std.specs.Prelude.{◌≡◌, ◌∷◌, [], codes, map, pos, IfOk};
ghost use Rattle.qm_json.specs.declared.value.Json.TheVariants.{Int, Str};
ghost use Rattle.qm_jobs.specs.Listing.{info_of, named};
ghost use Rattle.qm_jobs.specs.Statuses.{name_of};

use crate::state::JobState;
use crate::status::Status;
use indexmap::IndexMap;
use qm_base::NoMemory;
use qm_json::{Json, Members};
use sqlite_items::Items;
use std::alloc::Global;

/// A number of units.
fn number(units: u32) -> Json
    ensures { result ≡ Int (pos units) }
{
    Json::Int(units as i128)
}

/// The word of a status.
fn word(alloc: Global, status: Status) -> Result<Json, NoMemory>
    ensures { IfOk result (λ value. value ≡ Str (name_of status)) }
{
    Json::string(alloc, status.name().as_bytes())
}

/// A job's id and status.
fn words(alloc: Global, id: &[u8], status: Status) -> Result<Members, NoMemory>
    ensures { IfOk result (λ members. members ≡
        named (codes "id") (Str id.now) ∷ named (codes "status") (Str (name_of status)) ∷ []) }
{
    let mut members = Members::new(alloc);
    let id = Json::string(alloc, id)?;
    members.add(alloc, b"id", id)?;
    let status = word(alloc, status)?;
    members.add(alloc, b"status", status)?;
    Ok(members)
}

/// What `query-jobs` tells of a job.
fn info(alloc: Global, id: &[u8], state: &JobState) -> Result<Json, NoMemory>
    ensures { IfOk result (λ value. value ≡ info_of (record { id = id.now; state = state.now })) }
{
    let mut members = words(alloc, id, state.status)?;
    members.add(alloc, b"current-progress", number(state.done))?;
    members.add(alloc, b"total-progress", number(state.units))?;
    Ok(members.into_json())
}

/// What it tells of each job.
pub(crate) fn infos(
    alloc: Global,
    states: &IndexMap<Vec<u8>, JobState>,
) -> Result<Items<Json>, NoMemory>
    ensures { IfOk result (λ items. items ≡
        map (λ e. info_of (record { id = e.0.items; state = e.1 })) states.now.entries) }
{
    let mut items = Items::new(alloc);
    for (id, state) in states {
        let info = info(alloc, id.as_slice(), state)?;
        if items.push(info).is_err() {
            return Err(NoMemory);
        }
    }
    Ok(items)
}
