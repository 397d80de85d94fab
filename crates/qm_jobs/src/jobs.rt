ghost use Rattle.std.specs.Prelude.{◌≡◌, [], ◌∷◌, ◌++◌, length, flat_map, false, IfOk, OnOk, OnErr};
ghost use Rattle.std.specs.List.{list_any, IsDistinct};
ghost use Rattle.std.specs.Map.{keys_of, values_of, set_value};
ghost use Rattle.std.specs.Str.{bytes_eq};
ghost use Rattle.qm_jobs.specs.Changes.{unit_changes};
ghost use Rattle.qm_jobs.specs.States.{is_running as runs};

use crate::changes::{ChangeList, note, note_unit, note_way};
use crate::listing::infos;
use crate::state::JobState;
use crate::status::Status;
use crate::ways::way_from;
use indexmap::IndexMap;
use qm_base::{NoMemory, Text};
use qm_json::Json;
use qm_plan::Verb;
use std::alloc::Global;
use std::marker::Model;

/// The most jobs of a table.
pub const MOST_JOBS: usize = 256;

/// Why a job call was refused.
#[derive(Clone, Copy, Debug, PartialEq, Eq)]
pub enum JobFault {
    /// No job of the table has the id.
    NoJob,
    /// A job of the table has the id.
    JobExists,
    /// The verb is not for a job of this status.
    NotInThisState(Status),
    /// The table has 256 jobs, and none of them has the id.
    JobsFull,
    /// No memory was left.
    Memory,
}

impl From<NoMemory> for JobFault {
    ghost use Rattle.std.specs.Prelude.{◌≡◌};
    ghost use Rattle.qm_jobs.specs.declared.jobs.JobFault.TheVariants.{Memory};

    ghost from_gives = { λ _ fault. fault ≡ Memory };

    fn from(_: NoMemory) -> JobFault {
        JobFault::Memory
    }
}

/// How a job is to stand, and its changes until then.
#[derive(Drop)]
struct Going {
    state: JobState,
    changes: ChangeList,
}

/// The job table. Contracts see its jobs in the order of starting.
#[derive(Drop)]
pub struct Jobs {
    states: IndexMap<Vec<u8>, JobState>,
}

impl Model for Jobs {
    ghost use Rattle.std.specs.Prelude.{List};
    ghost use Rattle.std.specs.Coded.{coded_list};
    ghost use Rattle.qm_jobs.specs.Jobs.{Job, job_code, table_of};
    ghost use Rattle.qm_jobs.specs.contracts.state.JobState as state;

    ghost Value = { List Job };

    ghost coded = { coded_list (job_code state.the_row.coded) };

    ghost view = { λ j. table_of (λ key. key.items) j.states.entries };
}

/// Lets the job of an id stand so, where it is there.
fn set_state(states: &mut IndexMap<Vec<u8>, JobState>, id: &[u8], state: JobState)
    ensures states { states.new.entries ≡
        set_value (λ k. bytes_eq id.now k.items) states.old.entries state }
    ensures unique { IsDistinct (λ x y. bytes_eq x.items y.items) (keys_of states.old.entries) }
{
    if let Some(place) = states.get_mut(id) {
        *place = state;
    }
}

fn is_one_running(states: &IndexMap<Vec<u8>, JobState>) -> bool
    ensures { result ≡ list_any runs (values_of states.now.entries) }
{
    states.values().any(|state| state.is_running())
}

/// The changes of one unit of each running job.
fn work_changes(alloc: Global, states: &IndexMap<Vec<u8>, JobState>) -> Result<ChangeList, NoMemory>
    ensures { IfOk result (λ changes. changes ≡
        flat_map (λ e. unit_changes e.0.items e.1) states.now.entries) }
{
    let mut changes = ChangeList::new(alloc);
    for (id, state) in states {
        note_unit(alloc, id.as_slice(), state, &mut changes)?;
    }
    Ok(changes)
}

impl Jobs {
    ghost use Rattle.qm_jobs.specs.Finding.{Finds};
    ghost use Rattle.qm_jobs.specs.Jobs.{has_id};
    ghost use Rattle.qm_jobs.specs.Listing.{list_of};
    ghost use Rattle.qm_jobs.specs.States.{is_running};
    ghost use Rattle.qm_jobs.specs.Table.{Does, state_of, with_state, start_of, started, verb_of, work_of};

    /// An empty table. It takes no memory.
    pub fn new(alloc: Global) -> Jobs
        ensures { result ≡ [] }
    {
        Jobs {
            states: IndexMap::new(alloc),
        }
    }

    /// Whether a job works.
    pub fn any_running(&self) -> bool
        ensures { result ≡ list_any (λ job. is_running job.state) self.now }
    {
        is_one_running(&self.states)
    }

    /// How the job of an id stands.
    fn find(&self, id: &[u8]) -> Option<JobState>
        ensures { result ≡ state_of id.now self.now }
    {
        self.states.get(id).copied()
    }

    fn has(&self, id: &[u8]) -> bool
        ensures { result ≡ list_any (has_id id.now) self.now }
    {
        self.states.contains_key(id)
    }

    fn len(&self) -> usize
        ensures { result ≡ length self.now }
    {
        self.states.len()
    }

    /// Puts a job behind the others, whose id is not in the table.
    fn push(&mut self, alloc: Global, id: &[u8], state: JobState) -> Result<(), NoMemory>
        requires { list_any (has_id id.now) self.old ≡ false }
        ensures ok { OnOk result (self.new ≡
            self.old ++ record { id = id.now; state = state } ∷ []) }
        ensures err { OnErr result (self.new ≡ self.old) }
    {
        let Ok(key) = Vec::from_slice(alloc, id) else {
            return Err(NoMemory);
        };
        match self.states.insert(key, state) {
            Ok(_) => Ok(()),
            Err(_) => Err(NoMemory),
        }
    }

    /// Starts a job of so many units: it passes created and stands at running. `JobExists`
    /// comes exactly where its id is in the table, and `JobsFull` exactly where it is not and 256
    /// jobs are. An error leaves the table as it was.
    pub fn start(
        &mut self,
        alloc: Global,
        id: &Text,
        units: u32,
        ready: bool,
        manual: bool,
    ) -> Result<ChangeList, JobFault>
        ensures { Does (start_of self.old id.now (started units ready manual))
            self.old result self.new }
    {
        if self.has(id.as_slice()) {
            return Err(JobFault::JobExists);
        }
        if self.len() >= MOST_JOBS {
            return Err(JobFault::JobsFull);
        }
        let mut changes = ChangeList::new(alloc);
        let passed = [Status::Created, Status::Running];
        note(alloc, id.as_slice(), &passed, &mut changes)?;
        let state = JobState {
            status: Status::Running,
            done: 0,
            units,
            ready,
            manual,
        };
        self.push(alloc, id.as_slice(), state)?;
        Ok(changes)
    }

    fn going(&self, alloc: Global, verb: Verb, id: &Text) -> Result<Going, JobFault>
        ensures { Finds self.now verb id.now result }
    {
        let Some(state) = self.find(id.as_slice()) else {
            return Err(JobFault::NoJob);
        };
        let Some(way) = way_from(verb, state.status) else {
            return Err(JobFault::NotInThisState(state.status));
        };
        let mut changes = ChangeList::new(alloc);
        note_way(alloc, id.as_slice(), state.manual, way, &mut changes)?;
        Ok(Going {
            state: state.gone(way),
            changes,
        })
    }

    /// Lets the job of an id stand so. It takes no memory.
    fn put(&mut self, id: &[u8], state: JobState)
        ensures { self.new ≡ with_state id.now state self.old }
    {
        set_state(&mut self.states, id, state);
        if !state.stands() {
            self.states.shift_remove(id);
        }
    }

    /// Does what a verb asks of the job of an id. `NoJob` comes exactly where the id is not in the
    /// table, and `NotInThisState` exactly where the verb leads nowhere from the job's status,
    /// which it tells. An error leaves the table as it was.
    pub fn verb(&mut self, alloc: Global, verb: Verb, id: &Text) -> Result<ChangeList, JobFault>
        ensures { Does (verb_of self.old verb id.now) self.old result self.new }
    {
        let going = self.going(alloc, verb, id)?;
        self.put(id.as_slice(), going.state);
        Ok(going.changes)
    }

    /// An equal table.
    pub fn copy(&self) -> Result<Jobs, NoMemory>
        ensures { IfOk result (λ jobs. jobs ≡ self.now) }
    {
        match self.states.clone() {
            Ok(states) => Ok(Jobs { states }),
            Err(_) => Err(NoMemory),
        }
    }

    fn do_units(&mut self)
        ensures { self.new ≡ (work_of self.old).table }
    {
        self.states.retain(|_, state| state.work());
    }

    /// Does one unit of each running job, in the order of starting. An error leaves the table as it
    /// was.
    pub fn work(&mut self, alloc: Global) -> Result<ChangeList, NoMemory>
        ensures ok { IfOk result (λ changes.
            record { changes = changes; table = self.new } ≡ work_of self.old) }
        ensures err { OnErr result (self.new ≡ self.old) }
    {
        let changes = work_changes(alloc, &self.states)?;
        self.do_units();
        Ok(changes)
    }

    /// The answer of `query-jobs`: the jobs in the order of starting, each with its id, its status,
    /// the units that are done and those in all.
    pub fn list(&self, alloc: Global) -> Result<Json, NoMemory>
        ensures { IfOk result (λ value. value ≡ list_of self.now) }
    {
        Ok(Json::Arr(infos(alloc, &self.states)?))
    }
}
