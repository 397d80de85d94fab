//! Laws of every job table.

ghost use Rattle.std.specs.Prelude.{◌≡◌, ℕ, List, [], Ok};
ghost use Rattle.qm_jobs.specs.Jobs.{Job};
ghost use Rattle.qm_jobs.specs.Once.{IsTable};
ghost use Rattle.qm_jobs.specs.Table.{Outcome, start_of, verb_of, work_of};
ghost use Rattle.qm_jobs.specs.declared.jobs.TheConstants.{MOST_JOBS};
ghost use Rattle.qm_jobs.specs.declared.state.JobState.{JobState};
ghost use Rattle.qm_plan.specs.declared.verbs.Verb.{Verb};

/// A table has 256 jobs at most.
pub fn a_table_has_256_jobs()
    ensures { MOST_JOBS ≡ 256 }
{}

/// Each id stands once, and there are 256 jobs at most, in the empty table and after each call as
/// before it.
pub fn each_id_stands_once()
    ensures empty { IsTable [] }
    ensures start { (table : List Job) (id : List ℕ) (state : JobState) (o : Outcome) →
        IsTable table → start_of table id state ≡ Ok o → IsTable o.table }
    ensures verb { (table : List Job) (verb : Verb) (id : List ℕ) (o : Outcome) →
        IsTable table → verb_of table verb id ≡ Ok o → IsTable o.table }
    ensures work { (table : List Job) → IsTable table → IsTable (work_of table).table }
{}
