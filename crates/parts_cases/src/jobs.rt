//! Calls on the job table, each with the statuses that are passed or the refusal.

use qm_base::Text;
use qm_jobs::{ChangeList, JobFault, Jobs};
use qm_plan::Verb;
use std::alloc::Global;
use std::test::Fail;

/// Rows of calls, ` |` and the answer of the last of them. A start has the units of the job, and
/// whether it goes to ready and is manual. A job of two units that is manual, as its client sees
/// it.
const LIFE_OF_A_JOB: &str = "\
new; start j 2 manual | j created, j running
start j 2 manual | job exists
pause j | j paused
resume j | j running
work |
work | j waiting, j pending
pause j | not at pending
finalize j | j concluded
dismiss j | j null
cancel j | no job
start k 2 manual | k created, k running
cancel k | k aborting, k concluded
";

/// A job of one unit ends at once, and its id may be started again.
const ONE_UNIT: &str = "\
new; start j 1 | j created, j running
work | j waiting, j pending, j concluded, j null
work |
start j 1 | j created, j running
";

/// One job ends, one goes to ready and one goes on, in the order of starting.
const SEVERAL_JOBS: &str = "\
new; start c 2 ready | c created, c running
start b 2 manual | b created, b running
start a 1 | a created, a running
start d 9 | d created, d running
work | a waiting, a pending, a concluded, a null
pause d | d paused
work | c ready, b waiting, b pending
complete c | c waiting, c pending, c concluded, c null
cancel d | d aborting, d concluded, d null
cancel b | b aborting, b concluded
work |
";

/// Each verb at each status at which a manual job can stand.
const FROM_RUNNING: &str = "\
new; start j 3 manual; pause j | j paused
new; start j 3 manual; resume j | not at running
new; start j 3 manual; complete j | not at running
new; start j 3 manual; cancel j | j aborting, j concluded
new; start j 3 manual; finalize j | not at running
new; start j 3 manual; dismiss j | not at running
";

const FROM_PAUSED: &str = "\
new; start j 3 manual; pause j; pause j | not at paused
new; start j 3 manual; pause j; resume j | j running
new; start j 3 manual; pause j; complete j | not at paused
new; start j 3 manual; pause j; cancel j | j aborting, j concluded
new; start j 3 manual; pause j; finalize j | not at paused
new; start j 3 manual; pause j; dismiss j | not at paused
";

const FROM_READY: &str = "\
new; start j 1 ready manual; work; pause j | j standby
new; start j 1 ready manual; work; resume j | not at ready
new; start j 1 ready manual; work; complete j | j waiting, j pending
new; start j 1 ready manual; work; cancel j | j aborting, j concluded
new; start j 1 ready manual; work; finalize j | not at ready
new; start j 1 ready manual; work; dismiss j | not at ready
";

const FROM_STANDBY: &str = "\
new; start j 1 ready manual; work; pause j; pause j | not at standby
new; start j 1 ready manual; work; pause j; resume j | j ready
new; start j 1 ready manual; work; pause j; complete j | not at standby
new; start j 1 ready manual; work; pause j; cancel j | j aborting, j concluded
new; start j 1 ready manual; work; pause j; finalize j | not at standby
new; start j 1 ready manual; work; pause j; dismiss j | not at standby
";

const FROM_PENDING: &str = "\
new; start j 1 manual; work; pause j | not at pending
new; start j 1 manual; work; resume j | not at pending
new; start j 1 manual; work; complete j | not at pending
new; start j 1 manual; work; cancel j | j aborting, j concluded
new; start j 1 manual; work; finalize j | j concluded
new; start j 1 manual; work; dismiss j | not at pending
";

const FROM_CONCLUDED: &str = "\
new; start j 3 manual; cancel j; pause j | not at concluded
new; start j 3 manual; cancel j; resume j | not at concluded
new; start j 3 manual; cancel j; complete j | not at concluded
new; start j 3 manual; cancel j; cancel j | not at concluded
new; start j 3 manual; cancel j; finalize j | not at concluded
new; start j 3 manual; cancel j; dismiss j | j null
";

/// A table of 256 jobs is full.
const FULL: &str = "\
start 256 1 manual | jobs full
start 7 1 manual | job exists
cancel 7 | 7 aborting, 7 concluded
start 256 1 manual | jobs full
dismiss 7 | 7 null
start 256 1 manual | 256 created, 256 running
";

/// Jobs are listed in the order of starting, also of a copy of the table.
const LISTED: &str = "\
new; list | []
running | no
start j 2 manual; list | [{\"id\": \"j\", \"status\": \"running\", \"current-progress\": 0, \"total-progress\": 2}]
running | yes
work; pause j; start a 1 ready; work; copy; list | [{\"id\": \"j\", \"status\": \"paused\", \"current-progress\": 1, \"total-progress\": 2}, {\"id\": \"a\", \"status\": \"ready\", \"current-progress\": 1, \"total-progress\": 1}]
running | no
";

fn written(alloc: Global, changes: &ChangeList) -> Result<Text, Fail> {
    let mut text = Text::new(alloc);
    for change in changes.as_slice() {
        if !text.is_empty() {
            text.extend(b", ")?;
        }
        text.extend(change.id.as_slice())?;
        text.push(b' ')?;
        text.extend(change.status.name().as_bytes())?;
    }
    Ok(text)
}

fn refused(alloc: Global, fault: JobFault) -> Result<Text, Fail> {
    let mut text = Text::new(alloc);
    match fault {
        JobFault::NoJob => text.extend(b"no job")?,
        JobFault::JobExists => text.extend(b"job exists")?,
        JobFault::JobsFull => text.extend(b"jobs full")?,
        JobFault::Memory => text.extend(b"memory")?,
        JobFault::NotInThisState(status) => {
            text.extend(b"not at ")?;
            text.extend(status.name().as_bytes())?;
        }
    }
    Ok(text)
}

fn told(alloc: Global, answer: Result<ChangeList, JobFault>) -> Result<Text, Fail> {
    match answer {
        Ok(changes) => written(alloc, &changes),
        Err(fault) => refused(alloc, fault),
    }
}

/// Starts a job of the words: its id, its units, and how it ends.
fn start(alloc: Global, jobs: &mut Jobs, words: &str) -> Result<Text, Fail> {
    let (id, rest) = words.split_once(" ").unwrap_or((words, ""));
    let (units, ways) = rest.split_once(" ").unwrap_or((rest, ""));
    let id = Text::of(alloc, id.as_bytes())?;
    let units = units.parse::<u32>()?;
    let ready = ways.contains("ready");
    let manual = ways.contains("manual");
    told(alloc, jobs.start(alloc, &id, units, ready, manual))
}

fn verb_of(word: &str) -> Result<Verb, Fail> {
    match word {
        "pause" => Ok(Verb::Pause),
        "resume" => Ok(Verb::Resume),
        "complete" => Ok(Verb::Complete),
        "cancel" => Ok(Verb::Cancel),
        "finalize" => Ok(Verb::Finalize),
        "dismiss" => Ok(Verb::Dismiss),
        _ => Err(Fail::from("no such call")),
    }
}

fn ask(alloc: Global, jobs: &mut Jobs, word: &str, id: &str) -> Result<Text, Fail> {
    let verb = verb_of(word)?;
    let id = Text::of(alloc, id.as_bytes())?;
    told(alloc, jobs.verb(alloc, verb, &id))
}

fn work(alloc: Global, jobs: &mut Jobs) -> Result<Text, Fail> {
    let changes = jobs.work(alloc)?;
    written(alloc, &changes)
}

fn listed(alloc: Global, jobs: &Jobs) -> Result<Text, Fail> {
    let mut text = Text::new(alloc);
    jobs.list(alloc)?.write_text(&mut text)?;
    Ok(text)
}

fn running(alloc: Global, jobs: &Jobs) -> Result<Text, Fail> {
    let word = if jobs.any_running() { "yes" } else { "no" };
    Ok(Text::of(alloc, word.as_bytes())?)
}

fn call(alloc: Global, jobs: &mut Jobs, call: &str) -> Result<Text, Fail> {
    let (word, rest) = call.split_once(" ").unwrap_or((call, ""));
    match word {
        "new" => *jobs = Jobs::new(alloc),
        "copy" => *jobs = jobs.copy()?,
        "start" => return start(alloc, jobs, rest),
        "work" => return work(alloc, jobs),
        "list" => return listed(alloc, jobs),
        "running" => return running(alloc, jobs),
        _ => return ask(alloc, jobs, word, rest),
    }
    Ok(Text::new(alloc))
}

/// Makes each of the calls, and gives the answer of the last.
fn answer(alloc: Global, jobs: &mut Jobs, calls: &str) -> Result<Text, Fail> {
    let mut last = Text::new(alloc);
    for one in calls.split("; ") {
        last = call(alloc, jobs, one)?;
    }
    Ok(last)
}

fn is_answered(alloc: Global, jobs: &mut Jobs, row: &str) -> Result<bool, Fail> {
    let (calls, wanted) = row.split_once(" |").unwrap_or((row, ""));
    let given = answer(alloc, jobs, calls)?;
    Ok(given.as_slice() == wanted.trim().as_bytes())
}

/// The rows that have another answer.
fn other_answers(alloc: Global, jobs: &mut Jobs, rows: &str) -> Result<String, Fail> {
    let mut others = String::new(alloc);
    for row in rows.lines() {
        if !is_answered(alloc, jobs, row)? {
            others.push_str(row)?;
            others.push_str("\n")?;
        }
    }
    Ok(others)
}

#[test]
fn calls_answer(rt: HostRuntime) -> Result<(), Fail> {
    let mut jobs = Jobs::new(rt.alloc());
    for rows in [LIFE_OF_A_JOB, ONE_UNIT, SEVERAL_JOBS, LISTED] {
        assert_eq!(rt; other_answers(rt.alloc(), &mut jobs, rows)?.as_str(), "");
    }
    Ok(())
}

#[test]
fn each_verb_at_each_status(rt: HostRuntime) -> Result<(), Fail> {
    let mut jobs = Jobs::new(rt.alloc());
    for rows in [
        FROM_RUNNING,
        FROM_PAUSED,
        FROM_READY,
        FROM_STANDBY,
        FROM_PENDING,
        FROM_CONCLUDED,
    ] {
        assert_eq!(rt; other_answers(rt.alloc(), &mut jobs, rows)?.as_str(), "");
    }
    Ok(())
}

/// Rows of so many starts, of the jobs 0 and so on.
fn starts(alloc: Global, count: u32) -> Result<String, Fail> {
    let mut rows = String::new(alloc);
    for number in 0..count {
        let row = format!(in alloc;
            "start {number} 1 manual | {number} created, {number} running\n"
        )?;
        rows.push_str(row.as_str())?;
    }
    Ok(rows)
}

#[test]
fn a_table_is_full_at_256_jobs(rt: HostRuntime) -> Result<(), Fail> {
    let mut jobs = Jobs::new(rt.alloc());
    let rows = starts(rt.alloc(), 256)?;
    assert_eq!(rt;
        other_answers(rt.alloc(), &mut jobs, rows.as_str())?.as_str(),
        ""
    );
    assert_eq!(rt; other_answers(rt.alloc(), &mut jobs, FULL)?.as_str(), "");
    Ok(())
}
