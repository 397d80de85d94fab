ghost use Rattle.std.specs.Prelude.{◌≡◌, ◌≢◌, ◌<◌, length, codes, if◌then◌else◌, Some, None, Err, IfSome, IfOk, OnOk, OnErr, is_some, ◌&&◌};
ghost use Rattle.std.specs.Result.{result_err};
ghost use Rattle.qm_json.specs.Printing.{printed};
ghost use Rattle.qm_caps.specs.Modes.{is_negotiating};
ghost use Rattle.qm_core.specs.Kept.{kept_of};
ghost use Rattle.qm_core.specs.Sessions.{told_of, told_out_of_band, while_open};
ghost use Rattle.qm_core.specs.Legal.{past_of};
ghost use Rattle.qm_core.specs.Next.{Next, Finish, FinishOob, is_open_out_of_band, is_running, names, session_refusal};
ghost use Rattle.qm_plan.specs.Stores.{committed};
ghost use Rattle.qm_core.specs.Planned.{command_for, planned_for, planned_of, mode_by};
ghost use Rattle.qm_core.specs.Replies.{reply_to};
ghost use Rattle.qm_core.specs.State.{stored};
ghost use Rattle.qm_core.specs.Standing.{answers, named_of, running_of, open_out_of_band_of};

use crate::entries::{Entry, StepFault};
use crate::lines::line;
use crate::monitor::Monitor;
use crate::plans::command;
use crate::replies::{self, Reply};
use crate::requests::Request;
use crate::sessions::{Place, Session};
use crate::world::Setting;
use qm_base::{NoMemory, Shared, Text};
use qm_json::Json;
use qm_plan::{Plan, Store, StoreChangeList};
use std::alloc::Global;

/// A reply to a request, and what it brings about.
#[derive(Drop)]
struct Answer {
    reply: Json,
    line: Shared<Text>,
    changes: StoreChangeList,
    /// Whether it opens a command mode, where none is open.
    negotiates: bool,
    /// Whether it stops the monitor.
    stops: bool,
}

fn answer_to(
    alloc: Global,
    world: &Setting,
    store: &Store,
    request: &Request,
    command: Option<u32>,
    plan: &Option<Plan>,
) -> Result<Answer, NoMemory>
    requires command { command ≡ command_for world.now request.now }
    requires known { IfSome command (λ c. c < length world.now.schema.commands) }
    requires planned { plan.now ≡ planned_for world.now request.now }
    ensures reply { IfOk result (λ answer. answer.reply ≡ reply_to world.now store.now request.now) }
    ensures line { IfOk result (λ answer. answer.line ≡ printed (reply_to world.now store.now request.now)) }
    ensures mode { IfOk result (λ answer. answer.negotiates
        ≡ answers (codes "qmp_capabilities") (Some request.now) (reply_to world.now store.now request.now)) }
    ensures stop { IfOk result (λ answer. answer.stops
        ≡ answers (codes "quit") (Some request.now) (reply_to world.now store.now request.now)) }
    ensures store { IfOk result (λ answer. committed answer.changes store.now
        ≡ stored world.now store.now plan.now (reply_to world.now store.now request.now)) }
{
    let Reply { value, changes } = replies::replied(alloc, world, store, request, command, plan)?;
    let line = line(alloc, &value)?;
    let returns = replies::is_return(&value);
    Ok(Answer {
        reply: value,
        line,
        changes,
        negotiates: replies::calls(request, b"qmp_capabilities") && returns,
        stops: replies::calls(request, b"quit") && returns,
    })
}

/// Tells a session the reply to its running request, which may open a command mode. An error leaves
/// the session as it was.
fn answered(
    state: &mut Session,
    line: Shared<Text>,
    negotiates: bool,
    plan: &Option<Plan>,
) -> Result<(), NoMemory>
    ensures ok { OnOk result (state.new ≡ told_of plan.now negotiates line state.old) }
    ensures err { OnErr result (state.new ≡ state.old) }
{
    state.send(line)?;
    if state.mode.is_negotiating() && negotiates {
        state.mode = replies::mode(plan);
    }
    Ok(())
}

/// The same of a session while it is open.
fn tell(
    place: &mut Place,
    line: Shared<Text>,
    negotiates: bool,
    plan: &Option<Plan>,
) -> Result<(), NoMemory>
    ensures ok { OnOk result (kept_of place.new
        ≡ while_open (told_of plan.now negotiates line) (kept_of place.old)) }
    ensures err { OnErr result (place.new ≡ place.old) }
{
    match place {
        Place::Open(state) => answered(state, line, negotiates, plan),
        Place::Closed(_) => Ok(()),
    }
}

/// Tells a session the reply to its request that is open out of band. An error leaves the session
/// as it was.
fn answered_out_of_band(state: &mut Session, line: Shared<Text>) -> Result<(), NoMemory>
    ensures ok { OnOk result (state.new ≡ told_out_of_band line state.old) }
    ensures err { OnErr result (state.new ≡ state.old) }
{
    state.send(line)?;
    state.open_out_of_band = None;
    Ok(())
}

/// The same of a session while it is open.
fn tell_out_of_band(place: &mut Place, line: Shared<Text>) -> Result<(), NoMemory>
    ensures ok { OnOk result (kept_of place.new
        ≡ while_open (told_out_of_band line) (kept_of place.old)) }
    ensures err { OnErr result (place.new ≡ place.old) }
{
    match place {
        Place::Open(state) => answered_out_of_band(state, line),
        Place::Closed(_) => Ok(()),
    }
}

/// The request, if it has this session and this number.
fn named(request: &Option<Request>, session: u32, number: u64) -> Option<&Request>
    ensures some { is_some result ≡ names session number (named_of request.now) }
    ensures is { IfSome result (λ found. request.now ≡ Some found.now) }
    ensures named { IfSome result (λ found. (found.now.session ≡ session) × (found.now.number ≡ number)) }
{
    match request {
        Some(request) if request.session == session && request.number == number => Some(request),
        _ => None,
    }
}

impl Monitor {
    ghost use Rattle.qm_core.specs.Kept.{IsOpen};
    ghost use Rattle.qm_core.specs.declared.entries.StepFault.{StepFault};

    fn may_finish(&self, session: u32, number: u64) -> Result<&Request, StepFault>
        ensures fault { result_err result ≡ (if is_running session number (past_of self.now.journal)
            then None else Some StepFault.NotRunning) }
        ensures runs { IfOk result (λ request. running_of (past_of self.now.journal) ≡ Some request.now) }
        ensures named { IfOk result (λ request.
            (request.now.session ≡ session) × (request.now.number ≡ number)) }
    {
        let Some(request) = named(&self.running, session, number) else {
            return Err(StepFault::NotRunning);
        };
        Ok(request)
    }

    /// Answers the running request at a moment by its plan, and puts the reply into the outbox of
    /// its session while that is open; where the reply is no error, the store is what the plan
    /// leaves. The entry's moment is not before any other of the journal.
    ///
    /// `NotRunning`: this request is not the running one. `JournalFull`. `Memory`. A refusal leaves
    /// the monitor as it was.
    pub fn finish(
        &mut self,
        alloc: Global,
        session: u32,
        number: u64,
        plan: Option<Plan>,
        moment: u64,
    ) -> Result<(), StepFault>
        requires planned { plan ≡ planned_of self.old.world (running_of (past_of self.old.journal)) }
        ensures next { result ≢ Err StepFault.Memory →
            Next self.old (Finish session number moment) (result_err result) self.new }
        ensures memory { result ≡ Err StepFault.Memory → self.new ≡ self.old }
    {
        let request = self.may_finish(session, number)?;
        let Answer {
            reply,
            line,
            changes,
            negotiates,
            stops,
        } = answer_to(
            alloc,
            &self.world,
            &self.store,
            request,
            self.command,
            &plan,
        )?;
        let moment = moment.max(self.last_moment);
        let bytes = self.finish_room(session, number, &plan, &reply, moment)?;
        let place = &mut self.sessions[session as usize - 1];
        tell(place, line, negotiates, &plan)?;
        self.stopped = stops | self.stopped;
        self.store.commit(changes);
        self.running = None;
        self.command = None;
        self.last_moment = moment;
        self.journal.put(
            Entry::Done {
                session,
                number,
                plan,
                reply,
                moment,
            },
            bytes,
        );
        Ok(())
    }

    fn may_finish_out_of_band(&self, session: u32, number: u64) -> Result<&Request, StepFault>
        ensures fault { let past = past_of self.now.journal in
            result_err result ≡ session_refusal session past
            (if is_open_out_of_band session number past then None else Some StepFault.NotOpen) }
        ensures open { OnOk result (IsOpen (past_of self.now.journal) session) }
        ensures opens { IfOk result (λ request.
            open_out_of_band_of session (past_of self.now.journal) ≡ Some request.now) }
        ensures named { IfOk result (λ request.
            (request.now.session ≡ session) × (request.now.number ≡ number)) }
    {
        let state = self.open_session(session)?;
        let Some(request) = named(&state.open_out_of_band, session, number) else {
            return Err(StepFault::NotOpen);
        };
        Ok(request)
    }

    /// Answers the request of a session that is open out of band, as `finish` does the running one.
    /// It is allowed after a command has stopped the monitor.
    ///
    /// `NoSession`: the session was never opened. `Closed`: it was dropped. `NotOpen`: this request
    /// is not the one that is open. `JournalFull`. `Memory`. A refusal leaves the monitor as it was.
    pub fn oob_finish(
        &mut self,
        alloc: Global,
        session: u32,
        number: u64,
        plan: Option<Plan>,
        moment: u64,
    ) -> Result<(), StepFault>
        requires planned { let request = open_out_of_band_of session (past_of self.old.journal) in
            plan ≡ planned_of self.old.world request }
        ensures next { result ≢ Err StepFault.Memory →
            Next self.old (FinishOob session number moment) (result_err result) self.new }
        ensures memory { result ≡ Err StepFault.Memory → self.new ≡ self.old }
    {
        let request = self.may_finish_out_of_band(session, number)?;
        let command = command(self.world.world(), request);
        let Answer {
            reply,
            line,
            changes,
            ..
        } = answer_to(alloc, &self.world, &self.store, request, command, &plan)?;
        let moment = moment.max(self.last_moment);
        let bytes = self.oob_room(session, number, &plan, &reply, moment)?;
        let place = &mut self.sessions[session as usize - 1];
        tell_out_of_band(place, line)?;
        self.store.commit(changes);
        self.last_moment = moment;
        self.journal.put(
            Entry::OobDone {
                session,
                number,
                plan,
                reply,
                moment,
            },
            bytes,
        );
        Ok(())
    }
}
