ghost use Rattle.std.specs.Prelude.{◌≡◌, ◌+◌, ◌-◌, ◌<◌, ◌^◌, ◌==◌, [], ◌∷◌, ◌++◌, drop, length, slice_get, slice_set as set, if◌then◌else◌, Some, None, true, false, option_map, IfSome, IfOk, IsSome, IsSomeAnd, OnOk, OnErr};
ghost use Rattle.std.specs.Result.{result_err};
ghost use Rattle.qm_caps.specs.Lanes.{is_in_band};
ghost use Rattle.qm_caps.specs.Modes.{bound_of};
ghost use Rattle.qm_core.specs.Inputs.{document_of, lane_of};
ghost use Rattle.qm_core.specs.Kept.{kept_of};
ghost use Rattle.qm_core.specs.Sessions.{open_in, while_open, with_request};
ghost use Rattle.qm_queue.specs.declared.ring.TheConstants.{PLACES};
ghost use Rattle.qm_queue.specs.Turns.{IsOpened};
ghost use Rattle.qm_core.specs.Legal.{past_of};
ghost use Rattle.qm_core.specs.Next.{Next, Admit, Start, start_entry};
ghost use Rattle.qm_core.specs.Planned.{admitted_as, call_of, started_of};
ghost use Rattle.qm_core.specs.Standing.{is_ended, is_stopped, admitted_of, in_flight_of, mode_of, running_of, open_out_of_band_of, starting_of, named_of, next_request};
ghost use Rattle.qm_core.specs.declared.entries.Entry.TheVariants as entry;

use crate::entries::{Entry, StepFault};
use crate::inputs::Input;
use crate::monitor::Monitor;
use crate::offers::{Offer, Owners};
use crate::plans::{call, command};
use crate::requests::{Admitted, Begun, Request, RequestName, Started, Waiting};
use crate::sessions::{Place, Session};
use crate::world::World;
use qm_base::Shared;
use qm_caps::{Lane, Mode, bound, classify};
use qm_json::Json;
use qm_plan::Call;
use qm_queue::{TurnItem, TurnQueue};

fn lane(mode: Mode, input: &Input) -> Lane
    ensures { result ≡ lane_of mode input.now }
{
    match input {
        Input::Doc(value) => classify(value.get(), mode),
        Input::Bad(_) => Lane::InBand,
    }
}

/// What a request to be admitted is given, and the bytes of its entry.
#[derive(Clone, Copy)]
struct Admission {
    number: u64,
    mode: Mode,
    lane: Lane,
    bytes: u64,
}

/// Lets a request that was admitted wait for its turn, or be open out of band, and makes its call in
/// the latter case. It takes no memory.
fn take_in(
    world: &World,
    state: &mut Session,
    turns: &mut TurnQueue,
    request: Request,
    lane: Lane,
    document: Option<Shared<Json>>,
) -> Option<Call>
    requires place { is_in_band lane ≡ true → length state.old.waiting < PLACES }
    requires opened { IsOpened request.session turns.old }
    requires document { document ≡ document_of request.input }
    ensures state { state.new ≡ with_request lane request state.old }
    ensures turns { turns.new ≡ (if is_in_band lane
        then set turns.old (request.session - 1) (Some record { session = request.session; last_start = state.old.last_start })
        else turns.old) }
    ensures call { result ≡ (if is_in_band lane then None else call_of world.now request) }
{
    let session = request.session;
    state.admitted = request.number;
    if lane.is_in_band() {
        let last_start = state.last_start;
        state.waiting.put(Waiting::new(request, document));
        turns.put(TurnItem {
            session,
            last_start,
        });
        return None;
    }
    let call = call(command(world, &request), document);
    state.open_out_of_band = Some(request);
    call
}

/// The same at the place of an open session.
fn take_into(
    world: &World,
    place: &mut Place,
    turns: &mut TurnQueue,
    request: Request,
    lane: Lane,
    document: Option<Shared<Json>>,
) -> Option<Call>
    requires place { IsSomeAnd (open_in (kept_of place.old)) (λ state.
        is_in_band lane ≡ true → length state.waiting < PLACES) }
    requires opened { IsOpened request.session turns.old }
    requires document { document ≡ document_of request.input }
    ensures kept { kept_of place.new ≡ while_open (with_request lane request) (kept_of place.old) }
    ensures turns { IfSome (open_in (kept_of place.old)) (λ state. turns.new ≡ (if is_in_band lane
        then set turns.old (request.session - 1) (Some record { session = request.session; last_start = state.last_start })
        else turns.old)) }
    ensures call { result ≡ (if is_in_band lane then None else call_of world.now request) }
{
    let Place::Open(state) = place else {
        unreachable!();
    };
    take_in(world, state, turns, request, lane, document)
}

/// Takes the oldest waiting request of an open session out, and puts the session behind those that
/// wait too. It takes no memory.
fn begin(place: &mut Place, turns: &mut TurnQueue, session: u32, at: u64) -> Begun
    requires some { IsSomeAnd (open_in (kept_of place.old)) (λ state. 0 < length state.waiting) }
    requires opened { IsOpened session turns.old }
    ensures request { IfSome (open_in (kept_of place.old)) (λ state.
        Some result.request ≡ slice_get state.waiting 0) }
    ensures document { result.document ≡ document_of result.request.input }
    ensures kept { kept_of place.new ≡ while_open (λ state. record state {
      waiting = drop 1 state.waiting;
      last_start = Some at;
    }) (kept_of place.old) }
    ensures turns { IfSome (open_in (kept_of place.old)) (λ state.
        turns.new ≡ set turns.old (session - 1) (if length (drop 1 state.waiting) == 0
        then None
        else Some record { session = session; last_start = Some at })) }
{
    let Place::Open(state) = place else {
        unreachable!();
    };
    let Some(begun) = state.waiting.take() else {
        unreachable!();
    };
    let last_start = Some(at);
    state.last_start = last_start;
    if state.waiting.len() == 0 {
        turns.remove(session);
    } else {
        turns.put(TurnItem {
            session,
            last_start,
        });
    }
    begun
}

/// A request to be started, and the bytes of its entry.
#[derive(Clone, Copy)]
struct Starting {
    name: RequestName,
    bytes: u64,
}

impl Monitor {
    ghost use Rattle.qm_core.specs.Kept.{IsOpen, IsPlaced, refusal_in};
    ghost use Rattle.qm_core.specs.declared.entries.StepFault.{StepFault};

    fn may_admit(&self, session: u32, input: &Input) -> Result<Admission, StepFault>
        ensures fault { result_err result ≡ refusal_in self.now (Admit session input.now) }
        ensures open { OnOk result (IsOpen (past_of self.now.journal) session) }
        ensures more { OnOk result (is_ended session (past_of self.now.journal) ≡ false) }
        ensures going { OnOk result (is_stopped (past_of self.now.journal) ≡ false) }
        ensures answered { OnOk result (open_out_of_band_of session (past_of self.now.journal) ≡ None) }
        ensures lane { IfOk result (λ admission.
            admission.lane ≡ lane_of (mode_of session (past_of self.now.journal)) input.now) }
        ensures below { let past = past_of self.now.journal in IfOk result (λ admission.
            is_in_band admission.lane ≡ true → in_flight_of session past < bound_of (mode_of session past)) }
        ensures number { let past = past_of self.now.journal in
            IfOk result (λ admission. admission.number ≡ admitted_of session past + 1) }
        ensures mode { let past = past_of self.now.journal in
            IfOk result (λ admission. admission.mode ≡ mode_of session past) }
        ensures placed { IfOk result (λ admission. IsPlaced self.now
            (entry.Admit session admission.number admission.lane input.now) admission.bytes) }
    {
        let state = self.open_session(session)?;
        if state.ended {
            return Err(StepFault::InputEnded);
        }
        if self.stopped {
            return Err(StepFault::Stopping);
        }
        if state.open_out_of_band.is_some() {
            return Err(StepFault::OobOpen);
        }
        let lane = lane(state.mode, input);
        if lane.is_in_band() && self.in_flight(session, state) >= bound(state.mode) {
            return Err(StepFault::Busy);
        }
        let number = state.admitted + 1;
        let bytes = self.admit_room(session, number, lane, input)?;
        Ok(Admission {
            number,
            mode: state.mode,
            lane,
            bytes,
        })
    }

    /// Admits the input of an offer, in the lane that is its own, and answers its number. It takes
    /// no memory.
    ///
    /// After success the offer is spent. `NoSession`: the session was never opened. `Closed`: it
    /// was dropped. `InputEnded`: its input has ended. `Stopping`: a command has stopped the
    /// monitor. `OobOpen`: a request of it is open out of band. `Busy`: the input is for the
    /// in-band lane, and as many requests of the session wait or run as its mode allows.
    /// `JournalFull`. A refusal leaves the monitor and the offer as they were.
    pub fn admit(&mut self, session: u32, offer: &mut Offer) -> Result<Admitted, StepFault>
        requires { IsSome offer.old }
        ensures next { IfSome offer.old (λ input.
            Next self.old (Admit session input) (result_err result) self.new) }
        ensures value { let past = past_of self.old.journal in
            IfSome offer.old (λ input. IfOk result (λ admitted.
            admitted ≡ admitted_as self.old.world (next_request session input past))) }
        ensures spent { OnOk result (offer.new ≡ None) }
        ensures kept { OnErr result (offer.new ≡ offer.old) }
    {
        let Admission {
            number,
            mode,
            lane,
            bytes,
        } = self.may_admit(session, offer.kept())?;
        let Owners {
            kept,
            waiting,
            document,
        } = offer.spend();
        let request = Request {
            session,
            number,
            mode,
            input: waiting,
        };
        let place = &mut self.sessions[session as usize - 1];
        let call = take_into(
            self.world.world(),
            place,
            &mut self.turns,
            request,
            lane,
            document,
        );
        self.journal.put(
            Entry::Admit {
                session,
                number,
                lane,
                input: kept,
            },
            bytes,
        );
        Ok(Admitted { number, lane, call })
    }

    /// The request to be started: the least that waits of the session whose turn it is.
    fn next_start(&self) -> Option<RequestName>
        ensures { result ≡ named_of (starting_of (past_of self.now.journal)) }
    {
        match self.turns.next() {
            Some(session) => self.sessions[session as usize - 1].first(),
            None => None,
        }
    }

    fn may_start(&self) -> Result<Starting, StepFault>
        ensures fault { result_err result ≡ refusal_in self.now Start }
        ensures going { OnOk result (is_stopped (past_of self.now.journal) ≡ false) }
        ensures idle { OnOk result (running_of (past_of self.now.journal) ≡ None) }
        ensures turn { let past = past_of self.now.journal in
            IfOk result (λ starting. named_of (starting_of past) ≡ Some starting.name) }
        ensures placed { IfOk result (λ starting.
            IsPlaced self.now (start_entry (Some starting.name)) starting.bytes) }
    {
        if self.stopped {
            return Err(StepFault::Stopping);
        }
        if self.running.is_some() {
            return Err(StepFault::Nothing);
        }
        let Some(name) = self.next_start() else {
            return Err(StepFault::Nothing);
        };
        let bytes = self.start_room(name.session, name.number)?;
        Ok(Starting { name, bytes })
    }

    /// Starts the least waiting request of the session whose turn it is. It takes no memory.
    ///
    /// `Stopping`: a command has stopped the monitor. `Nothing`: a request runs, or none waits in
    /// an open session. `JournalFull`. A refusal leaves the monitor as it was.
    pub fn start(&mut self) -> Result<Started, StepFault>
        ensures next { Next self.old Start (result_err result) self.new }
        ensures value { let past = past_of self.old.journal in
            IfOk result (λ started. option_map (started_of self.old.world) (starting_of past)
            ≡ Some started) }
    {
        let Starting { name, bytes } = self.may_start()?;
        let RequestName { session, number } = name;
        let at = self.journal.len() + 1;
        let place = &mut self.sessions[session as usize - 1];
        let Begun { request, document } = begin(place, &mut self.turns, session, at);
        let command = command(self.world.world(), &request);
        self.running = Some(request);
        self.command = command;
        self.journal.put(Entry::Start { session, number }, bytes);
        Ok(Started {
            session,
            number,
            call: call(command, document),
        })
    }
}
