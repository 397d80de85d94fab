ghost use Rattle.std.specs.Prelude.{◌≡◌, [], is_some, slice_get, IfSome, IfOk, OnOk, OnErr};
ghost use Rattle.std.specs.Option.{option_and_then};
ghost use Rattle.qm_core.specs.Kept.{kept_of};
ghost use Rattle.qm_core.specs.Sessions.{OfOpen, OfClosed, fresh, open_in, rest_in, rest_of, sent};
ghost use Rattle.qm_core.specs.Standing.{named_of};

use crate::outbox::{Copies, Outbox};
use crate::requests::{Request, RequestName};
use crate::waiting::WaitingList;
use qm_base::{NoMemory, Shared, Text};
use qm_caps::Mode;
use std::alloc::Global;

/// What a monitor keeps of a session that was opened. A closed one takes no memory but its place.
#[derive(Drop)]
pub(crate) enum Place {
    Open(Box<Session>),
    Closed(ClosedSession),
}

/// What a monitor keeps of an open session.
#[derive(Drop)]
pub(crate) struct Session {
    pub(crate) ended: bool,
    pub(crate) admitted: u64,
    pub(crate) mode: Mode,
    pub(crate) waiting: WaitingList,
    /// The request that is open out of band.
    pub(crate) open_out_of_band: Option<Request>,
    /// The number of the entry that last started a request of it.
    pub(crate) last_start: Option<u64>,
    pub(crate) outbox: Outbox,
    /// Whether a line did not fit into the outbox. From then on the session gets no line.
    pub(crate) overrun: bool,
}

/// What is still asked for of a session that is closed.
#[derive(Clone, Copy)]
pub(crate) struct ClosedSession {
    pub(crate) admitted: u64,
    pub(crate) overrun: bool,
}

impl Session {
    /// A session that has done nothing.
    fn new(alloc: Global) -> Result<Session, NoMemory>
        ensures { IfOk result (λ session. session ≡ fresh) }
    {
        Ok(Session {
            ended: false,
            admitted: 0,
            mode: Mode::Negotiating,
            waiting: WaitingList::new(alloc)?,
            open_out_of_band: None,
            last_start: None,
            outbox: Outbox::new(alloc),
            overrun: false,
        })
    }

    /// Puts a line into the outbox, where no line overran and this one fits. An error leaves the
    /// session as it was.
    pub(crate) fn send(&mut self, line: Shared<Text>) -> Result<(), NoMemory>
        ensures ok { OnOk result (self.new ≡ sent self.old line) }
        ensures err { OnErr result (self.new ≡ self.old) }
    {
        if self.overrun {
            return Ok(());
        }
        if !self.outbox.fits(line.get()) {
            self.overrun = true;
            return Ok(());
        }
        self.outbox.put(line)
    }

    /// Moves the lines out of the outbox. It takes no memory.
    pub(crate) fn take(&mut self) -> Copies
        ensures kept { result.kept ≡ self.old.outbox }
        ensures given { result.given ≡ self.old.outbox }
        ensures rest { self.new ≡ record self.old { outbox = [] } }
    {
        self.outbox.take()
    }

    /// What stays of it once it is closed.
    fn rest(&self) -> ClosedSession
        ensures { result ≡ rest_of self.now }
    {
        ClosedSession {
            admitted: self.admitted,
            overrun: self.overrun,
        }
    }
}

impl Place {
    /// The place of a session that was sent its first line.
    pub(crate) fn new(alloc: Global, line: Shared<Text>) -> Result<Place, NoMemory>
        ensures { IfOk result (λ place. kept_of place ≡ OfOpen (sent fresh line)) }
    {
        let mut session = Session::new(alloc)?;
        session.send(line)?;
        Ok(Place::Open(Box::new(alloc, session)?))
    }

    /// The session, while it is open.
    pub(crate) fn open(&self) -> Option<&Session>
        ensures some { is_some result ≡ is_some (open_in (kept_of self.now)) }
        ensures session { IfSome result (λ session. kept_of self.now ≡ OfOpen session.now) }
    {
        match self {
            Place::Open(session) => Some(session),
            Place::Closed(_) => None,
        }
    }

    /// The request of an open session that waits first, by its name.
    pub(crate) fn first(&self) -> Option<RequestName>
        ensures { let session = open_in (kept_of self.now) in
            result ≡ option_and_then (λ it. named_of (slice_get it.waiting 0)) session }
    {
        match self {
            Place::Open(session) => session.waiting.first(),
            Place::Closed(_) => None,
        }
    }

    /// What stays of the session once it is closed.
    pub(crate) fn rest(&self) -> ClosedSession
        ensures { result ≡ rest_in (kept_of self.now) }
    {
        match self {
            Place::Open(session) => session.rest(),
            Place::Closed(closed) => *closed,
        }
    }

    /// Lets all of the session go but what is still asked for. It takes no memory.
    pub(crate) fn close(&mut self)
        ensures { kept_of self.new ≡ OfClosed (rest_in (kept_of self.old)) }
    {
        *self = Place::Closed(self.rest());
    }
}
