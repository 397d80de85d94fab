ghost use Rattle.std.specs.Prelude.{◌≡◌};
ghost use Rattle.qm_core.specs.Inputs.{document_of};

use crate::inputs::Input;
use qm_base::Shared;
use qm_caps::{Lane, Mode};
use qm_json::Json;
use qm_plan::Call;
use std::marker::Model;

/// A request that was admitted and is not answered yet.
#[derive(Drop)]
pub struct Request {
    /// Its session.
    pub session: u32,
    /// Its number in the session, from 1 on.
    pub number: u64,
    /// The mode of its session before its admission.
    pub mode: Mode,
    /// What the client sent.
    pub input: Input,
}

/// A request that waits, with one more owner of its value. Contracts see the request.
#[derive(Drop)]
pub(crate) struct Waiting {
    request: Request,
    document: Option<Shared<Json>>,
}

/// A request that waits no more, and one more owner of its value.
#[derive(Drop)]
pub(crate) struct Begun {
    pub(crate) request: Request,
    pub(crate) document: Option<Shared<Json>>,
}

impl Model for Waiting {
    ghost use Rattle.std.specs.Prelude.{◌≡◌};
    ghost use Rattle.qm_core.specs.Inputs.{document_of};
    ghost use Rattle.qm_core.specs.declared.requests.Request.{Request};
    ghost use Rattle.qm_core.specs.contracts.requests.Request as request_contract;

    ghost Value = { Request };

    ghost coded = { request_contract.the_row.coded };

    ghost view = { λ w. w.request };

    ghost invariant = { λ w. w.document ≡ document_of w.request.input };
}

impl Waiting {
    /// A request and one more owner of its value.
    pub(crate) fn new(request: Request, document: Option<Shared<Json>>) -> Waiting
        requires { document ≡ document_of request.input }
        ensures { result ≡ request }
    {
        Waiting { request, document }
    }

    /// The request.
    pub(crate) fn request(&self) -> &Request
        ensures { result.now ≡ self.now }
    {
        &self.request
    }

    /// The request, and one more owner of its value.
    pub(crate) fn begin(self) -> Begun
        ensures request { result.request ≡ self }
        ensures document { result.document ≡ document_of self.input }
    {
        let Waiting { request, document } = self;
        Begun { request, document }
    }
}

/// What an admission answers.
#[derive(Drop)]
pub struct Admitted {
    /// The number of the request in its session, from 1 on.
    pub number: u64,
    /// How it is run.
    pub lane: Lane,
    /// The call that it makes, where it is run out of band and not refused.
    pub call: Option<Call>,
}

/// A request by its session and its number in it.
#[derive(Clone, Copy, Debug, PartialEq, Eq)]
pub struct RequestName {
    /// Its session.
    pub session: u32,
    /// Its number in the session, from 1 on.
    pub number: u64,
}

/// A request that was started.
#[derive(Drop)]
pub struct Started {
    /// Its session.
    pub session: u32,
    /// Its number in the session.
    pub number: u64,
    /// The call that it makes, where it is not refused.
    pub call: Option<Call>,
}
