use crate::inputs::BadInput;
use qm_admit::{Fault, PathList};

/// The class of an error reply (QMP specification, "Error").
#[derive(Clone, Copy, Debug, PartialEq, Eq)]
pub enum Class {
    /// Any other error.
    GenericError,
    /// The command is not known, or not in this mode.
    CommandNotFound,
}

/// Why a request is answered by an error. Names are those of the request.
#[derive(Drop)]
pub enum Refusal<'a> {
    /// There is no value.
    BadInput(BadInput),
    /// The value is no object.
    NotAnObject,
    /// The object has a member that no request has.
    UnexpectedMember(&'a [u8]),
    /// The object has both `execute` and `exec-oob`.
    TwoVerbs,
    /// The object names no command.
    NoVerb,
    /// The member that names the command is no string.
    VerbNoString(&'a [u8]),
    /// The arguments are no object.
    ArgumentsNoObject,
    /// Another command than `qmp_capabilities` before negotiation.
    NegotiationExpected,
    /// `qmp_capabilities` after negotiation.
    NegotiationComplete,
    /// There is no such command.
    UnknownCommand(&'a [u8]),
    /// The command may not be run out of band.
    NotOutOfBand(&'a [u8]),
    /// The arguments do not fit what the command takes: their first fault, and the way to it.
    Misfit(Fault, PathList),
}

/// What is made of a request before it takes effect.
#[derive(Drop)]
pub enum Verdict<'a> {
    /// It is answered by an error.
    Refused(Refusal<'a>),
    /// The command of this number takes effect.
    Run(u32),
}
