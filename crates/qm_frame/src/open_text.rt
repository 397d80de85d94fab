ghost use Rattle.std.specs.Prelude.{◌≡◌, ◌≤◌, ◌<◌, true, [], ◌∷◌, ◌++◌, length, IfOk, vec_len, vec_capacity};
ghost use Rattle.qm_frame.specs.Bytes.{is_opener};
ghost use Rattle.qm_frame.specs.Framing.{Inside};
ghost use Rattle.qm_frame.specs.Machine.{step, stepped, split_by};
ghost use Rattle.qm_frame.specs.Messages.{is_open};

use crate::judging::{Judged, State, judge, lengthens};
use crate::piece::LastPiece;
use crate::step::{MAX_LENGTH, Step};
use qm_base::NoMemory;
use std::alloc::Global;
use std::marker::Model;

/// What is known of an opener alone.
const START: State = State {
    last: LastPiece::Whole,
    depth: 1,
};

fn keep(bytes: &mut Vec<u8>, byte: u8)
    requires { vec_len bytes.old < vec_capacity bytes.old }
    ensures items { bytes.new.items ≡ bytes.old.items ++ byte ∷ [] }
    ensures capacity { vec_capacity bytes.old ≤ vec_capacity bytes.new }
{
    let _ = bytes.push(byte);
}

/// The bytes of a message so far, or of the last one, and what is known of them while it is open.
#[derive(Drop)]
pub struct OpenText {
    bytes: Vec<u8>,
    state: State,
}

impl Model for OpenText {
    ghost use Rattle.std.specs.Prelude.{List, ℕ, vec_capacity};
    ghost use Rattle.qm_frame.specs.Machine.{IsKnown};

    ghost Value = { List ℕ };

    ghost view = { λ t. t.bytes.items };

    ghost invariant = { λ t. IsKnown (vec_capacity t.bytes) t.bytes.items t.state };
}

impl OpenText {
    /// No message yet, and room for one.
    #[tactic(auto, using(crate::proofs::Texts::empty_shut))]
    pub fn new(alloc: Global) -> Result<OpenText, NoMemory>
        ensures { IfOk result (λ text. text ≡ []) }
    {
        let bytes = Vec::with_capacity(alloc, MAX_LENGTH)?;
        Ok(OpenText {
            bytes,
            state: START,
        })
    }

    /// The bytes.
    pub fn as_slice(&self) -> &[u8]
        ensures { result.now ≡ self.now }
    {
        self.bytes.as_slice()
    }

    fn len(&self) -> usize
        ensures { result ≡ length self.now }
    {
        self.bytes.len()
    }

    /// Begins a message.
    #[tactic(auto, using(crate::proofs::Texts::opener_open))]
    pub fn begin(&mut self, byte: u8)
        requires { is_opener byte ≡ true }
        ensures text { self.new ≡ byte ∷ [] }
        ensures open { is_open self.new ≡ true }
    {
        self.bytes.clear();
        keep(&mut self.bytes, byte);
        self.state = START;
    }

    /// Takes one more byte of a message.
    pub fn push(&mut self, byte: u8) -> Step
        requires { is_open self.old ≡ true }
        ensures step { step (Inside self.old) byte ≡
            stepped result (split_by result byte self.new) }
        ensures open { result ≡ Step.More → is_open self.new ≡ true }
    {
        let length = self.len();
        if lengthens(self.state.last, length, byte) {
            keep(&mut self.bytes, byte);
            return Step::More;
        }
        match judge(self.state, length, byte) {
            Judged::Taken(state) => {
                keep(&mut self.bytes, byte);
                self.state = state;
                Step::More
            }
            Judged::Ends => {
                keep(&mut self.bytes, byte);
                Step::Frame
            }
            Judged::Wrong(fault) => Step::Bad(fault),
        }
    }
}
