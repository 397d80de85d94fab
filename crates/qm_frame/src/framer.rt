ghost use Rattle.std.specs.Prelude.{◌≡◌, ◌≢◌, [], ◌∷◌, ◌++◌, IfOk};
ghost use Rattle.qm_frame.specs.Framing.{Between, frames_of, answered};
ghost use Rattle.qm_frame.specs.Machine;

use crate::bytes::{is_closer, is_opener, is_reset, is_space};
use crate::open_text::OpenText;
use crate::step::{FrameFault, Step};
use qm_base::{History, NoMemory};
use std::alloc::Global;
use std::marker::Model;

/// Where in the bytes a splitter stands.
#[derive(Clone, Copy)]
pub enum Mode {
    /// Before or after messages.
    Between,
    /// In a message.
    Inside,
    /// After a fault, before a reset byte.
    Skipping,
    /// Right after a message.
    Complete,
}

/// Where a byte leaves a splitter, by its answer.
fn mode_after(step: Step, byte: u8) -> Mode
    ensures { result ≡ Machine.mode_after step byte }
{
    match step {
        Step::More => Mode::Inside,
        Step::Frame => Mode::Complete,
        Step::Bad(_) => {
            if is_reset(byte) {
                Mode::Between
            } else {
                Mode::Skipping
            }
        }
    }
}

/// Cuts bytes that come one by one into messages.
#[derive(Drop)]
struct Splitter {
    text: OpenText,
    mode: Mode,
}

impl Model for Splitter {
    ghost use Rattle.qm_frame.specs.Machine.{Split, split_of, IsKept};

    ghost Value = { Split };

    ghost view = { λ s. split_of s.mode s.text };

    ghost invariant = { λ s. IsKept s.mode s.text };
}

impl Splitter {
    /// A splitter that was given no byte.
    fn new(alloc: Global) -> Result<Splitter, NoMemory>
        ensures { IfOk result (λ splitter. splitter ≡ record { rest = Between; message = [] }) }
    {
        Ok(Splitter {
            text: OpenText::new(alloc)?,
            mode: Mode::Between,
        })
    }

    /// The message that the last byte completed, or nothing.
    fn message(&self) -> &[u8]
        ensures { result.now ≡ self.now.message }
    {
        match self.mode {
            Mode::Complete => self.text.as_slice(),
            _ => &[],
        }
    }

    /// Takes the next byte.
    fn push(&mut self, byte: u8) -> Step
        ensures step { Machine.step self.old.rest byte ≡ Machine.stepped result self.new }
        ensures message { result ≢ Step.Frame → self.new.message ≡ [] }
    {
        match self.mode {
            Mode::Skipping => {
                if is_reset(byte) {
                    self.mode = Mode::Between;
                }
                Step::More
            }
            Mode::Inside => {
                let step = self.text.push(byte);
                self.mode = mode_after(step, byte);
                step
            }
            Mode::Between | Mode::Complete => self.push_between(byte),
        }
    }

    fn push_between(&mut self, byte: u8) -> Step
        requires { self.old.rest ≡ Between }
        ensures step { Machine.step Between byte ≡ Machine.stepped result self.new }
        ensures message { self.new.message ≡ [] }
    {
        if is_space(byte) {
            self.mode = Mode::Between;
            Step::More
        } else if is_closer(byte) {
            self.mode = Mode::Between;
            Step::Bad(FrameFault::Unbalanced)
        } else if is_opener(byte) {
            self.text.begin(byte);
            self.mode = Mode::Inside;
            Step::More
        } else {
            let fault = Step::Bad(FrameFault::LexError);
            self.mode = mode_after(fault, byte);
            fault
        }
    }
}

/// Finds the messages and the faults in bytes that come one by one. Contracts see all bytes given
/// so far, and the message that the last of them completed.
#[derive(Drop)]
pub struct Framer {
    splitter: Splitter,
    given: History<u8>,
}

impl Model for Framer {
    ghost use Rattle.std.specs.Prelude.{◌≡◌};
    ghost use Rattle.qm_frame.specs.Framing.{Framed, residue_of};

    ghost Value = { Framed };

    ghost view = { λ f. record { given = f.given; message = f.splitter.message } };

    ghost invariant = { λ f. f.splitter.rest ≡ residue_of f.given };
}

impl Framer {
    /// A framer that was given no byte. It takes a buffer of `MAX_LENGTH` bytes.
    #[tactic(auto, using(crate::proofs::FramingLemmas::nothing_left))]
    pub fn new(alloc: Global) -> Result<Framer, NoMemory>
        ensures { IfOk result (λ framer. framer ≡ record { given = []; message = [] }) }
    {
        Ok(Framer {
            splitter: Splitter::new(alloc)?,
            given: History::new(),
        })
    }

    /// Takes the next byte, and answers what the byte completes: `Frame` at the end of a message,
    /// `Bad` at a fault, and `More` else. It takes no memory.
    #[tactic(auto, using(crate::proofs::FramingLemmas::one_more))]
    pub fn push(&mut self, byte: u8) -> Step
        ensures given { self.new.given ≡ self.old.given ++ byte ∷ [] }
        ensures frames { frames_of self.new.given ≡
            frames_of self.old.given ++ answered result self.new.message }
        ensures message { result ≢ Step.Frame → self.new.message ≡ [] }
    {
        let step = self.splitter.push(byte);
        self.given.note(&byte);
        step
    }

    /// The message that the last byte completed; the empty list where it completed none.
    pub fn frame(&self) -> &[u8]
        ensures { result.now ≡ self.now.message }
    {
        self.splitter.message()
    }
}
