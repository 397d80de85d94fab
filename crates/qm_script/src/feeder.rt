ghost use Rattle.std.specs.Prelude.{◌≡◌, [], ◌∷◌, ◌++◌, IfOk, IfSome, slice_get};
ghost use Rattle.std.specs.Option.{option_copied};
ghost use Rattle.qm_core.specs.Inputs.{IsCleanInput};
ghost use Rattle.qm_script.specs.Fed.{frame_word_of, text_input_of, input_of, fed_inputs_of};

use qm_base::{NoMemory, Shared};
use qm_core::{BadInput, FrameWord, Input, JsonWord};
use qm_frame::{FrameFault, Framer, Step};
use qm_read::{JsonFault, Taken};
use std::alloc::Global;
use std::marker::Model;

fn frame_word(fault: FrameFault) -> FrameWord
    ensures { result ≡ frame_word_of fault }
{
    match fault {
        FrameFault::LexError => FrameWord::LexError,
        FrameFault::Unbalanced => FrameWord::Unbalanced,
        FrameFault::TooDeep => FrameWord::TooDeep,
        FrameFault::TooLong => FrameWord::TooLong,
    }
}

fn text_input(fault: JsonFault) -> Input
    ensures { result ≡ text_input_of fault }
{
    match fault {
        JsonFault::Expected(at) => Input::Bad(BadInput::Json(JsonWord::Expected(at))),
        JsonFault::Duplicate(at) => Input::Bad(BadInput::Json(JsonWord::Duplicate(at))),
        JsonFault::BadEscape(at) => Input::Bad(BadInput::Json(JsonWord::BadEscape(at))),
        JsonFault::BadUtf8(at) => Input::Bad(BadInput::Json(JsonWord::BadUtf8(at))),
        JsonFault::Memory => Input::Bad(BadInput::Frame(FrameWord::LexError)),
    }
}

fn make_input(alloc: Global, taken: Taken) -> Result<Input, NoMemory>
    ensures { IfOk result (λ input. input ≡ input_of taken) }
{
    match taken {
        Taken::Value(value) => Ok(Input::Doc(Shared::new(alloc, value)?)),
        Taken::BadFrame(fault) => Ok(Input::Bad(BadInput::Frame(frame_word(fault)))),
        Taken::BadText(fault) => Ok(text_input(fault)),
    }
}

fn again(input: &Input) -> Result<Input, NoMemory>
    ensures { IfOk result (λ other. other ≡ input.now) }
{
    match input {
        Input::Doc(value) => Ok(Input::Doc(value.again()?)),
        Input::Bad(bad) => Ok(Input::Bad(*bad)),
    }
}

/// The bytes that were fed to a session, of which contracts see the list, and their inputs.
#[derive(Drop)]
pub struct Feeder {
    framer: Framer,
    inputs: Vec<Input>,
}

impl Model for Feeder {
    ghost use Rattle.std.specs.Prelude.{◌≡◌, List, ℕ};
    ghost use Rattle.qm_script.specs.Fed.{fed_inputs_of};

    ghost Value = { List ℕ };

    ghost view = { λ f. f.framer.given };

    ghost invariant = { λ f. f.inputs.items ≡ fed_inputs_of f.framer.given };
}

fn keep(inputs: &mut Vec<Input>, alloc: Global, taken: Taken) -> Result<(), NoMemory>
    ensures { IfOk result (λ _. inputs.new.items ≡ inputs.old.items ++ input_of taken ∷ []) }
{
    let input = make_input(alloc, taken)?;
    Ok(inputs.push(input)?)
}

fn push(
    alloc: Global,
    framer: &mut Framer,
    inputs: &mut Vec<Input>,
    byte: u8,
) -> Result<(), NoMemory>
    requires { inputs.old.items ≡ fed_inputs_of framer.old.given }
    ensures given { IfOk result (λ _. framer.new.given ≡ framer.old.given ++ byte ∷ []) }
    ensures inputs { IfOk result (λ _. inputs.new.items ≡ fed_inputs_of framer.new.given) }
{
    match framer.push(byte) {
        Step::More => Ok(()),
        Step::Bad(fault) => keep(inputs, alloc, Taken::BadFrame(fault)),
        Step::Frame => {
            let taken = Taken::of_message(alloc, framer.frame())?;
            keep(inputs, alloc, taken)
        }
    }
}

impl Feeder {
    /// A feeder that was fed nothing.
    #[tactic(auto, using(crate::proofs::FedLemmas::fed_inputs_of_nothing))]
    pub fn new(alloc: Global) -> Result<Feeder, NoMemory>
        ensures { IfOk result (λ feeder. feeder ≡ []) }
    {
        let framer = Framer::new(alloc)?;
        Ok(Feeder {
            framer,
            inputs: Vec::new(alloc),
        })
    }

    /// Feeds more bytes.
    pub fn fed(self, alloc: Global, bytes: &[u8]) -> Result<Feeder, NoMemory>
        ensures { IfOk result (λ feeder. feeder ≡ self ++ bytes.now) }
    {
        let Feeder {
            mut framer,
            mut inputs,
        } = self;
        for byte in bytes {
            push(alloc, &mut framer, &mut inputs, *byte)?;
        }
        Ok(Feeder { framer, inputs })
    }

    fn kept(&self, place: u64) -> Option<&Input>
        ensures { option_copied result ≡ slice_get (fed_inputs_of self.now) place }
    {
        self.inputs.get(place as usize)
    }

    /// The input of this place, from 0 on, if the bytes hold so many. It is clean.
    #[tactic(auto, using(crate::proofs::FedLemmas::fed_clean))]
    pub fn input(&self, place: u64) -> Result<Option<Input>, NoMemory>
        ensures value { IfOk result (λ input. input ≡ slice_get (fed_inputs_of self.now) place) }
        ensures clean { IfOk result (λ input. IfSome input IsCleanInput) }
    {
        match self.kept(place) {
            Some(input) => Ok(Some(again(input)?)),
            None => Ok(None),
        }
    }
}
