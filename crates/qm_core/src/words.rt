ghost use Rattle.std.specs.Prelude.{◌≡◌, ◌≤◌, find, length};
ghost use Rattle.std.specs.Option.{option_copied};
ghost use Rattle.std.specs.Str.{bytes_eq};
ghost use Rattle.qm_core.specs.Texts.{cause_of, cause_word_of, frame_word_of, lane_word_of};

use crate::entries::Cause;
use crate::inputs::FrameWord;
use qm_caps::Lane;

const CAUSES: [Cause; 8] = [
    Cause::Ended,
    Cause::ReadFault,
    Cause::WriteFault,
    Cause::Overrun,
    Cause::Stopped,
    Cause::Limit,
    Cause::Memory,
    Cause::Halted,
];

fn cause_in<'a>(causes: &'a [Cause], word: &[u8]) -> Option<&'a Cause>
    ensures { option_copied result ≡ find (λ c. bytes_eq word.now (cause_word_of c)) causes.now }
{
    causes.iter().find(|cause| word == cause.word())
}

impl Cause {
    /// The word of a cause in scripts and transcripts. This project's own rule.
    pub fn word(self) -> &'static [u8]
        ensures word { result.now ≡ cause_word_of self }
        ensures short { length result.now ≤ 11 }
    {
        match self {
            Cause::Ended => b"ended",
            Cause::ReadFault => b"read-fault",
            Cause::WriteFault => b"write-fault",
            Cause::Overrun => b"overrun",
            Cause::Stopped => b"stopped",
            Cause::Limit => b"limit",
            Cause::Memory => b"memory",
            Cause::Halted => b"halted",
        }
    }

    /// The cause of a word; None where no cause has it. This project's own rule.
    pub fn of_word(word: &[u8]) -> Option<Cause>
        ensures { result ≡ cause_of word.now }
    {
        cause_in(&CAUSES, word).copied()
    }
}

impl FrameWord {
    /// The word of a fault in transcripts. This project's own rule.
    pub fn word(self) -> &'static [u8]
        ensures { result.now ≡ frame_word_of self }
    {
        match self {
            FrameWord::LexError => b"lex-error",
            FrameWord::Unbalanced => b"unbalanced",
            FrameWord::TooDeep => b"too-deep",
            FrameWord::TooLong => b"too-long",
        }
    }
}

/// The word of a lane in transcripts. This project's own rule.
pub fn lane_word(lane: Lane) -> &'static [u8]
    ensures { result.now ≡ lane_word_of lane }
{
    match lane {
        Lane::InBand => b"in",
        Lane::Oob => b"oob",
    }
}
