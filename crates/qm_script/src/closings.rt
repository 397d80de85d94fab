ghost use Rattle.std.specs.Prelude.{◌≡◌, IfOk, Some, None};
ghost use Rattle.qm_script.specs.Endings.{closing_of, end_of as end_of_refused, step_word_of, stop_end_of, stop_word_of};

use crate::endings::{PlayEnd, Refused, StepWord, Stop};
use itoa::Buffer;
use qm_base::{NoMemory, Text};
use std::alloc::Global;

fn step_word(word: StepWord) -> &'static [u8]
    ensures { result.now ≡ step_word_of word }
{
    match word {
        StepWord::NoSession => b"no-session",
        StepWord::Closed => b"closed",
        StepWord::InputEnded => b"input-ended",
        StepWord::OobOpen => b"oob-open",
        StepWord::Busy => b"busy",
        StepWord::Nothing => b"nothing",
        StepWord::NotRunning => b"not-running",
        StepWord::NotOpen => b"not-open",
        StepWord::NotDrained => b"not-drained",
        StepWord::WrongCause => b"wrong-cause",
        StepWord::Stopping => b"stopping",
        StepWord::NoFrame => b"no-frame",
    }
}

fn stop_word(stop: Stop) -> &'static [u8]
    ensures { result.now ≡ stop_word_of stop }
{
    match stop {
        Stop::BadLine => b"bad-line",
        Stop::Step(word) => step_word(word),
        Stop::SessionsFull => b"sessions-full",
        Stop::JournalFull => b"journal-full",
    }
}

fn end_line(alloc: Global, entries: u64) -> Result<Text, NoMemory>
    ensures { IfOk result (λ line. line ≡ closing_of None entries) }
{
    let mut buffer = Buffer::new();
    let mut line = Text::of(alloc, b"end ")?;
    line.extend(buffer.format(entries).as_bytes())?;
    line.push(b'\n')?;
    Ok(line)
}

fn error_line(alloc: Global, refused: Refused, entries: u64) -> Result<Text, NoMemory>
    ensures { IfOk result (λ line. line ≡ closing_of (Some refused) entries) }
{
    let mut buffer = Buffer::new();
    let mut line = Text::of(alloc, b"error: script line ")?;
    line.extend(buffer.format(refused.line).as_bytes())?;
    line.extend(b": ")?;
    line.extend(stop_word(refused.stop))?;
    line.push(b'\n')?;
    Ok(line)
}

/// The closing line of a transcript, after so many entries.
pub fn closing(alloc: Global, refused: Option<Refused>, entries: u64) -> Result<Text, NoMemory>
    ensures { IfOk result (λ line. line ≡ closing_of refused entries) }
{
    match refused {
        None => end_line(alloc, entries),
        Some(refused) => error_line(alloc, refused, entries),
    }
}

fn stop_end(line: u32, stop: Stop) -> PlayEnd
    ensures { result ≡ stop_end_of line stop }
{
    match stop {
        Stop::BadLine => PlayEnd::BadLine(line),
        Stop::Step(word) => PlayEnd::WrongStep(line, word),
        Stop::SessionsFull => PlayEnd::Full(line),
        Stop::JournalFull => PlayEnd::Full(line),
    }
}

/// How a play ended, where neither the sink failed nor memory was wanting.
pub fn end_of(refused: Option<Refused>) -> PlayEnd
    ensures { result ≡ end_of_refused refused }
{
    match refused {
        None => PlayEnd::Done,
        Some(refused) => stop_end(refused.line, refused.stop),
    }
}
