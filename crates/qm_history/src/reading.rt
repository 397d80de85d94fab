ghost use Rattle.std.specs.Prelude.{◌≡◌, ℕ, List, Err, ◌<◌, ◌≤◌, ◌+◌, ◌-◌, ◌^◌, min, ◌++◌, [], ◌∷◌, drop, length, position, IfOk, IfSome};
ghost use Rattle.std.specs.Str.{bytes_eq};
ghost use Rattle.qm_history.specs.declared.reading.Reading.TheVariants.{Between, Within};
ghost use Rattle.qm_history.specs.Histories.{FirstWrong, Reads, end_line};
ghost use Rattle.qm_history.specs.Lines.{is_line_feed};
ghost use Rattle.qm_history.specs.Readings.{after_head as after_head_of, step as step_of, taking as taking_of};

use crate::guesses::{Head, head_in};
use crate::texts::put_number;
use qm_base::{GrowingList, NoMemory, Shared, Text};
use qm_core::{Entry, LineList};
use std::alloc::Global;

/// Entries in order, without their plans.
pub type EntryWordList = GrowingList<Entry>;

/// Why a text is the history of no entries.
#[derive(Clone, Copy, Debug, PartialEq, Eq)]
pub enum HistoryRefusal {
    /// The number of the first line that cannot stand; past 2^32-1 it is that number.
    Line(u32),
    /// No memory was left.
    Memory,
}

/// What the lines so far were read as.
#[derive(Drop)]
pub(crate) enum Reading {
    /// Whole entries.
    Between(EntryWordList),
    /// An entry of which lines are wanting.
    Within {
        /// The entries before it.
        entries: EntryWordList,
        /// Its session.
        session: u32,
        /// How many lines follow the next one.
        left: u64,
        /// The lines that came.
        lines: LineList,
    },
    /// The end.
    Ended(EntryWordList),
}

fn taking(
    entries: EntryWordList,
    session: u32,
    count: u64,
    lines: LineList,
) -> Result<Reading, NoMemory>
    ensures { IfOk result (λ reading. reading ≡ taking_of entries session count lines) }
{
    if count == 0 {
        let mut entries = entries;
        entries.push(Entry::Take { session, lines })?;
        Ok(Reading::Between(entries))
    } else {
        Ok(Reading::Within {
            entries,
            session,
            left: count - 1,
            lines,
        })
    }
}

fn whole(entries: EntryWordList, entry: Entry) -> Result<Reading, NoMemory>
    ensures { IfOk result (λ reading. reading ≡ Between (entries ++ entry ∷ [])) }
{
    let mut entries = entries;
    entries.push(entry)?;
    Ok(Reading::Between(entries))
}

fn after_head(
    alloc: Global,
    entries: EntryWordList,
    head: Option<Head>,
) -> Result<Option<Reading>, NoMemory>
    ensures { IfOk result (λ reading. reading ≡ after_head_of entries head) }
{
    match head {
        None => Ok(None),
        Some(Head::Whole(entry)) => match whole(entries, entry) {
            Ok(reading) => Ok(Some(reading)),
            Err(NoMemory) => Err(NoMemory),
        },
        Some(Head::Taking { session, count }) => {
            match taking(entries, session, count, LineList::new(alloc)) {
                Ok(reading) => Ok(Some(reading)),
                Err(NoMemory) => Err(NoMemory),
            }
        }
    }
}

fn is_end(alloc: Global, line: &[u8], count: u64) -> Result<bool, NoMemory>
    ensures { IfOk result (λ is. is ≡ bytes_eq line.now (end_line count)) }
{
    let mut text = Text::new(alloc);
    text.extend(b"end ")?;
    put_number(&mut text, count)?;
    Ok(line == text.as_slice())
}

fn between(alloc: Global, entries: EntryWordList, line: &[u8]) -> Result<Option<Reading>, NoMemory>
    ensures { IfOk result (λ reading. reading ≡ step_of (Between entries) line.now) }
{
    let count = entries.len() as u64;
    if is_end(alloc, line, count)? {
        return Ok(Some(Reading::Ended(entries)));
    }
    let head = head_in(alloc, count + 1, line)?;
    after_head(alloc, entries, head)
}

fn within(
    alloc: Global,
    entries: EntryWordList,
    session: u32,
    left: u64,
    lines: LineList,
    line: &[u8],
) -> Result<Option<Reading>, NoMemory>
    ensures { IfOk result (λ reading. reading ≡ step_of (Within entries session left lines) line.now) }
{
    if !line.starts_with(b"> ") {
        return Ok(None);
    }
    let mut lines = lines;
    lines.push(Shared::new(alloc, Text::of(alloc, &line[2..])?)?)?;
    match taking(entries, session, left, lines) {
        Ok(reading) => Ok(Some(reading)),
        Err(NoMemory) => Err(NoMemory),
    }
}

fn step(alloc: Global, reading: Reading, line: &[u8]) -> Result<Option<Reading>, NoMemory>
    ensures { IfOk result (λ next. next ≡ step_of reading line.now) }
{
    match reading {
        Reading::Between(entries) => between(alloc, entries, line),
        Reading::Within {
            entries,
            session,
            left,
            lines,
        } => within(alloc, entries, session, left, lines, line),
        Reading::Ended(_) => Ok(None),
    }
}

fn line_feed_at(text: &[u8]) -> Option<usize>
    ensures place { result ≡ position is_line_feed text.now }
    ensures within { IfSome result (λ at. at < length text.now) }
{
    text.iter().position(|byte| *byte == b'\n')
}

fn past(text: &[u8], place: usize) -> &[u8]
    requires { place ≤ length text.now }
    ensures { result.now ≡ drop place text.now }
{
    &text[place..]
}

fn told_number(lines: usize) -> u32
    ensures { result ≡ min (lines + 1) (2 ^ 32 - 1) }
{
    lines.saturating_add(1).min(u32::MAX as usize) as u32
}

/// The refusal of the line after so many.
fn refusal(lines: usize) -> HistoryRefusal
    ensures { (text : List ℕ) → FirstWrong text (lines + 1) → Reads text (Err result) }
{
    HistoryRefusal::Line(told_number(lines))
}

/// The entries of which the text is the whole history, without their plans; or the number of the
/// first line that cannot stand. A line that is wanting, or lacks its LF, cannot stand. Values are
/// nested however deeply.
pub fn read_history(alloc: Global, text: &[u8]) -> Result<EntryWordList, HistoryRefusal>
    ensures { Reads text.now result }
{
    let mut reading = Reading::Between(EntryWordList::new(alloc));
    let mut place = 0;
    let mut lines = 0;
    while place < text.len() {
        let rest = past(text, place);
        let at = match line_feed_at(rest) {
            Some(at) => at,
            None => return Err(refusal(lines)),
        };
        match step(alloc, reading, &rest[..at]) {
            Ok(Some(next)) => reading = next,
            Ok(None) => return Err(refusal(lines)),
            Err(NoMemory) => return Err(HistoryRefusal::Memory),
        }
        place += at + 1;
        lines += 1;
    }
    match reading {
        Reading::Ended(entries) => Ok(entries),
        _ => Err(refusal(lines)),
    }
}
