ghost use Rattle.std.specs.Prelude.{◌≡◌, ◌≢◌, Err, IfOk, IfErr};
ghost use Rattle.qm_base.specs.Faults.{Counts, HoldsPart, Puts, Rose};
ghost use Rattle.qm_history.specs.Gathering.{Gathers};
ghost use Rattle.qm_core.specs.Texts.{text_of};

use crate::texts::put_entry;
use qm_base::{NoMemory, Text};
use qm_core::EntryList;
use qm_link::{Sink, SinkFailed};
use std::alloc::Global;

/// From this many bytes on the lines of entries are put, so that few calls are made.
const GATHERED: usize = 65_536;

/// Why a journal was not written to its end.
#[derive(Clone, Copy, Debug, PartialEq, Eq)]
pub enum HistoryFault {
    /// The sink failed.
    SinkFault,
    /// No memory was left.
    Memory,
}

impl From<NoMemory> for HistoryFault {
    ghost use Rattle.qm_history.specs.declared.writing.HistoryFault.TheVariants.{Memory};

    ghost from_gives = { λ _ fault. fault ≡ Memory };

    fn from(_fault: NoMemory) -> HistoryFault {
        HistoryFault::Memory
    }
}

impl From<SinkFailed> for HistoryFault {
    ghost use Rattle.qm_history.specs.declared.writing.HistoryFault.TheVariants.{SinkFault};

    ghost from_gives = { λ _ fault. fault ≡ SinkFault };

    fn from(_fault: SinkFailed) -> HistoryFault {
        HistoryFault::SinkFault
    }
}

/// Puts a text where it is long, and answers what is still to be put.
fn put_much<S: Sink>(alloc: Global, text: Text, sink: &mut S) -> Result<Text, SinkFailed>
    ensures ok { IfOk result (λ rest. Gathers (S.contents sink.old) (S.contents sink.new) rest text) }
    ensures part { IfErr result (λ _. HoldsPart (S.contents sink.old) text (S.contents sink.new)) }
    ensures cause { Counts (S.faults sink.old) (S.faults sink.new) result }
{
    if text.len() < GATHERED {
        return Ok(text);
    }
    sink.put(text.as_slice())?;
    Ok(Text::new(alloc))
}

/// Puts the text of a journal into a sink. `SinkFault` comes exactly where the sink failed. After
/// an error a part of the text was put.
pub fn write_history<S: Sink>(
    alloc: Global,
    journal: &EntryList,
    sink: &mut S,
) -> Result<(), HistoryFault>
    ensures text { Puts (S.contents sink.old) (text_of journal.now.items) result
        (S.contents sink.new) }
    ensures failed { result ≡ Err HistoryFault.SinkFault →
        Rose (S.faults sink.old) (S.faults sink.new) }
    ensures kept { result ≢ Err HistoryFault.SinkFault → S.faults sink.new ≡ S.faults sink.old }
{
    let entries = journal.as_slice();
    let mut text = Text::new(alloc);
    for (i, entry) in entries.iter().enumerate() {
        put_entry(&mut text, i as u64 + 1, entry)?;
        text = put_much(alloc, text, sink)?;
    }
    sink.put(text.as_slice())?;
    Ok(())
}
