ghost use Rattle.std.specs.Prelude.{◌≡◌, ◌≢◌, ◌≤◌, ◌++◌, ◌-◌, ◌^◌, min, IfOk, Err, length};
ghost use Rattle.qm_base.specs.Faults.{Puts, Rose};
ghost use Rattle.qm_core.specs.Texts.{text_of};
ghost use Rattle.qm_core.specs.Worlds.{IsReady};
ghost use Rattle.qm_script.specs.Endings.{closing_of};
ghost use Rattle.qm_core.specs.declared.TheConstants.{MOST_ENTRIES, MOST_TEXT};
ghost use Rattle.qm_script.specs.Lines.{lines_of};
ghost use Rattle.qm_script.specs.Playing.{Ended, played_from, played_of};
ghost use Rattle.qm_script.specs.Plays.{Plays, sunk};
ghost use Rattle.qm_script.specs.Kept.{Finishes};

use crate::closings::{closing, end_of};
use crate::endings::{PlayEnd, Refused};
use crate::lines::first_line;
use crate::player::Player;
use qm_base::NoMemory;
use qm_core::{EntryList, Limits, World};
use qm_history::{HistoryFault, write_history};
use qm_link::{Sink, SinkFailed};
use std::alloc::Global;

/// A player after a script, and the line that was refused, if one was.
#[derive(Drop)]
pub struct Finished {
    /// The player.
    pub player: Player,
    /// The line that was refused.
    pub refused: Option<Refused>,
}

fn told_number(number: u64) -> u32
    ensures { result ≡ min number (2 ^ 32 - 1) }
{
    number.min(u32::MAX as u64) as u32
}

/// Plays the lines of a script, and answers the one that was refused, if one was.
fn run(alloc: Global, player: &mut Player, script: &[u8]) -> Result<Option<Refused>, NoMemory>
    ensures { let lines = lines_of script.now in IfOk result
        (Finishes (played_from player.old.world player.old.limits 1 player.old.played lines) player.new) }
{
    let mut rest = script;
    let mut number = 0u64;
    while rest.len() > 0 {
        let (line, later) = first_line(rest);
        number += 1;
        if let Some(stop) = player.line(alloc, line)? {
            return Ok(Some(Refused {
                line: told_number(number),
                stop,
            }));
        }
        rest = later;
    }
    Ok(None)
}

fn put_closing<S: Sink>(
    alloc: Global,
    refused: Option<Refused>,
    entries: u64,
    sink: &mut S,
) -> Result<(), HistoryFault>
    ensures text { Puts (S.contents sink.old) (closing_of refused entries) result (S.contents sink.new) }
    ensures failed { result ≡ Err HistoryFault.SinkFault → Rose (S.faults sink.old) (S.faults sink.new) }
    ensures kept { result ≢ Err HistoryFault.SinkFault → S.faults sink.new ≡ S.faults sink.old }
{
    match closing(alloc, refused, entries) {
        Ok(line) => match sink.put(line.as_slice()) {
            Ok(()) => Ok(()),
            Err(SinkFailed) => Err(HistoryFault::SinkFault),
        },
        Err(NoMemory) => Err(HistoryFault::Memory),
    }
}

fn put_transcript<S: Sink>(
    alloc: Global,
    journal: &EntryList,
    refused: Option<Refused>,
    sink: &mut S,
) -> Result<(), HistoryFault>
    ensures text { Puts (S.contents sink.old) (text_of journal.now.items ++ closing_of refused (length journal.now.items))
        result (S.contents sink.new) }
    ensures failed { result ≡ Err HistoryFault.SinkFault → Rose (S.faults sink.old) (S.faults sink.new) }
    ensures kept { result ≢ Err HistoryFault.SinkFault → S.faults sink.new ≡ S.faults sink.old }
{
    match write_history(alloc, journal, sink) {
        Ok(()) => put_closing(alloc, refused, journal.len() as u64, sink),
        Err(fault) => Err(fault),
    }
}

/// Lets a value go.
fn let_go<T: Drop>(value: T) {
    let _value = value;
}

fn replayed(
    alloc: Global,
    world: World,
    limits: Limits,
    script: &[u8],
) -> Result<Finished, NoMemory>
    requires some { 1 ≤ limits.entries }
    requires few { limits.entries ≤ MOST_ENTRIES }
    requires short { limits.text ≤ MOST_TEXT }
    requires ready { IsReady world }
    ensures { IfOk result (λ finished.
        Finishes (played_of world limits script.now) finished.player finished.refused) }
{
    let mut player = Player::new(alloc, world, limits)?;
    match run(alloc, &mut player, script) {
        Ok(refused) => Ok(Finished { player, refused }),
        Err(NoMemory) => {
            let_go(player);
            Err(NoMemory)
        }
    }
}

fn put_finished<S: Sink>(alloc: Global, finished: &Finished, sink: &mut S) -> PlayEnd
    ensures { (ended : Ended) → Finishes ended finished.now.player finished.now.refused →
        Plays ended (sunk S.contents S.faults sink.old sink.new) result }
{
    match put_transcript(alloc, finished.player.journal(), finished.refused, sink) {
        Ok(()) => end_of(finished.refused),
        Err(HistoryFault::SinkFault) => PlayEnd::SinkFault,
        Err(HistoryFault::Memory) => PlayEnd::Memory,
    }
}

/// Plays a script in a world, and puts its transcript into the sink: the text of the journal and
/// the closing line. `SinkFault` comes exactly where the sink's count of faults rises.
pub fn play<S: Sink>(
    alloc: Global,
    world: World,
    limits: Limits,
    script: &[u8],
    sink: &mut S,
) -> PlayEnd
    requires some { 1 ≤ limits.entries }
    requires few { limits.entries ≤ MOST_ENTRIES }
    requires short { limits.text ≤ MOST_TEXT }
    requires ready { IsReady world }
    ensures { Plays (played_of world limits script.now) (sunk S.contents S.faults sink.old sink.new) result }
{
    match replayed(alloc, world, limits, script) {
        Ok(finished) => {
            let end = put_finished(alloc, &finished, sink);
            let_go(finished);
            end
        }
        Err(NoMemory) => PlayEnd::Memory,
    }
}
