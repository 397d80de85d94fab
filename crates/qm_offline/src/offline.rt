ghost use Rattle.std.specs.Prelude.{◌≡◌, ◌≤◌, IfOk, map, string_bytes, Option};
ghost use Rattle.qm_offline.specs.Answers.{Answers, Ends};
ghost use Rattle.qm_offline.specs.Output.{missing as missing_of, cannot_read, replayed, end_status_of};
ghost use Rattle.qm_offline.specs.Loading.{IsLoaded};
ghost use Rattle.qm_offline.specs.Words.{Words, words_of as words_of_words};
ghost use Rattle.qm_offline.specs.declared.loading.Command.TheVariants.{Replay};
ghost use Rattle.qm_core.specs.Worlds.{IsReady};
ghost use Rattle.qm_core.specs.declared.TheConstants.{MOST_ENTRIES, MOST_TEXT};
ghost use Rattle.qm_script.specs.Plays.{sunk};
ghost use Rattle.qm_script.specs.Playing.{played_of};

use crate::loading::{Command, Loaded, load};
use crate::refusal::{Refusal, put_text, report};
use crate::told::{ok_line, value_line};
use qapi_load::{Library, LibraryFault};
use qm_base::{NoMemory, Text};
use qm_core::{Limits, World};
use qm_link::Sink;
use qm_script::{PlayEnd, play};
use std::alloc::Global;

fn missing(alloc: Global, name: &[u8]) -> Result<Text, NoMemory>
    ensures { IfOk result (λ line. line ≡ (missing_of name.now).bytes) }
{
    let mut line = Text::of(alloc, b"error: script ")?;
    line.extend(name)?;
    line.extend(b": no-file\n")?;
    Ok(line)
}

fn status(end: PlayEnd) -> u8
    ensures { result ≡ end_status_of end }
{
    match end {
        PlayEnd::Done => 0,
        PlayEnd::BadLine(_) | PlayEnd::WrongStep(_, _) => 5,
        PlayEnd::Full(_) => 9,
        PlayEnd::SinkFault => 7,
        PlayEnd::Memory => 1,
    }
}

fn play_script<S: Sink>(
    alloc: Global,
    world: World,
    limits: Limits,
    script: &[u8],
    sink: &mut S,
) -> u8
    requires some { 1 ≤ limits.entries }
    requires few { limits.entries ≤ MOST_ENTRIES }
    requires short { limits.text ≤ MOST_TEXT }
    requires ready { IsReady world }
    ensures { let output = replayed (played_of world limits script.now) in Ends output.bytes output.status (sunk S.contents S.faults sink.old sink.new) result }
{
    status(play(alloc, world, limits, script, sink))
}

fn refuse_unread<S: Sink>(alloc: Global, name: Text, sink: &mut S) -> u8
    ensures line { Ends (cannot_read name) 6 (sunk S.contents S.faults sink.old sink.new) result }
    ensures nothing { result ≡ 1 → S.contents sink.new ≡ S.contents sink.old }
{
    report(alloc, &Refusal::Library(name), sink)
}

/// Plays the script of the name over a world, and puts its transcript.
fn replay_script<L: Library, S: Sink>(
    alloc: Global,
    world: World,
    limits: Limits,
    name: Text,
    library: &mut L,
    sink: &mut S,
) -> u8
    requires some { 1 ≤ limits.entries }
    requires few { limits.entries ≤ MOST_ENTRIES }
    requires short { limits.text ≤ MOST_TEXT }
    requires ready { IsReady world }
    ensures { (words : Option Words) → IsLoaded (L.files library.old) words (record { command = Replay name; world = world; limits = limits }) →
        Answers record {
          words = words;
          files = L.files library.old;
          library_before = L.faults library.old;
          library_now = L.faults library.new;
          failed_name = L.failed_name library.new;
          sink = sunk S.contents S.faults sink.old sink.new;
        } result }
{
    match library.text(alloc, name.as_slice()) {
        Ok(Some(script)) => play_script(alloc, world, limits, script.as_slice(), sink),
        Ok(None) => put_text(missing(alloc, name.as_slice()), 5, sink),
        Err(LibraryFault::Failed) => refuse_unread(alloc, name, sink),
        Err(LibraryFault::Memory) => 1,
    }
}

/// Does what a command line orders.
fn run<L: Library, S: Sink>(alloc: Global, loaded: Loaded, library: &mut L, sink: &mut S) -> u8
    requires some { 1 ≤ loaded.limits.entries }
    requires few { loaded.limits.entries ≤ MOST_ENTRIES }
    requires short { loaded.limits.text ≤ MOST_TEXT }
    requires ready { IsReady loaded.world }
    ensures { (words : Option Words) → IsLoaded (L.files library.old) words loaded →
        Answers record {
          words = words;
          files = L.files library.old;
          library_before = L.faults library.old;
          library_now = L.faults library.new;
          failed_name = L.failed_name library.new;
          sink = sunk S.contents S.faults sink.old sink.new;
        } result }
{
    let Loaded {
        command,
        world,
        limits,
    } = loaded;
    match command {
        Command::Check => put_text(ok_line(alloc, &world.schema), 0, sink),
        Command::Introspect => put_text(value_line(alloc, &world.introspection), 0, sink),
        Command::Replay(name) => replay_script(alloc, world, limits, name, library, sink),
    }
}

/// Runs a command line without threads, and answers its status: 0 where all went well; 1 where
/// memory was wanting; 2 where the words are outside the grammar; 3 where the schema is refused; 4
/// where the bind file is missing or refused; 5 where the script is missing or a line of it is
/// refused; 6 where the library failed; 7 where the sink failed; 9 where the journal or the sessions
/// are full. It always returns.
pub fn run_offline<L: Library, S: Sink>(
    alloc: Global,
    words: &[String],
    library: &mut L,
    sink: &mut S,
) -> u8
    ensures { Answers record {
      words = words_of_words (map string_bytes words.now);
      files = L.files library.old;
      library_before = L.faults library.old;
      library_now = L.faults library.new;
      failed_name = L.failed_name library.new;
      sink = sunk S.contents S.faults sink.old sink.new;
    } result }
{
    match load(alloc, words, library) {
        Ok(loaded) => run(alloc, loaded, library, sink),
        Err(refusal) => report(alloc, &refusal, sink),
    }
}
