//! Command lines that are not run.
ghost use Rattle.std.specs.Prelude.{◌≡◌, ◌≢◌, ◌++◌, IfOk, List, ℕ};
ghost use Rattle.qm_offline.specs.Answers.{Ends};
ghost use Rattle.qm_offline.specs.Output.{usage, cannot_read as cannot_read_line, refusal_output};
ghost use Rattle.qm_offline.specs.Refusals.{load_refusal as load_refusal_of, check_refusal as check_refusal_of, bind_refusal as bind_refusal_of, refusal_of as refusal_of_fault};
ghost use Rattle.qm_script.specs.Plays.{sunk};

use crate::binds::{bind_line, missing_bind};
use crate::rules::{check_line, load_line};
use qapi_check::SchemaFault;
use qapi_load::{LoadFault, LoadRule};
use qapi_rules::{CheckFault, CheckRule};
use qm_base::{NoMemory, Text};
use qm_bind::{BindFault, BindRule};
use qm_link::{Sink, SinkFailed};
use std::alloc::Global;

const USAGE: &[u8] =
    b"error: usage: qmpd check|introspect|replay SCRIPT|serve SOCKET|drill N [--schema F] [--bind F] [--define A,B] [--journal N] [--workers N]\n";

/// Why a command line is not run.
#[derive(Debug, Drop)]
pub enum Refusal {
    /// The words are outside the grammar.
    Words,
    /// The files of the schema were not loaded. The rule is neither that of a failed read nor that
    /// of memory.
    Schema(LoadFault),
    /// A definition of the schema breaks a rule. The rule is not that of memory.
    Check(CheckFault),
    /// There is no bind file of this name.
    NoBind(Text),
    /// The bind file of this name has this fault. The rule is not that of memory.
    Bind(Text, BindFault),
    /// The file of this name could not be read.
    Library(Text),
    /// No memory was left.
    Memory,
}

fn load_refusal(fault: LoadFault) -> Refusal
    ensures { result ≡ load_refusal_of fault.rule fault }
{
    match fault.rule {
        LoadRule::ReadFault => Refusal::Library(fault.file),
        LoadRule::Memory => Refusal::Memory,
        LoadRule::NoFile
        | LoadRule::IncludeCycle
        | LoadRule::TooManyFiles
        | LoadRule::Lex(_)
        | LoadRule::Tree(_) => Refusal::Schema(fault),
    }
}

#[tactic(auto, using(crate::proofs::RefusalLemmas::check_refused))]
fn check_refusal(fault: CheckFault) -> Refusal
    ensures { result ≡ check_refusal_of fault.rule fault }
{
    match fault.rule {
        CheckRule::Memory => Refusal::Memory,
        _ => Refusal::Check(fault),
    }
}

/// The refusal for a schema's fault.
pub fn refusal_of(fault: SchemaFault) -> Refusal
    ensures { result ≡ refusal_of_fault fault }
{
    match fault {
        SchemaFault::Load(fault) => load_refusal(fault),
        SchemaFault::Check(fault) => check_refusal(fault),
    }
}

/// The refusal for the fault of a bind file of the name.
#[tactic(auto, using(crate::proofs::RefusalLemmas::bind_refused))]
pub fn bind_refusal(name: Text, fault: BindFault) -> Refusal
    ensures { result ≡ bind_refusal_of fault.rule name fault }
{
    match fault.rule {
        BindRule::Memory => Refusal::Memory,
        _ => Refusal::Bind(name, fault),
    }
}

fn cannot_read(alloc: Global, name: &[u8]) -> Result<Text, NoMemory>
    ensures { IfOk result (λ line. line ≡ cannot_read_line name.now) }
{
    let mut line = Text::of(alloc, b"error: cannot read ")?;
    line.extend(name)?;
    line.push(b'\n')?;
    Ok(line)
}

/// Puts a line, and answers the status that is wanted, or 7 where the sink failed.
pub fn put<S: Sink>(line: &[u8], wanted: u8, sink: &mut S) -> u8
    requires sink { wanted ≢ 7 }
    requires memory { wanted ≢ 1 }
    ensures ends { Ends line.now wanted (sunk S.contents S.faults sink.old sink.new) result }
    ensures remembers { result ≢ 1 }
{
    match sink.put(line) {
        Ok(()) => wanted,
        Err(SinkFailed) => 7,
    }
}

/// Puts a line, if there was memory for it, and answers the status that is wanted; 7 where the sink
/// failed, and 1 where memory was wanting.
pub fn put_text<S: Sink>(line: Result<Text, NoMemory>, wanted: u8, sink: &mut S) -> u8
    requires sink { wanted ≢ 7 }
    requires memory { wanted ≢ 1 }
    ensures ends { (bytes : List ℕ) → IfOk line (λ text. text ≡ bytes) → Ends bytes wanted (sunk S.contents S.faults sink.old sink.new) result }
    ensures nothing { result ≡ 1 → S.contents sink.new ≡ S.contents sink.old }
{
    match line {
        Ok(line) => put(line.as_slice(), wanted, sink),
        Err(NoMemory) => 1,
    }
}

/// Puts the line of a refusal, and answers its status: 2 for words outside the grammar, 3 for a
/// schema's fault, 4 for a bind file's, 6 for a file that could not be read; 7 exactly where the sink's count rose, and
/// then a part of the line was put; and 1 where memory is wanting, and then nothing was put.
pub fn report<S: Sink>(alloc: Global, refusal: &Refusal, sink: &mut S) -> u8
    ensures ends { Ends (refusal_output refusal.now).bytes (refusal_output refusal.now).status (sunk S.contents S.faults sink.old sink.new) result }
    ensures nothing { result ≡ 1 → S.contents sink.new ≡ S.contents sink.old }
{
    match refusal {
        Refusal::Words => put(USAGE, 2, sink),
        Refusal::Schema(fault) => put_text(load_line(alloc, fault), 3, sink),
        Refusal::Check(fault) => put_text(check_line(alloc, fault), 3, sink),
        Refusal::NoBind(name) => put_text(missing_bind(alloc, name.as_slice()), 4, sink),
        Refusal::Bind(name, fault) => put_text(bind_line(alloc, name.as_slice(), fault), 4, sink),
        Refusal::Library(name) => put_text(cannot_read(alloc, name.as_slice()), 6, sink),
        Refusal::Memory => 1,
    }
}
