//! Files that include each other, and the sources or the first fault of each.

use crate::rows::{Asked, other_answers};
use qapi_load::{FileList, LibraryFile, LoadFault, LoadRule, MemoryLibrary, Source, load_files};
use qm_base::{CallList, NoMemory, Text};
use std::alloc::Global;
use std::test::Fail;

/// Files, the main one first, with ` | ` between them; each is its name, a colon and its text.
const FILES: &str = "\
m:1 |m:{ 'struct': 'A', 'data': {} }
m:2 m:4 |m:{ 'pragma': {} }^{ 'command': 'a' }^^{ 'event': 'B' }
d/b:1 d/a:2 m:3 |m:{ 'include': 'd/a' }^^{ 'command': 'x' } | d/a:{ 'include': 'b' }^{ 'command': 'y' } | d/b:{ 'command': 'z' }
x/y/b:1 x/y/a:2 |x/y/a:{ 'include': 'b' }^{ 'command': 'y' } | x/y/b:{ 'command': 'z' }
c:1 a:2 b:2 m:3 |m:{ 'include': 'a' }^{ 'include': 'b' }^{ 'event': 'M' } | a:{ 'include': 'c' }^{ 'event': 'A' } | b:{ 'include': 'c' }^{ 'event': 'B' } | c:{ 'event': 'C' }
include-cycle d/m 2 d/m |d/m:{ 'event': 'A' }^{ 'include': 'm' }
include-cycle b 1 m |m:{ 'include': 'a' } | a:{ 'include': 'b' } | b:{ 'include': 'm' }
no-file m 2 d/a |m:^{ 'include': 'd/a' }
no-file d/a 1 d/m |m:{ 'include': 'd/a' } | d/a:{ 'include': 'm' }
syntax m 2  |m:{ 'include': 'a' }^{ | a:{ 'x' }
lex m 3  |m:{ 'include': 'a' }^^; | a:;
unknown-key m 2 x |m:{ 'include': 'a' }^{ 'event': 'A', 'x': true } | a:;
lex a 1  |m:{ 'include': 'a' }^{ 'include': 'b' } | a:'^ | b:;
";

fn word_of(rule: LoadRule) -> &'static str {
    match rule {
        LoadRule::NoFile => "no-file",
        LoadRule::IncludeCycle => "include-cycle",
        LoadRule::TooManyFiles => "too-many-files",
        LoadRule::Lex(_) => "lex",
        LoadRule::Tree(rule) => crate::parsing::word_of(rule),
        LoadRule::ReadFault => "read-fault",
        LoadRule::Memory => "memory",
    }
}

/// The file and the line of a source.
fn shown(rt: &impl AllocGlobal, source: &Source) -> Result<String, Fail> {
    let file = str::from_utf8(source.file.as_slice())?;
    Ok(format!(in rt.alloc(); "{}:{} ", file, source.expr.line)?)
}

fn all_shown(rt: &impl AllocGlobal, sources: &[Source]) -> Result<String, Fail> {
    let mut out = String::new(rt.alloc());
    for source in sources {
        out.push_str(shown(rt, source)?.as_str())?;
    }
    Ok(out)
}

fn told(rt: &impl AllocGlobal, fault: &LoadFault) -> Result<String, Fail> {
    let file = str::from_utf8(fault.file.as_slice())?;
    let name = str::from_utf8(fault.name.as_slice())?;
    let rule = word_of(fault.rule);
    Ok(format!(in rt.alloc(); "{} {} {} {} ", rule, file, fault.line, name)?)
}

/// The sources of the main file, or the first fault.
fn loaded(rt: &impl AllocGlobal, library: &mut MemoryLibrary, main: &[u8]) -> Result<String, Fail> {
    match load_files(rt.alloc(), library, main) {
        Ok(sources) => all_shown(rt, sources.as_slice()),
        Err(fault) => told(rt, &fault),
    }
}

fn file(alloc: Global, name: &[u8], text: &[u8]) -> Result<LibraryFile, NoMemory> {
    Ok(LibraryFile::new(Text::of(alloc, name)?, Text::of(alloc, text)?))
}

fn named(rt: &impl AllocGlobal, part: &str) -> Result<LibraryFile, Fail> {
    let (name, text) = part.split_once(":").unwrap_or((part, ""));
    Ok(file(rt.alloc(), name.as_bytes(), text.as_bytes())?)
}

fn files_of(rt: &impl AllocGlobal, parts: &str) -> Result<FileList, Fail> {
    let mut files = FileList::new(rt.alloc());
    for part in parts.split(" | ") {
        files.push(named(rt, part)?)?;
    }
    Ok(files)
}

fn library(rt: &impl AllocGlobal, files: FileList, failing: u64) -> Result<MemoryLibrary, Fail> {
    let mut calls = CallList::new(rt.alloc());
    calls.push(failing)?;
    Ok(MemoryLibrary::new(rt.alloc(), files, calls))
}

/// The answer for files, the main one first, where a call of the library fails.
pub fn answer(rt: &impl AllocGlobal, parts: &str, failing: u64) -> Result<String, Fail> {
    let (main, _) = parts.split_once(":").unwrap_or((parts, ""));
    let mut library = library(rt, files_of(rt, parts)?, failing)?;
    loaded(rt, &mut library, main.as_bytes())
}

#[test]
fn files_are_read_in_order(rt: HostRuntime) -> Result<(), Fail> {
    assert_eq!(rt; other_answers(&rt, Asked::Sources, FILES)?.as_str(), "");
    assert_eq!(rt; FILES.lines().count(), 13);
    let mut none = library(&rt, FileList::new(rt.alloc()), 0)?;
    assert_eq!(rt; loaded(&rt, &mut none, b"m")?.as_str(), "no-file m 0 m ");
    Ok(())
}

#[test]
fn a_failed_read_names_its_file(rt: HostRuntime) -> Result<(), Fail> {
    let files = "m:{ 'include': 'd/a' } | d/a:{ 'include': 'b' } | d/b:{ 'command': 'z' }";
    assert_eq!(rt; answer(&rt, files, 1)?.as_str(), "read-fault m 0  ");
    assert_eq!(rt; answer(&rt, files, 2)?.as_str(), "read-fault d/a 0  ");
    assert_eq!(rt; answer(&rt, files, 3)?.as_str(), "read-fault d/b 0  ");
    assert_eq!(rt; answer(&rt, files, 4)?.as_str(), "d/b:1 ");
    Ok(())
}

/// A file that includes the next.
fn link(rt: &impl AllocGlobal, number: u32) -> Result<LibraryFile, Fail> {
    let next = number.saturating_add(1);
    let part = format!(in rt.alloc(); "{number}:\n{{ 'include': '{next}' }}")?;
    named(rt, part.as_str())
}

fn end(rt: &impl AllocGlobal, number: u32) -> Result<LibraryFile, Fail> {
    let part = format!(in rt.alloc(); "{number}:{{ 'event': 'A' }}")?;
    named(rt, part.as_str())
}

/// Files 1 and so on, each of which includes the next, up to the last.
fn chain(rt: &impl AllocGlobal, last: u32) -> Result<FileList, Fail> {
    let mut files = FileList::new(rt.alloc());
    for number in 1..last {
        files.push(link(rt, number)?)?;
    }
    files.push(end(rt, last)?)?;
    Ok(files)
}

/// The answer for a chain of files, where the library is not asked a 257th time.
fn chain_answer(rt: &impl AllocGlobal, last: u32) -> Result<String, Fail> {
    let mut library = library(rt, chain(rt, last)?, 257)?;
    loaded(rt, &mut library, b"1")
}

#[test]
fn the_257th_file_is_not_asked_for(rt: HostRuntime) -> Result<(), Fail> {
    assert_eq!(rt; chain_answer(&rt, 256)?.as_str(), "256:1 ");
    let given = chain_answer(&rt, 257)?;
    assert_eq!(rt; given.as_str(), "too-many-files 256 2 257 ");
    Ok(())
}
