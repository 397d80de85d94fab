use qapi_load::{FileList, LibraryFile, MemoryLibrary};
use qm_base::{CallList, NoMemory, Text};
use qm_link::MemorySink;
use qm_offline::run_offline;
use std::alloc::{AllocError, Global};
use std::test::Fail;

mod bound;
mod conditions;
mod grammar;
mod lengths;
mod lines;
mod name_rules;
mod refusals;
mod runs;
mod schemas;
mod served;
mod several;
mod steps;
mod type_rules;
mod urgent;

/// What is put for words that are outside the grammar.
const USAGE: &str =
    "error: usage: qmpd check|introspect|replay SCRIPT|serve SOCKET|drill N [--schema F] [--bind F] [--define A,B] [--journal N] [--workers N]\n";

/// What a run answers: its status and what was put.
#[derive(Drop)]
struct Ran {
    status: u8,
    sink: MemorySink,
}

/// The call of this number, from 1 on, or none.
fn calls(alloc: Global, call: u64) -> Result<CallList, NoMemory> {
    let mut calls = CallList::new(alloc);
    if call > 0 {
        calls.push(call)?;
    }
    Ok(calls)
}

/// The words of a line, of which `''` is the empty word.
fn words_of(alloc: Global, line: &str) -> Result<Vec<String>, AllocError> {
    let mut words = Vec::new(alloc);
    for word in line.split_whitespace() {
        let word = if word == "''" { "" } else { word };
        words.push(String::from_str(alloc, word)?)?;
    }
    Ok(words)
}

fn file_of(alloc: Global, name: &str, text: &str) -> Result<LibraryFile, NoMemory> {
    Ok(LibraryFile::new(
        Text::of(alloc, name.as_bytes())?,
        Text::of(alloc, text.as_bytes())?,
    ))
}

/// The files of a text, between which a line `@` stands: the first line is a file's name.
fn files_of(alloc: Global, text: &str) -> Result<FileList, NoMemory> {
    let mut files = FileList::new(alloc);
    for file in text.split("@\n") {
        if let Some((name, text)) = file.split_once("\n") {
            files.push(file_of(alloc, name, text)?)?;
        }
    }
    Ok(files)
}

/// Runs words over a library of these files. The calls of these numbers fail.
fn run_over(
    alloc: Global,
    words: &[String],
    files: FileList,
    library_call: u64,
    sink_call: u64,
) -> Result<Ran, NoMemory> {
    let mut library = MemoryLibrary::new(alloc, files, calls(alloc, library_call)?);
    let mut sink = MemorySink::new(alloc, calls(alloc, sink_call)?);
    let status = run_offline(alloc, words, &mut library, &mut sink);
    Ok(Ran { status, sink })
}

/// The status of such a run, a line feed, and what it puts.
fn run(
    alloc: Global,
    words: &str,
    files: &str,
    library_call: u64,
    sink_call: u64,
) -> Result<String, Fail> {
    let words = words_of(alloc, words)?;
    let files = files_of(alloc, files)?;
    let ran = run_over(alloc, words.as_slice(), files, library_call, sink_call)?;
    let put = str::from_utf8(ran.sink.taken())?;
    Ok(format!(in alloc; "{}\n{}", ran.status, put)?)
}

/// A script, in which `%` stands for the steps that answer a request, and `;` between the bytes that
/// are fed one by one.
fn whole_script(alloc: Global, text: &str) -> Result<String, AllocError> {
    let text = text.replace(alloc, "%", "\nadmit 1\nstart\nfinish 0")?;
    text.as_str().replace(alloc, ";", "\nfeed 1 ")
}

/// The parts of a text before and behind the first place of a mark.
fn halves<'a>(text: &'a str, mark: &str) -> (&'a str, &'a str) {
    text.split_once(mark).unwrap_or((text, ""))
}

/// What a case tells of itself where it is answered otherwise. It has words in its first line, then
/// what stands behind the files, `= `, the status, and what is put.
fn other_answer(alloc: Global, files: &str, case: &str) -> Result<String, Fail> {
    let (words, rest) = halves(case, "\n");
    let (script, wanted) = halves(rest, "= ");
    let files = format!(in alloc; "{}{}", files, script)?;
    let given = run(alloc, words, files.as_str(), 0, 0)?;
    if given.as_str() == wanted {
        return Ok(String::new(alloc));
    }
    Ok(format!(in alloc; "{} gives {}", case, given.as_str())?)
}

/// What the cases that are answered otherwise tell, each of which begins with `$ `.
fn other_answers(alloc: Global, files: &str, cases: &str) -> Result<String, Fail> {
    let cases = whole_script(alloc, cases)?;
    let mut others = String::new(alloc);
    for case in cases.as_str().split("$ ").skip(1) {
        others.push_str(other_answer(alloc, files, case)?.as_str())?;
    }
    Ok(others)
}

#[test]
fn each_run_ends_as_wanted(rt: HostRuntime) -> Result<(), Fail> {
    let alloc = rt.alloc();
    assert_eq!(rt;
        other_answers(alloc, "a.script\n", runs::STARTS)?.as_str(),
        ""
    );
    assert_eq!(rt;
        other_answers(alloc, "a.script\n", runs::REPLIES)?.as_str(),
        ""
    );
    assert_eq!(rt;
        other_answers(alloc, "a.script\n", runs::STOPS)?.as_str(),
        ""
    );
    let other = other_answers(alloc, "a.script\n", "$ replay a.script\n= 0\n")?;
    assert_eq!(rt; other.as_str(), "replay a.script\n= 0\n gives 0\nend 0\n");
    Ok(())
}

#[test]
fn a_library_or_sink_that_fails(rt: HostRuntime) -> Result<(), Fail> {
    let (words, files) = ("replay a.script", "a.script\nopen\n");
    let unread = run(rt.alloc(), words, files, 1, 0)?;
    assert_eq!(rt; unread.as_str(), "6\nerror: cannot read a.script\n");
    assert_eq!(rt; run(rt.alloc(), words, files, 0, 1)?.as_str(), "7\n");
    assert_eq!(rt;
        run(rt.alloc(), words, files, 0, 2)?.as_str(),
        "7\n1 open 1\n"
    );
    Ok(())
}

#[test]
fn words_in_the_grammar_and_outside(rt: HostRuntime) -> Result<(), Fail> {
    for words in grammar::LAWFUL.lines() {
        let given = run(rt.alloc(), words, "a.script\n", 0, 0)?;
        assert_eq!(rt; given.as_str(), "0\nend 0\n", "{words}");
    }
    for words in grammar::OUTSIDE.lines() {
        let given = run(rt.alloc(), words, "a.script\n", 0, 0)?;
        assert!(rt;
            given.as_str().strip_prefix("2\n") == Some(USAGE),
            "{words}"
        );
    }
    Ok(())
}

#[test]
fn runs_over_a_schema(rt: HostRuntime) -> Result<(), Fail> {
    let alloc = rt.alloc();
    assert_eq!(rt;
        other_answers(alloc, served::FILES, served::PLAYED)?.as_str(),
        ""
    );
    assert_eq!(rt;
        other_answers(alloc, served::FILES, served::REFUSED)?.as_str(),
        ""
    );
    let words = "replay --schema s1.json a.script";
    let unread = run(alloc, words, served::FILES, 1, 0)?;
    assert_eq!(rt; unread.as_str(), "6\nerror: cannot read s1.json\n");
    let unread = run(alloc, words, served::FILES, 2, 0)?;
    assert_eq!(rt; unread.as_str(), "6\nerror: cannot read a.script\n");
    Ok(())
}

#[test]
fn runs_over_a_bind_file(rt: HostRuntime) -> Result<(), Fail> {
    let alloc = rt.alloc();
    let files = format!(in alloc; "{}{}", bound::FILES, served::FILES)?;
    assert_eq!(rt;
        other_answers(alloc, files.as_str(), bound::PLAYED)?.as_str(),
        ""
    );
    assert_eq!(rt;
        other_answers(alloc, files.as_str(), bound::REFUSED)?.as_str(),
        ""
    );
    let words = "replay --schema s1.json --bind b1.json a.script";
    let unread = run(alloc, words, files.as_str(), 2, 0)?;
    assert_eq!(rt; unread.as_str(), "6\nerror: cannot read b1.json\n");
    Ok(())
}

#[test]
fn runs_with_several_sessions(rt: HostRuntime) -> Result<(), Fail> {
    let alloc = rt.alloc();
    let files = format!(in alloc; "{}{}", bound::FILES, served::FILES)?;
    for cases in [
        urgent::PLAYED,
        several::TURNS,
        several::ENDS,
        several::QUITS,
        steps::OUT_OF_BAND,
        steps::ORDER,
        refusals::FULL,
        refusals::NEIGHBOURS,
    ] {
        assert_eq!(rt; other_answers(alloc, files.as_str(), cases)?.as_str(), "");
    }
    Ok(())
}

#[test]
fn what_is_told_of_a_schema(rt: HostRuntime) -> Result<(), Fail> {
    let told = run(rt.alloc(), "introspect", "", 0, 0)?;
    assert!(rt; told.as_str().starts_with(served::TOLD));
    assert!(rt; told.as_str().ends_with("}]\n"));
    assert_eq!(rt; told.as_str().lines().count(), 2);
    Ok(())
}
