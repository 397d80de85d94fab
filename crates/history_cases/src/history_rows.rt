//! Texts of whole histories, and texts with a line that cannot stand.

use qm_base::{CallList, Text};
use qm_core::EntryList;
use qm_history::{EntryWordList, HistoryRefusal, read_history, write_history};
use qm_link::MemorySink;
use std::alloc::Global;
use std::test::Fail;

/// A request out of band overtakes eight that wait.
const URGENT_OVERTAKES_EIGHT: &str = r#"1 open 1
2 admit 1 1 in {"execute": "qmp_capabilities", "arguments": {"enable": ["oob"]}}
3 start 1 1
4 done 1 1 @0 {"return": {}}
5 admit 1 2 in {"execute": "get", "id": 1}
6 admit 1 3 in {"execute": "get", "id": 2}
7 admit 1 4 in {"execute": "get", "id": 3}
8 admit 1 5 in {"execute": "get", "id": 4}
9 admit 1 6 in {"execute": "get", "id": 5}
10 admit 1 7 in {"execute": "get", "id": 6}
11 admit 1 8 in {"execute": "get", "id": 7}
12 admit 1 9 in {"execute": "get", "id": 8}
13 admit 1 10 oob {"exec-oob": "ping", "id": 9}
14 oob-done 1 10 @3 {"return": 0, "id": 9}
15 take 1 3
> {"QMP": {"version": {"qemu": {"micro": 0, "minor": 0, "major": 1}, "package": "qmpd"}, "capabilities": ["oob"]}}
> {"return": {}}
> {"return": 0, "id": 9}
"#;

/// Each kind of entry, each fault and each cause.
const EVERY_KIND: &str = r#"1 open 1
2 admit 1 1 in bad lex-error
3 admit 1 2 in bad unbalanced
4 admit 1 3 in bad too-deep
5 admit 1 4 in bad too-long
6 admit 1 5 in bad expected 0
7 admit 1 6 in bad duplicate 1
8 admit 1 7 in bad bad-escape 1048575
9 admit 1 8 in bad bad-utf8 18446744073709551615
10 admit 1 9 in [null, true, -1, 1.50, "\u00E9 > \n"]
11 admit 1 10 oob {}
12 start 4294967295 18446744073709551615
13 done 1 1 @18446744073709551615 {"return": {"a": []}}
14 oob-done 1 10 @0 "a"
15 take 1 0
16 take 1 2
> 
> > end 16
17 eof 1
18 drop 1 ended
19 drop 2 read-fault
20 drop 3 write-fault
21 drop 4 overrun
22 drop 5 stopped
23 drop 6 limit
24 drop 7 memory
25 drop 8 halted
"#;

/// Texts, and the number of the first line that cannot stand.
const REFUSED: [(&str, u32); 33] = [
    // A line that is wanting, or lacks its LF.
    ("", 1),
    ("end 0", 1),
    ("1 open 1\n", 2),
    ("1 open 1\nend 1", 2),
    ("1 take 1 2\n> a\n", 3),
    // Text after the end.
    ("end 0\n\n", 2),
    ("end 0\nend 0", 2),
    ("1 open 1\nend 1\n2 eof 1\n", 3),
    // Numbers.
    ("2 open 1\nend 1\n", 1),
    ("1 open 1\n1 eof 1\nend 2\n", 2),
    ("1 open 1\nend 2\n", 2),
    ("1 open 01\nend 1\n", 1),
    ("01 open 1\nend 1\n", 1),
    ("1 open 4294967296\nend 1\n", 1),
    ("1 start 1 18446744073709551616\nend 1\n", 1),
    ("1 done 1 1 3 {}\nend 1\n", 1),
    // Words.
    ("1 opens 1\nend 1\n", 1),
    ("1 open 1 \nend 1\n", 1),
    ("1  open 1\nend 1\n", 1),
    ("1 open 1\r\nend 1\n", 1),
    ("1 drop 1 tired\nend 1\n", 1),
    ("1 admit 1 1 out {}\nend 1\n", 1),
    // Values, and what came in place of one.
    ("1 admit 1 1 in {\"a\":1}\nend 1\n", 1),
    ("1 admit 1 1 in {\"a\": 1, \"a\": 1}\nend 1\n", 1),
    ("1 admit 1 1 in \nend 1\n", 1),
    ("1 done 1 1 @3 {\"return\": 0} \nend 1\n", 1),
    ("1 oob-done 1 1 @3 [1.50, -0]\nend 1\n", 1),
    ("1 admit 1 1 in bad expected\nend 1\n", 1),
    ("1 admit 1 1 in bad lex-error 3\nend 1\n", 1),
    ("1 admit 1 1 oob bad too-deep\nend 1\n", 1),
    // Lines that were handed out.
    ("1 take 1 2\n> a\n2 eof 1\nend 2\n", 3),
    ("1 take 1 1\n>a\nend 1\n", 2),
    ("1 take 1 1\n> a\n> b\nend 1\n", 3),
];

fn whole(alloc: Global, text: &[u8], end: &str) -> Result<Text, Fail> {
    let mut whole = Text::of(alloc, text)?;
    whole.extend(end.as_bytes())?;
    Ok(whole)
}

/// The entries as a journal holds them.
fn journal_of(alloc: Global, entries: EntryWordList) -> Result<EntryList, Fail> {
    let places = entries.len();
    let mut journal = EntryList::new(alloc, places)?;
    for entry in entries.into_vec() {
        if journal.len() < places {
            journal.put(entry);
        }
    }
    Ok(journal)
}

/// Reads a history, and writes what was read.
fn there_and_back(
    alloc: Global,
    text: &[u8],
    end: &str,
    sink: &mut MemorySink,
) -> Result<bool, Fail> {
    let whole = whole(alloc, text, end)?;
    match read_history(alloc, whole.as_slice()) {
        Ok(entries) => {
            let journal = journal_of(alloc, entries)?;
            Ok(write_history(alloc, &journal, sink) == Ok(()))
        }
        Err(_) => Ok(false),
    }
}

#[test]
fn urgent_overtakes_eight(rt: HostRuntime) -> Result<(), Fail> {
    let mut sink = MemorySink::new(rt.alloc(), CallList::new(rt.alloc()));
    let read = there_and_back(
        rt.alloc(),
        URGENT_OVERTAKES_EIGHT.as_bytes(),
        "end 15\n",
        &mut sink,
    )?;
    assert!(rt; read);
    assert_eq!(rt; sink.taken(), URGENT_OVERTAKES_EIGHT.as_bytes());
    Ok(())
}

#[test]
fn every_kind_is_read(rt: HostRuntime) -> Result<(), Fail> {
    let mut sink = MemorySink::new(rt.alloc(), CallList::new(rt.alloc()));
    let read = there_and_back(rt.alloc(), EVERY_KIND.as_bytes(), "end 25\n", &mut sink)?;
    assert!(rt; read);
    assert_eq!(rt; sink.taken(), EVERY_KIND.as_bytes());
    Ok(())
}

/// A reply that is nested so deep.
fn deep(alloc: Global, depth: usize) -> Result<Text, Fail> {
    let mut text = Text::of(alloc, b"1 done 1 1 @0 ")?;
    for _ in 0..depth {
        text.push(b'[')?;
    }
    for _ in 0..depth {
        text.push(b']')?;
    }
    text.push(b'\n')?;
    Ok(text)
}

#[test]
fn a_deep_reply_is_read(rt: HostRuntime) -> Result<(), Fail> {
    let text = deep(rt.alloc(), 200)?;
    let mut sink = MemorySink::new(rt.alloc(), CallList::new(rt.alloc()));
    let read = there_and_back(rt.alloc(), text.as_slice(), "end 1\n", &mut sink)?;
    assert!(rt; read);
    assert_eq!(rt; sink.taken(), text.as_slice());
    Ok(())
}

#[test]
fn no_entries_are_read(rt: HostRuntime) -> Result<(), Fail> {
    match read_history(rt.alloc(), b"end 0\n") {
        Ok(entries) => assert_eq!(rt; entries.len(), 0),
        Err(_) => assert!(rt; false),
    }
    Ok(())
}

#[test]
fn the_first_line_that_cannot_stand(rt: HostRuntime) -> Result<(), Fail> {
    for (text, line) in &REFUSED {
        match read_history(rt.alloc(), text.as_bytes()) {
            Ok(_) => assert!(rt; false),
            Err(refusal) => assert!(rt; refusal == HistoryRefusal::Line(*line)),
        }
    }
    Ok(())
}
