//! The limits of messages and of untaken lines.

use super::{Ran, file_of, halves, run_over, whole_script, words_of};
use qapi_load::FileList;
use std::alloc::{AllocError, Global};
use std::test::Fail;

/// A request of the greatest length, one that is too long, a short one, the deepest text, and one
/// that is too deep.
const GREATEST: &str = "\
open
text 1 {\"execute\":\"qmp_capabilities\"}%
text 1 {\"execute\":\"query-version\",\"id\":\"~\"}%
text 1 {\"execute\":\"query-version\",\"id\":\"~a\"}%
text 1 {\"execute\":\"query-version\"}%
text 1 [[[[[[[[[[[[[[[[[[[[[[[[[[[[[[[[[[[[[[[[[[[[[[[[[[[[[[[[[[[[[[[[[[[[[[[[[[[[[[[[[[[[[[[[[[[[[[[[[[[[[[[[[[[[[[[[[[[[[[[[[[[[[[[[]]]]]]]]]]]]]]]]]]]]]]]]]]]]]]]]]]]]]]]]]]]]]]]]]]]]]]]]]]]]]]]]]]]]]]]]]]]]]]]]]]]]]]]]]]]]]]]]]]]]]]]]]]]]]]]]]]]]]]]]]]]]]]]]%
text 1 [[[[[[[[[[[[[[[[[[[[[[[[[[[[[[[[[[[[[[[[[[[[[[[[[[[[[[[[[[[[[[[[[[[[[[[[[[[[[[[[[[[[[[[[[[[[[[[[[[[[[[[[[[[[[[[[[[[[[[[[[[[[[[[[[]]]]]]]]]]]]]]]]]]]]]]]]]]]]]]]]]]]]]]]]]]]]]]]]]]]]]]]]]]]]]]]]]]]]]]]]]]]]]]]]]]]]]]]]]]]]]]]]]]]]]]]]]]]]]]]]]]]]]]]]]]]]]]]]]%
= 0
1 open 1
2 admit 1 1 in {\"execute\": \"qmp_capabilities\"}
3 start 1 1
4 done 1 1 @0 {\"return\": {}}
5 admit 1 2 in {\"execute\": \"query-version\", \"id\": \"~\"}
6 start 1 2
7 done 1 2 @0 {\"return\": {\"qemu\": {\"micro\": 0, \"minor\": 0, \"major\": 1}, \"package\": \"qmpd\"}, \"id\": \"~\"}
8 admit 1 3 in bad too-long
9 start 1 3
10 done 1 3 @0 {\"error\": {\"class\": \"GenericError\", \"desc\": \"Invalid JSON: message is longer than 1048576 bytes\"}}
11 admit 1 4 in {\"execute\": \"query-version\"}
12 start 1 4
13 done 1 4 @0 {\"return\": {\"qemu\": {\"micro\": 0, \"minor\": 0, \"major\": 1}, \"package\": \"qmpd\"}}
14 admit 1 5 in [[[[[[[[[[[[[[[[[[[[[[[[[[[[[[[[[[[[[[[[[[[[[[[[[[[[[[[[[[[[[[[[[[[[[[[[[[[[[[[[[[[[[[[[[[[[[[[[[[[[[[[[[[[[[[[[[[[[[[[[[[[[[[[[]]]]]]]]]]]]]]]]]]]]]]]]]]]]]]]]]]]]]]]]]]]]]]]]]]]]]]]]]]]]]]]]]]]]]]]]]]]]]]]]]]]]]]]]]]]]]]]]]]]]]]]]]]]]]]]]]]]]]]]]]]]]]]]]
15 start 1 5
16 done 1 5 @0 {\"error\": {\"class\": \"GenericError\", \"desc\": \"QMP input must be a JSON object\"}}
17 admit 1 6 in bad too-deep
18 start 1 6
19 done 1 6 @0 {\"error\": {\"class\": \"GenericError\", \"desc\": \"Invalid JSON: nesting is deeper than 128\"}}
end 19
";

const START: &str = "open\ntext 1 {\"execute\":\"qmp_capabilities\"}%\n";

const ASKED: &str = "text 1 {\"execute\":\"query-version\",\"id\":\"~\"}%\n";

/// The text with as many letters for `~` as an id has in a request of the greatest length.
fn lengthened(alloc: Global, text: &str) -> Result<String, AllocError> {
    text.replace(alloc, "~", "a".repeat(alloc, 1_048_541)?.as_str())
}

fn play(alloc: Global, script: &str) -> Result<Ran, Fail> {
    let words = words_of(alloc, "replay a.script")?;
    let mut files = FileList::new(alloc);
    files.push(file_of(alloc, "a.script", script)?)?;
    Ok(run_over(alloc, words.as_slice(), files, 0, 0)?)
}

#[test]
fn the_greatest_messages(rt: HostRuntime) -> Result<(), Fail> {
    let case = whole_script(rt.alloc(), GREATEST)?;
    let (script, wanted) = halves(case.as_str(), "= 0\n");
    let wanted = lengthened(rt.alloc(), wanted)?;
    let ran = play(rt.alloc(), lengthened(rt.alloc(), script)?.as_str())?;
    assert_eq!(rt; ran.status, 0);
    assert!(rt; ran.sink.taken() == wanted.as_bytes());
    Ok(())
}

/// Each reply has 1,048,630 bytes with its CR LF, and sixteen of them with the lines before pass
/// 16,777,216 bytes.
#[test]
fn untaken_lines_overrun(rt: HostRuntime) -> Result<(), Fail> {
    let alloc = rt.alloc();
    let asked = ASKED.repeat(alloc, 16)?;
    let script = format!(in alloc; "{}{}take 1\ndrop 1 overrun\n", START, asked.as_str())?;
    let script = whole_script(alloc, script.as_str())?;
    let ran = play(alloc, lengthened(alloc, script.as_str())?.as_str())?;
    assert_eq!(rt; ran.status, 0);
    assert!(rt;
        ran.sink
            .taken()
            .ends_with(b"\"}\n54 drop 1 overrun\nend 54\n")
    );
    Ok(())
}
