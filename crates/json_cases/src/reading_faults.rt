//! Texts that are refused, with their first faults.

use crate::reading::expect_rows;
use std::test::Fail;

/// Texts and their first faults.
const SYNTAX: &str = r#" | Expected(0)
%20 | Expected(1)
{] | Expected(1)
[}{] | Expected(1)
[01] | Expected(1)
[1.5.2] | Expected(1)
[nul] | Expected(1)
[-] | Expected(1)
[1.] | Expected(1)
[1e] | Expected(1)
[nullnull] | Expected(1)
[1 2] | Expected(3)
[1,] | Expected(3)
{"a":1,} | Expected(7)
{"a" 1} | Expected(5)
{1:2} | Expected(1)
{"execute": } | Expected(12)
[1 | Expected(2)
[] [] | Expected(3)
[A] | Expected(1)
[+1] | Expected(1)
["a%09b"] | Expected(3)
["a | Expected(3)
{"a":1,"a":2} | Duplicate(7)
{"a":1,"\u0061":2} | Duplicate(7)
{'a':0,'b':0,'c':0,'d':0,'e':0,'f':0,'g':0,'h':0,'i':0,'j':0,'c':0} | Duplicate(61)
{'a':0,'b':0,'c':0,'d':0,'e':0,'f':0,'g':0,'h':0,'i':0,'j':0,'j':0} | Duplicate(61)
"#;

const STRINGS: &str = r#"["\ud800"] | BadEscape(2)
["\udc00"] | BadEscape(2)
["a\ud800\u0041"] | BadEscape(3)
["\ud800 \udc00"] | BadEscape(2)
["\x"] | BadEscape(2)
["\u12g4"] | BadEscape(2)
"\ | BadEscape(1)
"\u12 | BadEscape(1)
"\%0A" | BadEscape(1)
"\%80" | BadEscape(1)
["%80"] | BadUtf8(2)
"a%C0%80" | BadUtf8(2)
"%E0%9F%BF" | BadUtf8(1)
"%F0%8F%BF%BF" | BadUtf8(1)
"%ED%A0%80" | BadUtf8(1)
"%F4%90%80%80" | BadUtf8(1)
"%E2%82" | BadUtf8(1)
"%C3 | BadUtf8(1)
"%FF" | BadUtf8(1)
"\x%80" | BadEscape(1)
"%80\x" | BadUtf8(1)
"%80%0A" | BadUtf8(1)
{"\x":1} | BadEscape(2)
["a" "\x"] | BadEscape(6)
"#;

#[test]
fn syntax_faults_have_their_places(rt: HostRuntime) -> Result<(), Fail> {
    assert_eq!(rt; expect_rows(&rt, SYNTAX)?, 27);
    Ok(())
}

#[test]
fn faults_of_strings_have_their_places(rt: HostRuntime) -> Result<(), Fail> {
    assert_eq!(rt; expect_rows(&rt, STRINGS)?, 24);
    Ok(())
}
