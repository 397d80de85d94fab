//! Runs of scripts, each with its status and its transcript.

/// The ordinary start, whole and byte by byte; empty input; and an empty script.
pub const STARTS: &str = "\
$ replay a.script
open
text 1 {\"execute\":\"qmp_capabilities\"}%
text 1 {\"execute\":\"query-version\",\"id\":7}
admit 1
start
finish 5
take 1
eof 1
drop 1 ended
= 0
1 open 1
2 admit 1 1 in {\"execute\": \"qmp_capabilities\"}
3 start 1 1
4 done 1 1 @0 {\"return\": {}}
5 admit 1 2 in {\"execute\": \"query-version\", \"id\": 7}
6 start 1 2
7 done 1 2 @5 {\"return\": {\"qemu\": {\"micro\": 0, \"minor\": 0, \"major\": 1}, \"package\": \"qmpd\"}, \"id\": 7}
8 take 1 3
> {\"QMP\": {\"version\": {\"qemu\": {\"micro\": 0, \"minor\": 0, \"major\": 1}, \"package\": \"qmpd\"}, \"capabilities\": [\"oob\"]}}
> {\"return\": {}}
> {\"return\": {\"qemu\": {\"micro\": 0, \"minor\": 0, \"major\": 1}, \"package\": \"qmpd\"}, \"id\": 7}
9 eof 1
10 drop 1 ended
end 10
$ replay a.script
open
feed 1 7b;22;65;78;65;63;75;74;65;22;3a;22;71;6d;70;5f;63;61;70;61;62;69;6c;69;74;69;65;73;22;7d;0a%
feed 1 7b;22;65;78;65;63;75;74;65;22;3a;22;71;75;65;72;79;2d;76;65;72;73;69;6f;6e;22;2c;22;69;64;22;3a;37;7d;0a
admit 1
start
finish 5
take 1
eof 1
drop 1 ended
= 0
1 open 1
2 admit 1 1 in {\"execute\": \"qmp_capabilities\"}
3 start 1 1
4 done 1 1 @0 {\"return\": {}}
5 admit 1 2 in {\"execute\": \"query-version\", \"id\": 7}
6 start 1 2
7 done 1 2 @5 {\"return\": {\"qemu\": {\"micro\": 0, \"minor\": 0, \"major\": 1}, \"package\": \"qmpd\"}, \"id\": 7}
8 take 1 3
> {\"QMP\": {\"version\": {\"qemu\": {\"micro\": 0, \"minor\": 0, \"major\": 1}, \"package\": \"qmpd\"}, \"capabilities\": [\"oob\"]}}
> {\"return\": {}}
> {\"return\": {\"qemu\": {\"micro\": 0, \"minor\": 0, \"major\": 1}, \"package\": \"qmpd\"}, \"id\": 7}
9 eof 1
10 drop 1 ended
end 10
$ replay a.script
open
take 1
eof 1
drop 1 ended= 0
1 open 1
2 take 1 1
> {\"QMP\": {\"version\": {\"qemu\": {\"micro\": 0, \"minor\": 0, \"major\": 1}, \"package\": \"qmpd\"}, \"capabilities\": [\"oob\"]}}
3 eof 1
4 drop 1 ended
end 4
$ replay a.script
= 0
end 0
";

/// A syntax error has its place; reading resumes after a lexical error, which a line feed in a string
/// is too; negotiation comes first and once; and each verdict has its reply.
pub const REPLIES: &str = "\
$ replay a.script
open
text 1 {\"execute\": }%
= 0
1 open 1
2 admit 1 1 in bad expected 12
3 start 1 1
4 done 1 1 @0 {\"error\": {\"class\": \"GenericError\", \"desc\": \"Invalid JSON: syntax error at byte 12\"}}
end 4
$ replay a.script
open
feed 1 7b202265786563ff
text 1 {\"execute\":\"qmp_capabilities\"}%%
text 1 {
admit 1
= 5
1 open 1
2 admit 1 1 in bad lex-error
3 start 1 1
4 done 1 1 @0 {\"error\": {\"class\": \"GenericError\", \"desc\": \"Invalid JSON: lexical error\"}}
5 admit 1 2 in {\"execute\": \"qmp_capabilities\"}
6 start 1 2
7 done 1 2 @0 {\"return\": {}}
error: script line 11: no-frame
$ replay a.script
open
text 1 {\"exec
text 1 {\"execute\":\"qmp_capabilities\"}%%
= 0
1 open 1
2 admit 1 1 in bad lex-error
3 start 1 1
4 done 1 1 @0 {\"error\": {\"class\": \"GenericError\", \"desc\": \"Invalid JSON: lexical error\"}}
5 admit 1 2 in {\"execute\": \"qmp_capabilities\"}
6 start 1 2
7 done 1 2 @0 {\"return\": {}}
end 7
$ replay a.script
open
text 1 {\"execute\":\"query-version\"}%
text 1 {\"execute\":\"qmp_capabilities\"}%
text 1 {\"execute\":\"qmp_capabilities\"}%
= 0
1 open 1
2 admit 1 1 in {\"execute\": \"query-version\"}
3 start 1 1
4 done 1 1 @0 {\"error\": {\"class\": \"CommandNotFound\", \"desc\": \"Expecting capabilities negotiation with 'qmp_capabilities'\"}}
5 admit 1 2 in {\"execute\": \"qmp_capabilities\"}
6 start 1 2
7 done 1 2 @0 {\"return\": {}}
8 admit 1 3 in {\"execute\": \"qmp_capabilities\"}
9 start 1 3
10 done 1 3 @0 {\"error\": {\"class\": \"CommandNotFound\", \"desc\": \"Capabilities negotiation is already complete, command ignored\"}}
end 10
$ replay a.script
open
text 1 {\"execute\":\"qmp_capabilities\"}%
feed 1 ff%
text 1 [[[[[[[[[[[[[[[[[[[[[[[[[[[[[[[[[[[[[[[[[[[[[[[[[[[[[[[[[[[[[[[[[[[[[[[[[[[[[[[[[[[[[[[[[[[[[[[[[[[[[[[[[[[[[[[[[[[[[[[[[[[[[[[[[%
text 1 {\"execute\": }%
feed 1 7d%
text 1 {\"a\":1,\"a\":2}%
text 1 {\"a\":\"\\x\"}%
feed 1 7b2261223a22c328227d%
text 1 [1]%
text 1 {\"execute\":7,\"more\":null}%
text 1 {\"exec-oob\":\"query-version\",\"id\":1}%
text 1 {\"id\":[]}%
text 1 {\"execute\":7}%
text 1 {\"execute\":\"query-version\",\"arguments\":[]}%
text 1 {\"execute\":\"qmp_capabilities\"}%
text 1 {\"execute\":\"query-version\",\"arguments\":{\"x\":1}}%
text 1 {\"execute\":\"nope\",\"id\":{\"a\":[1.50]}}%
text 1 {\"execute\":\"nope\",\"id\":1.50}%
text 1 {\"execute\":\"nope\",\"id\":-0}%
text 1 {\"execute\":\"nope\",\"id\":\"é\"}%
text 1 {\"execute\":\"nope\"}%
= 0
1 open 1
2 admit 1 1 in {\"execute\": \"qmp_capabilities\"}
3 start 1 1
4 done 1 1 @0 {\"return\": {}}
5 admit 1 2 in bad lex-error
6 start 1 2
7 done 1 2 @0 {\"error\": {\"class\": \"GenericError\", \"desc\": \"Invalid JSON: lexical error\"}}
8 admit 1 3 in bad too-deep
9 start 1 3
10 done 1 3 @0 {\"error\": {\"class\": \"GenericError\", \"desc\": \"Invalid JSON: nesting is deeper than 128\"}}
11 admit 1 4 in bad expected 12
12 start 1 4
13 done 1 4 @0 {\"error\": {\"class\": \"GenericError\", \"desc\": \"Invalid JSON: syntax error at byte 12\"}}
14 admit 1 5 in bad unbalanced
15 start 1 5
16 done 1 5 @0 {\"error\": {\"class\": \"GenericError\", \"desc\": \"Invalid JSON: unbalanced bracket\"}}
17 admit 1 6 in bad duplicate 7
18 start 1 6
19 done 1 6 @0 {\"error\": {\"class\": \"GenericError\", \"desc\": \"Invalid JSON: duplicate member at byte 7\"}}
20 admit 1 7 in bad bad-escape 6
21 start 1 7
22 done 1 7 @0 {\"error\": {\"class\": \"GenericError\", \"desc\": \"Invalid JSON: bad escape at byte 6\"}}
23 admit 1 8 in bad bad-utf8 6
24 start 1 8
25 done 1 8 @0 {\"error\": {\"class\": \"GenericError\", \"desc\": \"Invalid JSON: bad UTF-8 at byte 6\"}}
26 admit 1 9 in [1]
27 start 1 9
28 done 1 9 @0 {\"error\": {\"class\": \"GenericError\", \"desc\": \"QMP input must be a JSON object\"}}
29 admit 1 10 in {\"execute\": 7, \"more\": null}
30 start 1 10
31 done 1 10 @0 {\"error\": {\"class\": \"GenericError\", \"desc\": \"QMP input member 'more' is unexpected\"}}
32 admit 1 11 in {\"exec-oob\": \"query-version\", \"id\": 1}
33 start 1 11
34 done 1 11 @0 {\"error\": {\"class\": \"GenericError\", \"desc\": \"QMP input member 'exec-oob' is unexpected\"}, \"id\": 1}
35 admit 1 12 in {\"id\": []}
36 start 1 12
37 done 1 12 @0 {\"error\": {\"class\": \"GenericError\", \"desc\": \"QMP input lacks member 'execute'\"}, \"id\": []}
38 admit 1 13 in {\"execute\": 7}
39 start 1 13
40 done 1 13 @0 {\"error\": {\"class\": \"GenericError\", \"desc\": \"QMP input member 'execute' must be a string\"}}
41 admit 1 14 in {\"execute\": \"query-version\", \"arguments\": []}
42 start 1 14
43 done 1 14 @0 {\"error\": {\"class\": \"GenericError\", \"desc\": \"QMP input member 'arguments' must be an object\"}}
44 admit 1 15 in {\"execute\": \"qmp_capabilities\"}
45 start 1 15
46 done 1 15 @0 {\"error\": {\"class\": \"CommandNotFound\", \"desc\": \"Capabilities negotiation is already complete, command ignored\"}}
47 admit 1 16 in {\"execute\": \"query-version\", \"arguments\": {\"x\": 1}}
48 start 1 16
49 done 1 16 @0 {\"error\": {\"class\": \"GenericError\", \"desc\": \"Parameter 'x' is unexpected\"}}
50 admit 1 17 in {\"execute\": \"nope\", \"id\": {\"a\": [1.50]}}
51 start 1 17
52 done 1 17 @0 {\"error\": {\"class\": \"CommandNotFound\", \"desc\": \"The command nope has not been found\"}, \"id\": {\"a\": [1.50]}}
53 admit 1 18 in {\"execute\": \"nope\", \"id\": 1.50}
54 start 1 18
55 done 1 18 @0 {\"error\": {\"class\": \"CommandNotFound\", \"desc\": \"The command nope has not been found\"}, \"id\": 1.50}
56 admit 1 19 in {\"execute\": \"nope\", \"id\": 0}
57 start 1 19
58 done 1 19 @0 {\"error\": {\"class\": \"CommandNotFound\", \"desc\": \"The command nope has not been found\"}, \"id\": 0}
59 admit 1 20 in {\"execute\": \"nope\", \"id\": \"\\u00E9\"}
60 start 1 20
61 done 1 20 @0 {\"error\": {\"class\": \"CommandNotFound\", \"desc\": \"The command nope has not been found\"}, \"id\": \"\\u00E9\"}
62 admit 1 21 in {\"execute\": \"nope\"}
63 start 1 21
64 done 1 21 @0 {\"error\": {\"class\": \"CommandNotFound\", \"desc\": \"The command nope has not been found\"}}
end 64
";

/// A full journal; scripts that are not there; lines that order nothing, and lines that are none; and
/// refused steps.
pub const STOPS: &str = "\
$ replay --journal 4 a.script
open
text 1 {\"execute\":\"qmp_capabilities\"}%
= 9
1 open 1
2 admit 1 1 in {\"execute\": \"qmp_capabilities\"}
3 start 1 1
error: script line 5: journal-full
$ replay a.script --journal 0000004
open
text 1 {\"execute\":\"qmp_capabilities\"}%
= 9
1 open 1
2 admit 1 1 in {\"execute\": \"qmp_capabilities\"}
3 start 1 1
error: script line 5: journal-full
$ replay --journal 1 a.script
open
text 1 {\"execute\":\"qmp_capabilities\"}%
= 9
error: script line 1: journal-full
$ replay b.script
= 5
error: script b.script: no-file
$ replay a.script
# a comment

open
#

text 1 \n\
= 0
1 open 1
end 1
$ replay a.script
open
open
= 0
1 open 1
2 open 2
end 2
$ replay a.script
open
feed 1 7B
= 5
1 open 1
error: script line 2: bad-line
$ replay a.script
take 1
= 5
error: script line 1: no-session
$ replay a.script
open
admit 1
= 5
1 open 1
error: script line 2: no-frame
$ replay a.script
open
start
= 5
1 open 1
error: script line 2: nothing
$ replay a.script
open
finish 0
= 5
1 open 1
error: script line 2: not-running
$ replay a.script
open
drop 1 ended
= 5
1 open 1
error: script line 2: not-drained
$ replay a.script
open
drop 1 stopped
= 5
1 open 1
error: script line 2: wrong-cause
$ replay a.script
open
eof 1
eof 1
= 5
1 open 1
2 eof 1
error: script line 3: input-ended
$ replay a.script
open
drop 1 limit
text 1 {}
= 5
1 open 1
2 drop 1 limit
error: script line 3: closed
$ replay -- -a
= 5
error: script -a: no-file
";
