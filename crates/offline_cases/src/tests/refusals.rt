//! Steps that are refused where the next refusal of the step holds too, or the journal is full.

/// A full journal, where no other refusal of the step holds; `drop` keeps its place.
pub const FULL: &str = "\
$ replay --journal 3 a.script
open
text 1 {}
admit 1
start
= 9
1 open 1
2 admit 1 1 in {}
error: script line 4: journal-full
$ replay --journal 2 a.script
open
text 1 {}
admit 1
= 9
1 open 1
error: script line 3: journal-full
$ replay --journal 2 a.script
open
take 1
= 9
1 open 1
error: script line 2: journal-full
$ replay --journal 2 a.script
open
eof 1
= 9
1 open 1
error: script line 2: journal-full
$ replay --journal 2 a.script
open
drop 1 limit
= 0
1 open 1
2 drop 1 limit
end 2
";

/// Of two refusals whose conditions hold, the first in the order of the step.
pub const NEIGHBOURS: &str = "\
$ replay --journal 8 a.script
open
text 1 {\"execute\":\"qmp_capabilities\"}%
text 1 {\"execute\":\"quit\"}%
open
= 5
1 open 1
2 admit 1 1 in {\"execute\": \"qmp_capabilities\"}
3 start 1 1
4 done 1 1 @0 {\"return\": {}}
5 admit 1 2 in {\"execute\": \"quit\"}
6 start 1 2
7 done 1 2 @0 {\"return\": {}}
error: script line 10: stopping
$ replay --journal 8 a.script
open
text 1 {\"execute\":\"qmp_capabilities\"}%
text 1 {\"execute\":\"quit\"}%
start
= 5
1 open 1
2 admit 1 1 in {\"execute\": \"qmp_capabilities\"}
3 start 1 1
4 done 1 1 @0 {\"return\": {}}
5 admit 1 2 in {\"execute\": \"quit\"}
6 start 1 2
7 done 1 2 @0 {\"return\": {}}
error: script line 10: stopping
$ replay --journal 8 a.script
open
text 1 {\"execute\":\"qmp_capabilities\"}%
text 1 {\"execute\":\"quit\"}%
text 1 {}
admit 1
= 5
1 open 1
2 admit 1 1 in {\"execute\": \"qmp_capabilities\"}
3 start 1 1
4 done 1 1 @0 {\"return\": {}}
5 admit 1 2 in {\"execute\": \"quit\"}
6 start 1 2
7 done 1 2 @0 {\"return\": {}}
error: script line 11: stopping
$ replay --journal 7 a.script
open
open
text 1 {}
text 2 {}
admit 1
admit 2
start
start
= 5
1 open 1
2 open 2
3 admit 1 1 in {}
4 admit 2 1 in {}
5 start 1 1
error: script line 8: nothing
$ replay --journal 2 a.script
open
admit 1
= 5
1 open 1
error: script line 2: no-frame
$ replay a.script
open
eof 1
admit 1
= 5
1 open 1
2 eof 1
error: script line 3: no-frame
$ replay a.script
open
drop 1 limit
admit 1
= 5
1 open 1
2 drop 1 limit
error: script line 3: closed
$ replay --journal 2 a.script
open
admit 2
= 5
1 open 1
error: script line 2: no-session
$ replay --journal 2 a.script
open
take 2
= 5
1 open 1
error: script line 2: no-session
$ replay --journal 3 a.script
open
take 1
drop 1 limit
take 1
= 5
1 open 1
2 take 1 1
> {\"QMP\": {\"version\": {\"qemu\": {\"micro\": 0, \"minor\": 0, \"major\": 1}, \"package\": \"qmpd\"}, \"capabilities\": [\"oob\"]}}
3 drop 1 limit
error: script line 4: closed
$ replay --journal 2 a.script
open
eof 2
= 5
1 open 1
error: script line 2: no-session
$ replay --journal 3 a.script
open
eof 1
drop 1 limit
eof 1
= 5
1 open 1
2 eof 1
3 drop 1 limit
error: script line 4: closed
$ replay --journal 2 a.script
open
oob 2 0
= 5
1 open 1
error: script line 2: no-session
$ replay --journal 2 a.script
open
drop 1 limit
oob 1 0
= 5
1 open 1
2 drop 1 limit
error: script line 3: closed
$ replay a.script
open
drop 1 limit
drop 1 ended
= 5
1 open 1
2 drop 1 limit
error: script line 3: closed
$ replay --journal 1 a.script
text 1 {}
= 5
error: script line 1: no-session
$ replay --journal 1 a.script
feed 1 7b
= 5
error: script line 1: no-session
";
