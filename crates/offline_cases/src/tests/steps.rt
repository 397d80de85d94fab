//! Steps that are refused where a second condition holds too.

/// Refusals of the out-of-band lane, with a second condition that holds too.
pub const OUT_OF_BAND: &str = "\
$ replay --schema s1.json --bind b1.json a.script
oob 1 0
= 5
error: script line 1: no-session
$ replay --schema s1.json --bind b1.json a.script
open
text 1 {\"execute\":\"qmp_capabilities\",\"arguments\":{\"enable\":[\"oob\"]}}%
oob 1 0
= 5
1 open 1
2 admit 1 1 in {\"execute\": \"qmp_capabilities\", \"arguments\": {\"enable\": [\"oob\"]}}
3 start 1 1
4 done 1 1 @0 {\"return\": {}}
error: script line 6: not-open
$ replay --schema s1.json --bind b1.json a.script
open
text 1 {\"execute\":\"qmp_capabilities\",\"arguments\":{\"enable\":[\"oob\"]}}%
text 1 {\"exec-oob\":\"ping\"}
admit 1
drop 1 limit
oob 1 0
= 5
1 open 1
2 admit 1 1 in {\"execute\": \"qmp_capabilities\", \"arguments\": {\"enable\": [\"oob\"]}}
3 start 1 1
4 done 1 1 @0 {\"return\": {}}
5 admit 1 2 oob {\"exec-oob\": \"ping\"}
6 drop 1 limit
error: script line 9: closed
$ replay --schema s1.json --bind b1.json a.script
open
text 1 {\"execute\":\"qmp_capabilities\",\"arguments\":{\"enable\":[\"oob\"]}}%
text 1 {\"exec-oob\":\"ping\"}
admit 1
text 1 {\"execute\":\"get\"}
admit 1
= 5
1 open 1
2 admit 1 1 in {\"execute\": \"qmp_capabilities\", \"arguments\": {\"enable\": [\"oob\"]}}
3 start 1 1
4 done 1 1 @0 {\"return\": {}}
5 admit 1 2 oob {\"exec-oob\": \"ping\"}
error: script line 9: oob-open
$ replay --schema s1.json --bind b1.json a.script
open
text 1 {\"execute\":\"qmp_capabilities\",\"arguments\":{\"enable\":[\"oob\"]}}%
text 1 {\"exec-oob\":\"ping\"}
admit 1
eof 1
text 1 {\"execute\":\"get\"}
admit 1
= 5
1 open 1
2 admit 1 1 in {\"execute\": \"qmp_capabilities\", \"arguments\": {\"enable\": [\"oob\"]}}
3 start 1 1
4 done 1 1 @0 {\"return\": {}}
5 admit 1 2 oob {\"exec-oob\": \"ping\"}
6 eof 1
error: script line 10: input-ended
$ replay --schema s1.json --bind b1.json a.script
open
text 1 {\"execute\":\"qmp_capabilities\",\"arguments\":{\"enable\":[\"oob\"]}}%
text 1 {\"execute\":\"get\",\"id\":1}
admit 1
text 1 {\"execute\":\"get\",\"id\":2}
admit 1
text 1 {\"execute\":\"get\",\"id\":3}
admit 1
text 1 {\"execute\":\"get\",\"id\":4}
admit 1
text 1 {\"execute\":\"get\",\"id\":5}
admit 1
text 1 {\"execute\":\"get\",\"id\":6}
admit 1
text 1 {\"execute\":\"get\",\"id\":7}
admit 1
text 1 {\"execute\":\"get\",\"id\":8}
admit 1
text 1 {\"exec-oob\":\"ping\"}
admit 1
text 1 {\"execute\":\"get\"}
admit 1
= 5
1 open 1
2 admit 1 1 in {\"execute\": \"qmp_capabilities\", \"arguments\": {\"enable\": [\"oob\"]}}
3 start 1 1
4 done 1 1 @0 {\"return\": {}}
5 admit 1 2 in {\"execute\": \"get\", \"id\": 1}
6 admit 1 3 in {\"execute\": \"get\", \"id\": 2}
7 admit 1 4 in {\"execute\": \"get\", \"id\": 3}
8 admit 1 5 in {\"execute\": \"get\", \"id\": 4}
9 admit 1 6 in {\"execute\": \"get\", \"id\": 5}
10 admit 1 7 in {\"execute\": \"get\", \"id\": 6}
11 admit 1 8 in {\"execute\": \"get\", \"id\": 7}
12 admit 1 9 in {\"execute\": \"get\", \"id\": 8}
13 admit 1 10 oob {\"exec-oob\": \"ping\"}
error: script line 25: oob-open
$ replay --schema s1.json --bind b1.json a.script
open
text 1 {\"execute\":\"qmp_capabilities\",\"arguments\":{\"enable\":[\"oob\"]}}%
text 1 {\"exec-oob\":\"ping\"}
admit 1
eof 1
drop 1 ended
= 5
1 open 1
2 admit 1 1 in {\"execute\": \"qmp_capabilities\", \"arguments\": {\"enable\": [\"oob\"]}}
3 start 1 1
4 done 1 1 @0 {\"return\": {}}
5 admit 1 2 oob {\"exec-oob\": \"ping\"}
6 eof 1
error: script line 9: not-drained
$ replay --schema s1.json --bind b1.json a.script
open
text 1 {\"execute\":\"qmp_capabilities\",\"arguments\":{\"enable\":[\"oob\"]}}%
oob 1
= 5
1 open 1
2 admit 1 1 in {\"execute\": \"qmp_capabilities\", \"arguments\": {\"enable\": [\"oob\"]}}
3 start 1 1
4 done 1 1 @0 {\"return\": {}}
error: script line 6: bad-line
";

/// Of two refusals whose conditions hold, the first in the order of the step; and a full journal.
pub const ORDER: &str = "\
$ replay --schema s1.json --bind b1.json a.script
open
text 1 {\"execute\":\"qmp_capabilities\",\"arguments\":{\"enable\":[\"oob\"]}}%
text 1 {\"execute\":\"quit\"}
admit 1
start
eof 1
finish 1
text 1 {\"execute\":\"get\"}
admit 1
= 5
1 open 1
2 admit 1 1 in {\"execute\": \"qmp_capabilities\", \"arguments\": {\"enable\": [\"oob\"]}}
3 start 1 1
4 done 1 1 @0 {\"return\": {}}
5 admit 1 2 in {\"execute\": \"quit\"}
6 start 1 2
7 eof 1
8 done 1 2 @1 {\"return\": {}}
error: script line 12: input-ended
$ replay --schema s1.json --bind b1.json a.script
open
text 1 {\"execute\":\"qmp_capabilities\",\"arguments\":{\"enable\":[\"oob\"]}}%
text 1 {\"execute\":\"quit\"}
admit 1
start
text 1 {\"exec-oob\":\"ping\"}
admit 1
finish 1
text 1 {\"execute\":\"get\"}
admit 1
= 5
1 open 1
2 admit 1 1 in {\"execute\": \"qmp_capabilities\", \"arguments\": {\"enable\": [\"oob\"]}}
3 start 1 1
4 done 1 1 @0 {\"return\": {}}
5 admit 1 2 in {\"execute\": \"quit\"}
6 start 1 2
7 admit 1 3 oob {\"exec-oob\": \"ping\"}
8 done 1 2 @1 {\"return\": {}}
error: script line 13: stopping
$ replay --journal 3 a.script
open
text 1 {}
text 1 {}
admit 1
admit 1
= 5
1 open 1
2 admit 1 1 in {}
error: script line 5: busy
$ replay --journal 3 a.script
open
take 1
take 1
= 5
1 open 1
2 take 1 1
> {\"QMP\": {\"version\": {\"qemu\": {\"micro\": 0, \"minor\": 0, \"major\": 1}, \"package\": \"qmpd\"}, \"capabilities\": [\"oob\"]}}
error: script line 3: nothing
$ replay --journal 3 a.script
open
eof 1
eof 1
= 5
1 open 1
2 eof 1
error: script line 3: input-ended
$ replay --journal 2 a.script
open
start
= 5
1 open 1
error: script line 2: nothing
$ replay --journal 2 a.script
open
finish 0
= 5
1 open 1
error: script line 2: not-running
$ replay --journal 2 a.script
open
oob 1 0
= 5
1 open 1
error: script line 2: not-open
$ replay a.script
open
eof 1
drop 1 limit
eof 1
= 5
1 open 1
2 eof 1
3 drop 1 limit
error: script line 4: closed
$ replay a.script
open
drop 1 limit
take 1
= 5
1 open 1
2 drop 1 limit
error: script line 3: closed
$ replay a.script
open
text 1 {}
eof 1
drop 1 limit
admit 1
= 5
1 open 1
2 eof 1
3 drop 1 limit
error: script line 5: closed
$ replay a.script
open
drop 1 limit
drop 1 overrun
= 5
1 open 1
2 drop 1 limit
error: script line 3: closed
$ replay --schema s1.json --bind b1.json --journal 6 a.script
open
text 1 {\"execute\":\"qmp_capabilities\",\"arguments\":{\"enable\":[\"oob\"]}}%
text 1 {\"exec-oob\":\"ping\"}
admit 1
oob 1 0
= 9
1 open 1
2 admit 1 1 in {\"execute\": \"qmp_capabilities\", \"arguments\": {\"enable\": [\"oob\"]}}
3 start 1 1
4 done 1 1 @0 {\"return\": {}}
5 admit 1 2 oob {\"exec-oob\": \"ping\"}
error: script line 8: journal-full
";
