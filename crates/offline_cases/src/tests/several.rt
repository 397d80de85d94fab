//! Scripts with several sessions and both lanes.

/// Two sessions take turns.
pub const TURNS: &str = "\
$ replay --schema s1.json --bind b1.json a.script
open
text 1 {\"execute\":\"qmp_capabilities\",\"arguments\":{\"enable\":[\"oob\"]}}%
open
text 2 {\"execute\":\"qmp_capabilities\",\"arguments\":{\"enable\":[\"oob\"]}}
admit 2
start
finish 0
text 1 {\"execute\":\"get\"}
admit 1
text 1 {\"execute\":\"get\"}
admit 1
text 1 {\"execute\":\"get\"}
admit 1
text 2 {\"execute\":\"get\"}
admit 2
text 2 {\"execute\":\"get\"}
admit 2
start
finish 1
start
finish 1
start
finish 1
start
finish 1
start
finish 1
start
= 5
1 open 1
2 admit 1 1 in {\"execute\": \"qmp_capabilities\", \"arguments\": {\"enable\": [\"oob\"]}}
3 start 1 1
4 done 1 1 @0 {\"return\": {}}
5 open 2
6 admit 2 1 in {\"execute\": \"qmp_capabilities\", \"arguments\": {\"enable\": [\"oob\"]}}
7 start 2 1
8 done 2 1 @0 {\"return\": {}}
9 admit 1 2 in {\"execute\": \"get\"}
10 admit 1 3 in {\"execute\": \"get\"}
11 admit 1 4 in {\"execute\": \"get\"}
12 admit 2 2 in {\"execute\": \"get\"}
13 admit 2 3 in {\"execute\": \"get\"}
14 start 1 2
15 done 1 2 @1 {\"return\": \"slow\"}
16 start 2 2
17 done 2 2 @1 {\"return\": \"slow\"}
18 start 1 3
19 done 1 3 @1 {\"return\": \"slow\"}
20 start 2 3
21 done 2 3 @1 {\"return\": \"slow\"}
22 start 1 4
23 done 1 4 @1 {\"return\": \"slow\"}
error: script line 31: nothing
";

/// The ends of sessions: drained, too soon, and with requests that wait, run and are open.
pub const ENDS: &str = "\
$ replay --schema s1.json --bind b1.json a.script
open
text 1 {\"execute\":\"qmp_capabilities\",\"arguments\":{\"enable\":[\"oob\"]}}%
text 1 {\"execute\":\"put\",\"arguments\":{\"at\":1}}
admit 1
text 1 {\"execute\":\"put\",\"arguments\":{\"at\":1}}
admit 1
text 1 {\"execute\":\"put\",\"arguments\":{\"at\":1}}
admit 1
eof 1
start
finish 1
start
finish 1
start
finish 1
take 1
drop 1 ended
= 0
1 open 1
2 admit 1 1 in {\"execute\": \"qmp_capabilities\", \"arguments\": {\"enable\": [\"oob\"]}}
3 start 1 1
4 done 1 1 @0 {\"return\": {}}
5 admit 1 2 in {\"execute\": \"put\", \"arguments\": {\"at\": 1}}
6 admit 1 3 in {\"execute\": \"put\", \"arguments\": {\"at\": 1}}
7 admit 1 4 in {\"execute\": \"put\", \"arguments\": {\"at\": 1}}
8 eof 1
9 start 1 2
10 done 1 2 @1 {\"return\": 1}
11 start 1 3
12 done 1 3 @1 {\"return\": 2}
13 start 1 4
14 done 1 4 @1 {\"return\": 3}
15 take 1 5
> {\"QMP\": {\"version\": {\"qemu\": {\"micro\": 0, \"minor\": 0, \"major\": 1}, \"package\": \"qmpd\"}, \"capabilities\": [\"oob\"]}}
> {\"return\": {}}
> {\"return\": 1}
> {\"return\": 2}
> {\"return\": 3}
16 drop 1 ended
end 16
$ replay --schema s1.json --bind b1.json a.script
open
text 1 {\"execute\":\"qmp_capabilities\",\"arguments\":{\"enable\":[\"oob\"]}}%
text 1 {\"execute\":\"put\",\"arguments\":{\"at\":1}}
admit 1
text 1 {\"execute\":\"put\",\"arguments\":{\"at\":1}}
admit 1
text 1 {\"execute\":\"put\",\"arguments\":{\"at\":1}}
admit 1
eof 1
start
finish 1
start
finish 1
start
drop 1 ended
= 5
1 open 1
2 admit 1 1 in {\"execute\": \"qmp_capabilities\", \"arguments\": {\"enable\": [\"oob\"]}}
3 start 1 1
4 done 1 1 @0 {\"return\": {}}
5 admit 1 2 in {\"execute\": \"put\", \"arguments\": {\"at\": 1}}
6 admit 1 3 in {\"execute\": \"put\", \"arguments\": {\"at\": 1}}
7 admit 1 4 in {\"execute\": \"put\", \"arguments\": {\"at\": 1}}
8 eof 1
9 start 1 2
10 done 1 2 @1 {\"return\": 1}
11 start 1 3
12 done 1 3 @1 {\"return\": 2}
13 start 1 4
error: script line 18: not-drained
$ replay --schema s1.json --bind b1.json a.script
open
text 1 {\"execute\":\"qmp_capabilities\",\"arguments\":{\"enable\":[\"oob\"]}}%
text 1 {\"execute\":\"put\",\"arguments\":{\"at\":1}}
admit 1
text 1 {\"execute\":\"put\",\"arguments\":{\"at\":1}}
admit 1
text 1 {\"execute\":\"put\",\"arguments\":{\"at\":1}}
admit 1
eof 1
start
finish 1
take 1
drop 1 write-fault
start
= 5
1 open 1
2 admit 1 1 in {\"execute\": \"qmp_capabilities\", \"arguments\": {\"enable\": [\"oob\"]}}
3 start 1 1
4 done 1 1 @0 {\"return\": {}}
5 admit 1 2 in {\"execute\": \"put\", \"arguments\": {\"at\": 1}}
6 admit 1 3 in {\"execute\": \"put\", \"arguments\": {\"at\": 1}}
7 admit 1 4 in {\"execute\": \"put\", \"arguments\": {\"at\": 1}}
8 eof 1
9 start 1 2
10 done 1 2 @1 {\"return\": 1}
11 take 1 3
> {\"QMP\": {\"version\": {\"qemu\": {\"micro\": 0, \"minor\": 0, \"major\": 1}, \"package\": \"qmpd\"}, \"capabilities\": [\"oob\"]}}
> {\"return\": {}}
> {\"return\": 1}
12 drop 1 write-fault
error: script line 17: nothing
$ replay --schema s1.json --bind b1.json a.script
open
text 1 {\"execute\":\"qmp_capabilities\",\"arguments\":{\"enable\":[\"oob\"]}}%
text 1 {\"execute\":\"get\"}
admit 1
start
text 1 {\"execute\":\"get\"}
admit 1
text 1 {\"exec-oob\":\"ping\"}
admit 1
drop 1 write-fault
finish 1
start
= 5
1 open 1
2 admit 1 1 in {\"execute\": \"qmp_capabilities\", \"arguments\": {\"enable\": [\"oob\"]}}
3 start 1 1
4 done 1 1 @0 {\"return\": {}}
5 admit 1 2 in {\"execute\": \"get\"}
6 start 1 2
7 admit 1 3 in {\"execute\": \"get\"}
8 admit 1 4 oob {\"exec-oob\": \"ping\"}
9 drop 1 write-fault
10 done 1 2 @1 {\"return\": \"slow\"}
error: script line 15: nothing
";

/// What `quit` leaves possible.
pub const QUITS: &str = "\
$ replay --schema s1.json --bind b1.json a.script
open
text 1 {\"execute\":\"qmp_capabilities\",\"arguments\":{\"enable\":[\"oob\"]}}%
open
text 2 {\"execute\":\"qmp_capabilities\",\"arguments\":{\"enable\":[\"oob\"]}}
admit 2
start
finish 0
text 1 {\"execute\":\"quit\"}
admit 1
start
finish 5
text 2 {\"execute\":\"get\"}
admit 2
= 5
1 open 1
2 admit 1 1 in {\"execute\": \"qmp_capabilities\", \"arguments\": {\"enable\": [\"oob\"]}}
3 start 1 1
4 done 1 1 @0 {\"return\": {}}
5 open 2
6 admit 2 1 in {\"execute\": \"qmp_capabilities\", \"arguments\": {\"enable\": [\"oob\"]}}
7 start 2 1
8 done 2 1 @0 {\"return\": {}}
9 admit 1 2 in {\"execute\": \"quit\"}
10 start 1 2
11 done 1 2 @5 {\"return\": {}}
error: script line 16: stopping
$ replay --schema s1.json --bind b1.json a.script
open
text 1 {\"execute\":\"qmp_capabilities\",\"arguments\":{\"enable\":[\"oob\"]}}%
open
text 2 {\"execute\":\"qmp_capabilities\",\"arguments\":{\"enable\":[\"oob\"]}}
admit 2
start
finish 0
text 1 {\"execute\":\"quit\"}
admit 1
start
finish 5
text 2 {\"execute\":\"get\"}
drop 2 stopped
= 0
1 open 1
2 admit 1 1 in {\"execute\": \"qmp_capabilities\", \"arguments\": {\"enable\": [\"oob\"]}}
3 start 1 1
4 done 1 1 @0 {\"return\": {}}
5 open 2
6 admit 2 1 in {\"execute\": \"qmp_capabilities\", \"arguments\": {\"enable\": [\"oob\"]}}
7 start 2 1
8 done 2 1 @0 {\"return\": {}}
9 admit 1 2 in {\"execute\": \"quit\"}
10 start 1 2
11 done 1 2 @5 {\"return\": {}}
12 drop 2 stopped
end 12
$ replay --schema s1.json --bind b1.json a.script
open
text 1 {\"execute\":\"qmp_capabilities\",\"arguments\":{\"enable\":[\"oob\"]}}%
text 1 {\"execute\":\"quit\"}
admit 1
start
text 1 {\"exec-oob\":\"ping\"}
admit 1
finish 1
oob 1 2
open
= 5
1 open 1
2 admit 1 1 in {\"execute\": \"qmp_capabilities\", \"arguments\": {\"enable\": [\"oob\"]}}
3 start 1 1
4 done 1 1 @0 {\"return\": {}}
5 admit 1 2 in {\"execute\": \"quit\"}
6 start 1 2
7 admit 1 3 oob {\"exec-oob\": \"ping\"}
8 done 1 2 @1 {\"return\": {}}
9 oob-done 1 3 @2 {\"return\": 0}
error: script line 13: stopping
$ replay --schema s1.json --bind b1.json a.script
open
text 1 {\"execute\":\"qmp_capabilities\",\"arguments\":{\"enable\":[\"oob\"]}}%
text 1 {\"execute\":\"quit\"}
admit 1
start
finish 1
start
= 5
1 open 1
2 admit 1 1 in {\"execute\": \"qmp_capabilities\", \"arguments\": {\"enable\": [\"oob\"]}}
3 start 1 1
4 done 1 1 @0 {\"return\": {}}
5 admit 1 2 in {\"execute\": \"quit\"}
6 start 1 2
7 done 1 2 @1 {\"return\": {}}
error: script line 10: stopping
";
