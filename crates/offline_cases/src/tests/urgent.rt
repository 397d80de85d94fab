//! Scripts of one session and both lanes.

/// Urgent commands: one that overtakes eight, one that may not be urgent, one that was not
/// negotiated, and the mode in which a request is admitted.
pub const PLAYED: &str = "\
$ replay --schema s1.json --bind b1.json a.script
open
text 1 {\"execute\":\"qmp_capabilities\",\"arguments\":{\"enable\":[\"oob\"]}}%
text 1 {\"execute\":\"get\",\"id\":1}
admit 1
text 1 {\"execute\":\"get\",\"id\":2}
admit 1
text 1 {\"execute\":\"get\",\"id\":3}
admit 1
text 1 {\"execute\":\"get\",\"id\":4}
admit 1
text 1 {\"execute\":\"get\",\"id\":5}
admit 1
text 1 {\"execute\":\"get\",\"id\":6}
admit 1
text 1 {\"execute\":\"get\",\"id\":7}
admit 1
text 1 {\"execute\":\"get\",\"id\":8}
admit 1
text 1 {\"execute\":\"get\",\"id\":9}
admit 1
= 5
1 open 1
2 admit 1 1 in {\"execute\": \"qmp_capabilities\", \"arguments\": {\"enable\": [\"oob\"]}}
3 start 1 1
4 done 1 1 @0 {\"return\": {}}
5 admit 1 2 in {\"execute\": \"get\", \"id\": 1}
6 admit 1 3 in {\"execute\": \"get\", \"id\": 2}
7 admit 1 4 in {\"execute\": \"get\", \"id\": 3}
8 admit 1 5 in {\"execute\": \"get\", \"id\": 4}
9 admit 1 6 in {\"execute\": \"get\", \"id\": 5}
10 admit 1 7 in {\"execute\": \"get\", \"id\": 6}
11 admit 1 8 in {\"execute\": \"get\", \"id\": 7}
12 admit 1 9 in {\"execute\": \"get\", \"id\": 8}
error: script line 23: busy
$ replay --schema s1.json --bind b1.json a.script
open
text 1 {\"execute\":\"qmp_capabilities\",\"arguments\":{\"enable\":[\"oob\"]}}%
text 1 {\"execute\":\"get\",\"id\":1}
admit 1
text 1 {\"execute\":\"get\",\"id\":2}
admit 1
text 1 {\"execute\":\"get\",\"id\":3}
admit 1
text 1 {\"execute\":\"get\",\"id\":4}
admit 1
text 1 {\"execute\":\"get\",\"id\":5}
admit 1
text 1 {\"execute\":\"get\",\"id\":6}
admit 1
text 1 {\"execute\":\"get\",\"id\":7}
admit 1
text 1 {\"execute\":\"get\",\"id\":8}
admit 1
text 1 {\"exec-oob\":\"ping\",\"id\":9}
admit 1
oob 1 3
take 1
= 0
1 open 1
2 admit 1 1 in {\"execute\": \"qmp_capabilities\", \"arguments\": {\"enable\": [\"oob\"]}}
3 start 1 1
4 done 1 1 @0 {\"return\": {}}
5 admit 1 2 in {\"execute\": \"get\", \"id\": 1}
6 admit 1 3 in {\"execute\": \"get\", \"id\": 2}
7 admit 1 4 in {\"execute\": \"get\", \"id\": 3}
8 admit 1 5 in {\"execute\": \"get\", \"id\": 4}
9 admit 1 6 in {\"execute\": \"get\", \"id\": 5}
10 admit 1 7 in {\"execute\": \"get\", \"id\": 6}
11 admit 1 8 in {\"execute\": \"get\", \"id\": 7}
12 admit 1 9 in {\"execute\": \"get\", \"id\": 8}
13 admit 1 10 oob {\"exec-oob\": \"ping\", \"id\": 9}
14 oob-done 1 10 @3 {\"return\": 0, \"id\": 9}
15 take 1 3
> {\"QMP\": {\"version\": {\"qemu\": {\"micro\": 0, \"minor\": 0, \"major\": 1}, \"package\": \"qmpd\"}, \"capabilities\": [\"oob\"]}}
> {\"return\": {}}
> {\"return\": 0, \"id\": 9}
end 15
$ replay --schema s1.json --bind b1.json a.script
open
text 1 {\"execute\":\"qmp_capabilities\",\"arguments\":{\"enable\":[\"oob\"]}}%
text 1 {\"execute\":\"get\",\"id\":1}
admit 1
text 1 {\"exec-oob\":\"get\",\"id\":2}
admit 1
oob 1 1
start
finish 1
= 0
1 open 1
2 admit 1 1 in {\"execute\": \"qmp_capabilities\", \"arguments\": {\"enable\": [\"oob\"]}}
3 start 1 1
4 done 1 1 @0 {\"return\": {}}
5 admit 1 2 in {\"execute\": \"get\", \"id\": 1}
6 admit 1 3 oob {\"exec-oob\": \"get\", \"id\": 2}
7 oob-done 1 3 @1 {\"error\": {\"class\": \"GenericError\", \"desc\": \"The command get does not support OOB\"}, \"id\": 2}
8 start 1 2
9 done 1 2 @1 {\"return\": \"slow\", \"id\": 1}
end 9
$ replay --schema s1.json --bind b1.json a.script
open
text 1 {\"execute\":\"qmp_capabilities\"}%
text 1 {\"exec-oob\":\"ping\",\"id\":1}%
= 0
1 open 1
2 admit 1 1 in {\"execute\": \"qmp_capabilities\"}
3 start 1 1
4 done 1 1 @0 {\"return\": {}}
5 admit 1 2 in {\"exec-oob\": \"ping\", \"id\": 1}
6 start 1 2
7 done 1 2 @0 {\"error\": {\"class\": \"GenericError\", \"desc\": \"QMP input member 'exec-oob' is unexpected\"}, \"id\": 1}
end 7
$ replay --schema s1.json --bind b1.json a.script
open
text 1 {\"execute\":\"qmp_capabilities\",\"arguments\":{\"enable\":[\"oob\"]}}
text 1 {\"exec-oob\":\"ping\"}
admit 1
admit 1
= 5
1 open 1
2 admit 1 1 in {\"execute\": \"qmp_capabilities\", \"arguments\": {\"enable\": [\"oob\"]}}
error: script line 5: busy
$ replay --schema s1.json --bind b1.json a.script
open
text 1 {\"execute\":\"qmp_capabilities\",\"arguments\":{\"enable\":[\"oob\"]}}
text 1 {\"exec-oob\":\"ping\"}
admit 1
start
finish 0
admit 1
= 0
1 open 1
2 admit 1 1 in {\"execute\": \"qmp_capabilities\", \"arguments\": {\"enable\": [\"oob\"]}}
3 start 1 1
4 done 1 1 @0 {\"return\": {}}
5 admit 1 2 oob {\"exec-oob\": \"ping\"}
end 5
";
