//! Runs over a schema and a bind file.

/// Bind files, which stand before the files of the runs over a schema.
pub const FILES: &str = "\
b1.json
{\"cells\": {\"c\": \"slow\"}, \"tallies\": [\"t\"], \"commands\": {
 \"set\": {\"acts\": [{\"set\": \"c\", \"to\": {\"arg\": \"mode\"}}]},
 \"get\": {\"return\": {\"cell\": \"c\"}},
 \"put\": {\"acts\": [{\"add\": \"t\", \"by\": 1}], \"return\": {\"tally\": \"t\"}},
 \"ping\": {\"return\": {\"tally\": \"t\"}},
 \"level\": {\"acts\": [{\"add\": \"t\", \"by\": 5}, {\"fail\": \"no level\"}]},
 \"bad\": {\"acts\": [{\"set\": \"c\", \"to\": {\"const\": \"off\"}}], \"return\": {\"const\": \"x\"}}}}
@
none.json
{}
@
x.json
{\"commands\": {\"x\": {}}}
@
own.json
{\"commands\": {\"quit\": {}}}
@
get.json
{\"commands\": {\"get\": {\"return\": {\"cell\": \"c\"}}}}
@
twice.json
{\"cells\": {\"t\": 1}, \"tallies\": [\"t\"], \"commands\": {\"x\": {}}}
@
events.json
{\"events\": {\"NOTE\": {}}}
@
list.json
[]
@
text.json
{x}
@
empty.json
@
acts.json
{\"cells\": {\"c\": 1}, \"tallies\": [\"t\"], \"commands\": {
 \"get\": {\"acts\": [{\"set\": \"c\", \"to\": {\"const\": \"fast\"}}], \"return\": {\"cell\": \"c\"}},
 \"put\": {\"acts\": [{\"fail\": \"first\"}, {\"add\": \"t\", \"by\": 1}]},
 \"ping\": {\"return\": {\"tally\": \"t\"}},
 \"bad\": {\"acts\": [{\"add\": \"t\", \"by\": 1}, {\"fail\": \"middle\"}, {\"add\": \"t\", \"by\": 1}]}}}
@
";

/// A failed plan leaves nothing, and each call sees what those before it left.
pub const PLAYED: &str = "\
$ replay --schema s1.json --bind b1.json a.script
open
text 1 {\"execute\":\"qmp_capabilities\"}%
text 1 {\"execute\":\"bad\"}%
text 1 {\"execute\":\"get\"}%
text 1 {\"execute\":\"put\",\"arguments\":{\"at\":1}}%
text 1 {\"execute\":\"put\",\"arguments\":{\"at\":\"x\"}}%
text 1 {\"execute\":\"put\",\"arguments\":{\"at\":70000}}%
text 1 {\"execute\":\"level\",\"arguments\":{\"n\":1}}%
text 1 {\"execute\":\"put\",\"arguments\":{\"at\":1}}%
text 1 {\"execute\":\"set\",\"arguments\":{\"mode\":\"off\"}}%
text 1 {\"execute\":\"get\",\"id\":7}%
= 0
1 open 1
2 admit 1 1 in {\"execute\": \"qmp_capabilities\"}
3 start 1 1
4 done 1 1 @0 {\"return\": {}}
5 admit 1 2 in {\"execute\": \"bad\"}
6 start 1 2
7 done 1 2 @0 {\"error\": {\"class\": \"GenericError\", \"desc\": \"The return value does not fit its type\"}}
8 admit 1 3 in {\"execute\": \"get\"}
9 start 1 3
10 done 1 3 @0 {\"return\": \"slow\"}
11 admit 1 4 in {\"execute\": \"put\", \"arguments\": {\"at\": 1}}
12 start 1 4
13 done 1 4 @0 {\"return\": 1}
14 admit 1 5 in {\"execute\": \"put\", \"arguments\": {\"at\": \"x\"}}
15 start 1 5
16 done 1 5 @0 {\"return\": 2}
17 admit 1 6 in {\"execute\": \"put\", \"arguments\": {\"at\": 70000}}
18 start 1 6
19 done 1 6 @0 {\"error\": {\"class\": \"GenericError\", \"desc\": \"Parameter 'at' is out of range\"}}
20 admit 1 7 in {\"execute\": \"level\", \"arguments\": {\"n\": 1}}
21 start 1 7
22 done 1 7 @0 {\"error\": {\"class\": \"GenericError\", \"desc\": \"no level\"}}
23 admit 1 8 in {\"execute\": \"put\", \"arguments\": {\"at\": 1}}
24 start 1 8
25 done 1 8 @0 {\"return\": 3}
26 admit 1 9 in {\"execute\": \"set\", \"arguments\": {\"mode\": \"off\"}}
27 start 1 9
28 done 1 9 @0 {\"return\": {}}
29 admit 1 10 in {\"execute\": \"get\", \"id\": 7}
30 start 1 10
31 done 1 10 @0 {\"return\": \"off\", \"id\": 7}
end 31
$ replay --schema s1.json --bind none.json a.script
open
text 1 {\"execute\":\"qmp_capabilities\"}%
text 1 {\"execute\":\"set\",\"arguments\":{\"mode\":\"off\"}}%
= 0
1 open 1
2 admit 1 1 in {\"execute\": \"qmp_capabilities\"}
3 start 1 1
4 done 1 1 @0 {\"return\": {}}
5 admit 1 2 in {\"execute\": \"set\", \"arguments\": {\"mode\": \"off\"}}
6 start 1 2
7 done 1 2 @0 {\"return\": {}}
end 7
$ replay --schema s1.json --bind acts.json a.script
open
text 1 {\"execute\":\"qmp_capabilities\"}%
text 1 {\"execute\":\"put\",\"arguments\":{\"at\":1}}%
text 1 {\"execute\":\"ping\"}%
text 1 {\"execute\":\"bad\"}%
text 1 {\"execute\":\"ping\"}%
text 1 {\"execute\":\"get\"}%
= 0
1 open 1
2 admit 1 1 in {\"execute\": \"qmp_capabilities\"}
3 start 1 1
4 done 1 1 @0 {\"return\": {}}
5 admit 1 2 in {\"execute\": \"put\", \"arguments\": {\"at\": 1}}
6 start 1 2
7 done 1 2 @0 {\"error\": {\"class\": \"GenericError\", \"desc\": \"first\"}}
8 admit 1 3 in {\"execute\": \"ping\"}
9 start 1 3
10 done 1 3 @0 {\"return\": 0}
11 admit 1 4 in {\"execute\": \"bad\"}
12 start 1 4
13 done 1 4 @0 {\"error\": {\"class\": \"GenericError\", \"desc\": \"middle\"}}
14 admit 1 5 in {\"execute\": \"ping\"}
15 start 1 5
16 done 1 5 @0 {\"return\": 0}
17 admit 1 6 in {\"execute\": \"get\"}
18 start 1 6
19 done 1 6 @0 {\"return\": \"fast\"}
end 19
$ check --schema s1.json --bind b1.json
= 0
ok 20 commands, 2 events, 11 types
";

/// The bind file is read after the schema and before the script, and its fault ends the run.
pub const REFUSED: &str = "\
$ replay --bind x.json a.script
= 4
error: bind x.json: unknown-command x
$ replay --schema bad.json --bind x.json a.script
= 3
error: schema bad.json line 1: unknown-type Foo
$ replay --schema s1.json --bind x.json none.script
= 4
error: bind x.json: unknown-command x
$ check --bind missing.json
= 4
error: bind missing.json: no-file
$ check --schema s1.json --bind own.json
= 4
error: bind own.json: unknown-command quit
$ introspect --schema s1.json --bind get.json
= 4
error: bind get.json: bad-recipe get
$ check --schema s1.json --bind=twice.json
= 4
error: bind twice.json: twice t
$ check --schema s1.json --bind events.json
= 4
error: bind events.json: bad-period NOTE
$ check --bind list.json
= 4
error: bind list.json: bad-recipe
$ check --bind text.json
= 4
error: bind text.json: not-json expected 1
$ check --bind empty.json
= 4
error: bind empty.json: not-json expected 0
";
