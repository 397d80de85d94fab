//! Runs over a schema: scripts that call its commands, and what is told of it.

/// A schema, one with a fault, and a script, which follows.
pub const FILES: &str = "\
s1.json
{ 'enum': 'Mode', 'data': [ 'slow', 'fast', 'off' ] }
{ 'struct': 'Common', 'data': { 'mode': 'Mode', '*tag': 'str' } }
{ 'struct': 'Fast', 'data': { 'level': 'int8' } }
{ 'union': 'Setting', 'base': 'Common', 'discriminator': 'mode', 'data': { 'fast': 'Fast' } }
{ 'alternate': 'Place', 'data': { 'n': 'uint16', 's': 'str' } }
{ 'command': 'set', 'data': 'Setting', 'boxed': true }
{ 'command': 'get', 'returns': 'Mode' }
{ 'command': 'put', 'data': { 'at': 'Place', '*note': 'str' }, 'returns': 'int' }
{ 'command': 'ping', 'returns': 'int', 'allow-oob': true }
{ 'command': 'make', 'data': { 'id': 'str' } }
{ 'command': 'level', 'data': { 'n': 'int8' } }
{ 'command': 'bad', 'returns': 'int' }
{ 'event': 'NOTE', 'data': { 'port': 'str', 'n': 'int' } }
{ 'command': 'note', 'data': { 'port': 'str', 'n': 'int' } }
@
bad.json
{ 'struct': 'A', 'data': { 'b': 'Foo' } }
@
if.json
{ 'command': 'old', 'if': { 'not': 'NEW' } }
@
a.script
";

/// A script that gives numbers at the ends of their range, and one that calls a command which a
/// condition takes out.
pub const PLAYED: &str = "\
$ replay --schema s1.json a.script
open
text 1 {\"execute\":\"qmp_capabilities\"}%
text 1 {\"execute\":\"level\",\"arguments\":{\"n\":127}}%
text 1 {\"execute\":\"level\",\"arguments\":{\"n\":-128}}%
text 1 {\"execute\":\"level\",\"arguments\":{\"n\":128}}%
text 1 {\"execute\":\"level\",\"arguments\":{\"n\":-129}}%
text 1 {\"execute\":\"level\",\"arguments\":{\"n\":1.0}}%
= 0
1 open 1
2 admit 1 1 in {\"execute\": \"qmp_capabilities\"}
3 start 1 1
4 done 1 1 @0 {\"return\": {}}
5 admit 1 2 in {\"execute\": \"level\", \"arguments\": {\"n\": 127}}
6 start 1 2
7 done 1 2 @0 {\"return\": {}}
8 admit 1 3 in {\"execute\": \"level\", \"arguments\": {\"n\": -128}}
9 start 1 3
10 done 1 3 @0 {\"return\": {}}
11 admit 1 4 in {\"execute\": \"level\", \"arguments\": {\"n\": 128}}
12 start 1 4
13 done 1 4 @0 {\"error\": {\"class\": \"GenericError\", \"desc\": \"Parameter 'n' is out of range\"}}
14 admit 1 5 in {\"execute\": \"level\", \"arguments\": {\"n\": -129}}
15 start 1 5
16 done 1 5 @0 {\"error\": {\"class\": \"GenericError\", \"desc\": \"Parameter 'n' is out of range\"}}
17 admit 1 6 in {\"execute\": \"level\", \"arguments\": {\"n\": 1.0}}
18 start 1 6
19 done 1 6 @0 {\"error\": {\"class\": \"GenericError\", \"desc\": \"Invalid parameter type for 'n'\"}}
end 19
$ replay --schema if.json --define NEW a.script
open
text 1 {\"execute\":\"qmp_capabilities\"}%
text 1 {\"execute\":\"old\"}%
= 0
1 open 1
2 admit 1 1 in {\"execute\": \"qmp_capabilities\"}
3 start 1 1
4 done 1 1 @0 {\"return\": {}}
5 admit 1 2 in {\"execute\": \"old\"}
6 start 1 2
7 done 1 2 @0 {\"error\": {\"class\": \"CommandNotFound\", \"desc\": \"The command old has not been found\"}}
end 7
";

/// The schema is read before the script, and its fault ends the run.
pub const REFUSED: &str = "\
$ replay --schema bad.json none.script
= 3
error: schema bad.json line 1: unknown-type Foo
$ replay --schema none.json a.script
= 3
error: schema none.json line 0: no-file none.json
$ introspect --schema bad.json
= 3
error: schema bad.json line 1: unknown-type Foo
$ replay --schema s1.json none.script
= 5
error: script none.script: no-file
";

/// How what is told of the definitions begins that stand before each schema: two numbers are given
/// by the first command, one by each result that is new, and an array is named by its elements.
pub const TOLD: &str = "0
[{\"name\": \"qmp_capabilities\", \"meta-type\": \"command\", \"arg-type\": \"0\", \"ret-type\": \"1\"}, \
{\"name\": \"query-version\", \"meta-type\": \"command\", \"arg-type\": \"1\", \"ret-type\": \"2\"}, \
{\"name\": \"query-commands\", \"meta-type\": \"command\", \"arg-type\": \"1\", \"ret-type\": \"[3]\"}, \
{\"name\": \"query-qmp-schema\", \"meta-type\": \"command\", \"arg-type\": \"1\", \"ret-type\": \"[any]\"}, \
{\"name\": \"query-jobs\", \"meta-type\": \"command\", \"arg-type\": \"1\", \"ret-type\": \"[4]\"}, \
{\"name\": \"job-cancel\", \"meta-type\": \"command\", \"arg-type\": \"5\", \"ret-type\": \"1\"}, ";
