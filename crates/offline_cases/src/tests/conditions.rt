//! Conditions, and faults behind them.

/// Conditions, definitions of names that stand before each schema, and what no rule refuses.
pub const CONDITIONS: &str = "\
Y | ok 12 commands, 1 events, 7 types | { 'struct': '1', 'data': {}, 'if': 'X' }^{ 'struct': 'A', 'data': { '1': { 'type': 'Foo', 'if': 'X' }, 'b': { 'if': { 'not': 'X' }, 'type': 'int' } } }
X | 1: bad-name 1 | { 'struct': '1', 'data': {}, 'if': 'X' }^{ 'struct': 'A', 'data': { '1': { 'type': 'Foo', 'if': 'X' } } }
W | 2: unknown-type Bar | { 'struct': 'A', 'data': { 'b': 'Foo' }, 'if': { 'any': [] } }^{ 'struct': 'B', 'data': { 'b': 'Bar' }, 'if': { 'all': [] } }
X,Y | 2: member-clash f | { 'enum': 'A', 'data': [ 'a', { 'name': 'a', 'if': { 'all': [ 'X', { 'not': 'Y' } ] } } ] }^{ 'command': 'c', 'features': [ 'f', { 'name': 'f', 'if': 'Y' } ] }
X | ok 12 commands, 1 events, 10 types | { 'enum': 'E', 'data': [ 'a', 'b' ] }^{ 'struct': 'S', 'data': {} }^{ 'union': 'U', 'base': { 't': 'E' }, 'discriminator': 't', 'data': { 'a': { 'type': 'S', 'if': 'X' }, 'c': { 'type': 'S', 'if': 'Y' } } }^{ 'alternate': 'A', 'data': { 'a': 'int', 'b': { 'type': 'int8', 'if': { 'any': [ 'Y', 'Z' ] } } } }
W | 2: bad-discriminator t | { 'enum': 'E', 'data': [ 'a', 'b' ] }^{ 'union': 'U', 'base': { 't': { 'type': 'E', 'if': 'X' } }, 'discriminator': 't', 'data': {} }
,X,,Y | 1: unknown-type Foo | { 'struct': 'A', 'data': { 'b': 'Foo' }, 'if': '' }
X | ok 12 commands, 1 events, 6 types | { 'struct': 'A', 'data': { 'b': 'Foo' }, 'if': '' }
W | ok 12 commands, 1 events, 7 types | { 'struct': 'JobInfo', 'data': { '1': 'Foo', '*1': 'Bar' }, 'base': 'JobInfo' }^{ 'command': 'quit', 'success-response': false }^{ 'enum': 'JOB_STATUS_CHANGE', 'data': [ 'a', 'a' ] }^{ 'struct': 'A', 'data': { 'x': 'JobInfo' } }
W | ok 14 commands, 2 events, 7 types | { 'command': 'c', 'data': {}, 'boxed': true, 'coroutine': true, 'allow-oob': true }^{ 'event': 'EV', 'boxed': true }^{ 'struct': 'A', 'data': { 'if': 'int', 'type': 'str', 'data': 'bool' } }^{ 'command': 'd', 'gen': false, 'data': { 'x': 'any' }, 'returns': 'any' }
";

/// Each rule of a schema's files, broken at its first and at its last place. A condition that does
/// not hold takes none of these faults away.
pub const LOADING: &str = "\
W | 1: no-file b | { 'include': 'b' }
W | 2: no-file b | { 'event': 'EV' }^{ 'include': 'b' }
W | 1: include-cycle a.json | { 'include': 'a.json' }^{ 'event': 'EV' }
W | 2: include-cycle a.json | { 'event': 'EV' }^{ 'include': 'a.json' }
W | 1: bad-byte | ;{ 'event': 'EV', 'if': 'X' }
W | 2: bad-byte | { 'event': 'EV', 'if': 'X' }^;
W | 1: bad-escape | '\\x
W | 2: bad-escape | { 'event': 'EV', 'if': 'X' }^'\\
W | 1: unclosed | '^{ 'event': 'EV' }
W | 2: unclosed | { 'event': 'EV', 'if': 'X' }^'
W | 1: syntax | ]{ 'event': 'EV' }
W | 2: syntax | { 'event': 'EV', 'if': 'X' }^{ 'event': 'EW'
W | 1: duplicate-key event | { 'event': 'EV', 'event': 'EV', 'if': 'X' }
W | 3: duplicate-key m | { 'event': 'EV' }^{ 'event': 'EW', 'if': 'X', 'data': { 'm': 'int', 'n': 'int',^'m': 'int' } }
W | 1: unknown-key x | { 'x': true, 'event': 'EV', 'if': 'X' }
W | 2: unknown-key x | { 'event': 'EV' }^{ 'event': 'EW', 'if': 'X', 'x': true }
W | 1: missing-key base | { 'union': 'U', 'if': 'X' }
W | 2: missing-key data | { 'event': 'EV' }^{ 'union': 'U', 'base': 'B', 'discriminator': 't', 'if': 'X' }
W | 1: wrong-shape event | { 'event': true, 'if': 'X' }
W | 2: wrong-shape features | { 'event': 'EV' }^{ 'event': 'EW', 'if': 'X', 'features': [ 'f', true ] }
";

/// Each rule of a schema's definitions, broken at its first and at its last place behind the
/// condition `X`: what is answered where it holds, and where not.
pub const BEHIND: &str = "\
1: bad-name 1 | ok 12 commands, 1 events, 6 types | { 'event': '1', 'if': 'X' }
2: bad-name 1 | ok 12 commands, 3 events, 6 types | { 'event': 'EV' }^{ 'event': 'EW', 'features': [ 'f', { 'name': '1', 'if': 'X' } ] }
1: no-success-response c | ok 12 commands, 1 events, 6 types | { 'command': 'c', 'if': 'X', 'success-response': false }
2: no-success-response d | ok 13 commands, 1 events, 6 types | { 'command': 'c' }^{ 'command': 'd', 'success-response': false, 'if': 'X' }
1: redefined str | ok 12 commands, 1 events, 6 types | { 'event': 'str', 'if': 'X' }
3: redefined EV | ok 12 commands, 3 events, 6 types | { 'event': 'EV' }^{ 'event': 'EW' }^{ 'struct': 'EV', 'data': {}, 'if': 'X' }
2: redefined EV | ok 12 commands, 2 events, 6 types | { 'event': 'EV', 'if': 'X' }^{ 'event': 'EV' }
1: member-clash a | ok 12 commands, 1 events, 7 types | { 'enum': 'E', 'data': [ 'a', { 'name': 'a', 'if': 'X' }, 'b' ] }
2: member-clash f | ok 12 commands, 3 events, 6 types | { 'event': 'EV' }^{ 'event': 'EW', 'features': [ 'f', 'g', { 'name': 'f', 'if': 'X' } ] }
1: unknown-type N | ok 12 commands, 1 events, 7 types | { 'struct': 'A', 'data': { 'a': { 'type': 'N', 'if': 'X' }, 'b': 'int' } }
2: unknown-type N | ok 12 commands, 1 events, 8 types | { 'struct': 'S', 'data': {} }^{ 'alternate': 'A', 'data': { 'n': 'int', 'l': { 'type': [ 'N' ], 'if': 'X' } } }
ok 12 commands, 1 events, 8 types | 1: unknown-type S | { 'struct': 'A', 'data': { 'a': 'S' } }^{ 'struct': 'S', 'data': {}, 'if': 'X' }
1: bad-base int | ok 12 commands, 1 events, 6 types | { 'struct': 'A', 'base': 'int', 'data': {}, 'if': 'X' }
2: bad-base E | ok 12 commands, 1 events, 7 types | { 'enum': 'E', 'data': [ 'a' ] }^{ 'union': 'U', 'base': 'E', 'discriminator': 't', 'data': {}, 'if': 'X' }
1: bad-discriminator t | ok 12 commands, 1 events, 6 types | { 'union': 'U', 'base': {}, 'discriminator': 't', 'data': {}, 'if': 'X' }
3: bad-discriminator t | ok 12 commands, 1 events, 8 types | { 'struct': 'A', 'data': { 't': 'str' } }^{ 'struct': 'B', 'base': 'A', 'data': {} }^{ 'union': 'U', 'base': 'B', 'discriminator': 't', 'data': {}, 'if': 'X' }
ok 12 commands, 1 events, 7 types | 1: bad-discriminator t | { 'union': 'U', 'base': { 't': { 'type': 'QType', 'if': 'X' } }, 'discriminator': 't', 'data': {} }
2: unknown-branch x | ok 12 commands, 1 events, 8 types | { 'struct': 'S', 'data': {} }^{ 'union': 'U', 'base': { 't': 'QType' }, 'discriminator': 't', 'data': { 'x': { 'type': 'S', 'if': 'X' }, 'none': 'S' } }
2: unknown-branch x | ok 12 commands, 1 events, 8 types | { 'struct': 'S', 'data': {} }^{ 'union': 'U', 'base': { 't': 'QType' }, 'discriminator': 't', 'data': { 'none': 'S', 'qbool': 'S', 'x': { 'type': 'S', 'if': 'X' } } }
ok 12 commands, 1 events, 9 types | 3: unknown-branch b | { 'enum': 'E', 'data': [ 'a', { 'name': 'b', 'if': 'X' } ] }^{ 'struct': 'S', 'data': {} }^{ 'union': 'U', 'base': { 't': 'E' }, 'discriminator': 't', 'data': { 'b': 'S' } }
1: bad-data none | ok 12 commands, 1 events, 7 types | { 'union': 'U', 'base': { 't': 'QType' }, 'discriminator': 't', 'data': { 'none': { 'type': 'int', 'if': 'X' } } }
2: bad-data x | ok 12 commands, 2 events, 7 types | { 'event': 'EV' }^{ 'alternate': 'A', 'data': { 'n': 'int', 'x': { 'type': 'any', 'if': 'X' } } }
2: bad-data int | ok 13 commands, 1 events, 6 types | { 'command': 'c' }^{ 'command': 'd', 'data': 'int', 'if': 'X' }
1: kind-clash b | ok 12 commands, 1 events, 7 types | { 'alternate': 'A', 'data': { 'a': 'int', 'b': { 'type': 'number', 'if': 'X' }, 's': 'str' } }
1: kind-clash g | ok 12 commands, 1 events, 7 types | { 'alternate': 'A', 'data': { 'a': 'null', 'b': 'bool', 'c': 'int', 'd': 'str', 'e': [ 'int' ], 'f': 'JobInfo', 'g': { 'type': 'QType', 'if': 'X' } } }
1: kind-clash b | ok 12 commands, 1 events, 7 types | { 'alternate': 'A', 'data': { 'a': { 'type': 'int', 'if': 'X' }, 'b': 'number' } }
1: base-cycle A | ok 12 commands, 1 events, 6 types | { 'struct': 'A', 'base': 'A', 'data': {}, 'if': 'X' }
2: base-cycle U | ok 12 commands, 1 events, 8 types | { 'struct': 'S', 'data': {} }^{ 'union': 'U', 'base': { 't': 'QType' }, 'discriminator': 't', 'data': { 'none': 'S', 'qbool': { 'type': 'U', 'if': 'X' } } }
1: member-clash x | ok 12 commands, 1 events, 8 types | { 'struct': 'A', 'base': 'B', 'data': { 'x': { 'type': 'int', 'if': 'X' }, 'y': 'int' } }^{ 'struct': 'B', 'data': { 'x': 'int' } }
3: member-clash t | ok 12 commands, 1 events, 9 types | { 'struct': 'S', 'data': { 'y': 'int' } }^{ 'struct': 'T', 'data': { 'y': 'int', 't': { 'type': 'int', 'if': 'X' } } }^{ 'union': 'U', 'base': { 't': 'QType' }, 'discriminator': 't', 'data': { 'none': 'S', 'qbool': 'T' } }
";
