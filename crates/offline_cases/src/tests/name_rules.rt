//! Schemas that break the rules of names, and of references to types.

/// Names inside definitions: first the definition's, then those inside in the order of the text.
pub const NAMES: &str = "\
W | ok 12 commands, 1 events, 6 types | \n\
W | ok 13 commands, 2 events, 10 types | { 'enum': 'E', 'data': [ 'a' ] }^{ 'struct': 'S', 'data': { 'm': 'E' } }^{ 'union': 'U', 'base': { 't': 'E' }, 'discriminator': 't', 'data': { 'a': 'S' } }^{ 'alternate': 'A', 'data': { 's': 'str', 'o': 'U' } }^{ 'command': 'c', 'data': 'U', 'boxed': true, 'returns': [ 'A' ] }^{ 'event': 'EV', 'data': 'S' }
W | 1: bad-name 1a | { 'struct': '1a', 'data': { '1b': 'int' } }
W | 1: bad-name 1b | { 'struct': 'A', 'data': { 'ok': 'int', '*1b': 'int' } }
W | 1: bad-name 1f | { 'features': [ '1f' ], 'struct': 'A', 'data': { '1b': 'int' } }
W | 1: bad-name 1b | { 'struct': 'A', 'data': { '1b': 'int' }, 'features': [ '1f' ] }
W | 1: bad-name -f | { 'struct': 'A', 'data': { 'b': { 'type': 'int', 'features': [ 'g', '-f' ] } } }
W | 1: bad-name q_f | { 'enum': 'A', 'data': [ '1', { 'features': [ 'q_f' ], 'name': '-' } ] }
W | 1: bad-name - | { 'enum': 'A', 'data': [ '1', { 'name': '-', 'features': [ 'q_f' ] } ] }
W | 1: bad-name A | { 'struct': '*A', 'data': {} }
W | 1: bad-name  | { 'struct': '', 'data': {} }
W | 1: bad-name  | { 'struct': 'A', 'data': { '*': 'int' } }
W | ok 12 commands, 1 events, 7 types | { 'struct': '~', 'data': {} }
";

/// How names are formed: at their limits, reserved, or of a domain.
pub const FORMS: &str = "\
W | 1: bad-name ~a | { 'struct': '~a', 'data': {} }
W | ok 12 commands, 1 events, 7 types | { 'struct': '__com.example_x', 'data': { '__a-1_b': 'int', 'a-_9': 'int' } }
W | 1: bad-name __com.example_9 | { 'struct': '__com.example_9', 'data': {} }
W | ok 12 commands, 1 events, 7 types | { 'enum': 'A', 'data': [ '9', '__com.example_9', '9-_' ] }
W | 1: bad-name ___x | { 'struct': '___x', 'data': {} }
W | 1: bad-name _x | { 'struct': '_x', 'data': {} }
W | 1: bad-name a.b | { 'struct': 'a.b', 'data': {} }
W | 1: bad-name q_a | { 'struct': 'q_a', 'data': {} }
W | ok 12 commands, 1 events, 7 types | { 'struct': 'Q_a', 'data': { 'q': 'int', 'a_q_': 'int' } }
W | 3: bad-name b! | { 'enum': 'E', 'data': [ 'a', 'b' ] }^{ 'struct': 'S', 'data': {} }^{ 'union': 'U', 'base': { 't': 'E' }, 'discriminator': 't', 'data': { 'a': 'S', 'b!': 'S' } }
W | 1: bad-name ? | { 'alternate': 'A', 'data': { 'a': 'int', '?': 'str' } }
";

/// What else a definition is judged by alone, and types that are none.
pub const ALONE: &str = "\
W | 1: no-success-response c | { 'command': 'c', 'success-response': false }
W | 2: redefined str | { 'command': 'c', 'success-response': true }^{ 'command': 'str' }
W | 1: redefined QType | { 'enum': 'QType', 'data': [] }
W | 2: redefined E | { 'enum': 'E', 'data': [ 'a', 'b' ] }^{ 'event': 'E' }
W | 1: member-clash a | { 'struct': 'A', 'data': { 'a': 'int', '*a': 'int' } }
W | 1: member-clash b | { 'enum': 'A', 'data': [ 'a', 'b', 'b', 'a' ] }
W | 1: member-clash f | { 'enum': 'A', 'data': [ 'a', { 'features': [ 'f', 'f' ], 'name': 'a' } ] }
W | 1: member-clash a | { 'enum': 'A', 'data': [ 'a', { 'name': 'a', 'features': [ 'f', 'f' ] } ] }
W | 1: member-clash a | { 'command': 'c', 'features': [ 'a', 'b', { 'name': 'a' } ] }
W | 1: member-clash m | { 'struct': 'A', 'data': { 'm': { 'type': 'int', 'features': [ 'm', 'A' ] }, 'n': { 'type': 'int', 'features': [ 'm', 'm' ] } } }
W | 1: unknown-type Foo | { 'struct': 'A', 'data': { 'b': 'Foo' } }
W | 1: unknown-type Foo | { 'struct': 'A', 'data': { 'b': 'A', 'c': [ 'Foo' ] }, 'base': 'Bar' }
W | 1: unknown-type Bar | { 'struct': 'A', 'base': 'Bar', 'data': { 'c': [ 'Foo' ] } }
W | 1: unknown-type c | { 'command': 'c', 'returns': 'c' }
W | 1: unknown-type str | { 'event': 'EV', 'data': '*str' }
W | 1: unknown-type quit | { 'alternate': 'A', 'data': { 's': 'str', 'x': 'quit' } }
W | ok 12 commands, 1 events, 7 types | { 'struct': 'A', 'data': { 'x': 'JobInfo' }, 'base': 'VersionInfo' }
";
