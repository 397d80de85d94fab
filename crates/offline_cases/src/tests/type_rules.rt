//! Schemas that break the rules of bases, branches, cycles and clashes.

/// Bases, discriminators, branches and data.
pub const REFERENCES: &str = "\
W | 2: bad-base E | { 'enum': 'E', 'data': [ 'a', 'b' ] }^{ 'struct': 'A', 'base': 'E', 'data': {} }
W | 1: bad-base int | { 'struct': 'A', 'base': 'int', 'data': {} }
W | 2: bad-discriminator u | { 'enum': 'E', 'data': [ 'a', 'b' ] }^{ 'union': 'U', 'base': { 't': 'E' }, 'discriminator': 'u', 'data': {} }
W | 2: bad-discriminator t | { 'enum': 'E', 'data': [ 'a', 'b' ] }^{ 'union': 'U', 'base': { '*t': 'E' }, 'discriminator': 't', 'data': {} }
W | 2: bad-discriminator t | { 'enum': 'E', 'data': [ 'a', 'b' ] }^{ 'union': 'U', 'base': { 't': 'str' }, 'discriminator': 't', 'data': {} }
W | 2: bad-discriminator t | { 'enum': 'E', 'data': [ 'a', 'b' ] }^{ 'union': 'U', 'base': { 't': [ 'E' ] }, 'discriminator': 't', 'data': {} }
W | 2: member-clash t | { 'enum': 'E', 'data': [ 'a', 'b' ] }^{ 'union': 'U', 'base': 'B', 'discriminator': 't', 'data': { 'b': 'B' } }^{ 'struct': 'B', 'base': 'BB', 'data': {} }^{ 'struct': 'BB', 'data': { 't': 'E' } }
W | ok 12 commands, 1 events, 11 types | { 'enum': 'E', 'data': [ 'a', 'b' ] }^{ 'struct': 'S', 'data': {} }^{ 'union': 'U', 'base': 'B', 'discriminator': 't', 'data': { 'b': 'S' } }^{ 'struct': 'B', 'base': 'BB', 'data': {} }^{ 'struct': 'BB', 'data': { 't': 'E' } }
W | ok 12 commands, 1 events, 8 types | { 'struct': 'S', 'data': {} }^{ 'union': 'U', 'base': { 't': 'QType' }, 'discriminator': 't', 'data': { 'qnull': 'S', 'qbool': 'S' } }
W | 3: unknown-branch c | { 'enum': 'E', 'data': [ 'a', 'b' ] }^{ 'struct': 'S', 'data': {} }^{ 'union': 'U', 'base': { 't': 'E' }, 'discriminator': 't', 'data': { 'a': 'S', 'c': 'S' } }
W | 2: bad-data b | { 'enum': 'E', 'data': [ 'a', 'b' ] }^{ 'union': 'U', 'base': { 't': 'E' }, 'discriminator': 't', 'data': { 'b': 'E' } }
W | 3: bad-data b | { 'enum': 'E', 'data': [ 'a', 'b' ] }^{ 'struct': 'S', 'data': {} }^{ 'union': 'U', 'base': { 't': 'E' }, 'discriminator': 't', 'data': { 'a': 'S', 'b': [ 'S' ] } }
W | 1: bad-data x | { 'alternate': 'A', 'data': { 'n': 'int', 'x': 'any' } }
W | 1: bad-data x | { 'alternate': 'A', 'data': { 'n': 'int', 'x': 'A' } }
W | ok 12 commands, 1 events, 7 types | { 'alternate': 'A', 'data': { 'n': 'int', 'x': [ 'any' ], 'y': 'null', 'z': 'bool', 's': 'QType', 'o': 'JobInfo' } }
W | 1: bad-data int | { 'command': 'c', 'data': 'int' }
W | 1: bad-data JobStatus | { 'event': 'EV', 'data': 'JobStatus' }
W | 3: bad-data U | { 'enum': 'E', 'data': [ 'a', 'b' ] }^{ 'union': 'U', 'base': { 't': 'E' }, 'discriminator': 't', 'data': {} }^{ 'command': 'c', 'data': 'U', 'boxed': false }
W | 1: kind-clash b | { 'alternate': 'A', 'data': { 'a': 'int8', 'b': 'number' } }
W | 2: kind-clash c | { 'enum': 'E', 'data': [ 'a', 'b' ] }^{ 'alternate': 'A', 'data': { 'a': 'bool', 'b': 'E', 'c': 'str' } }
W | 1: kind-clash c | { 'alternate': 'A', 'data': { 'a': [ 'int' ], 'b': 'JobInfo', 'c': [ 'str' ] } }
";

/// Cycles; clashes of base members, own members and then each branch with all that it brings; and
/// two faults: pass by pass, in a pass definition by definition, in a definition rule by rule.
pub const ORDER: &str = "\
W | 1: base-cycle A | { 'struct': 'A', 'base': 'A', 'data': {} }
W | 2: base-cycle A | { 'struct': 'X', 'base': 'A', 'data': {} }^{ 'struct': 'A', 'base': 'B', 'data': {} }^{ 'struct': 'B', 'base': 'A', 'data': {} }
W | 2: base-cycle U | { 'enum': 'E', 'data': [ 'a', 'b' ] }^{ 'union': 'U', 'base': { 't': 'E' }, 'discriminator': 't', 'data': { 'a': 'V' } }^{ 'union': 'V', 'base': { 'u': 'E' }, 'discriminator': 'u', 'data': { 'b': 'U' } }
W | ok 12 commands, 1 events, 7 types | { 'struct': 'A', 'data': { 'a': 'A', 'b': [ 'A' ] } }
W | 2: member-clash x | { 'struct': 'B', 'data': { 'x': 'int' } }^{ 'struct': 'A', 'base': 'B', 'data': { '*x': 'int' } }
W | 3: member-clash t | { 'enum': 'E', 'data': [ 'a', 'b' ] }^{ 'struct': 'S1', 'data': { 't': 'int' } }^{ 'union': 'U', 'base': { 't': 'E' }, 'discriminator': 't', 'data': { 'b': 'S1' } }
W | 4: member-clash x | { 'enum': 'E', 'data': [ 'a', 'b' ] }^{ 'struct': 'S1', 'data': { 'x': 'int' } }^{ 'union': 'V', 'base': { 'u': 'E' }, 'discriminator': 'u', 'data': { 'b': 'S1' } }^{ 'union': 'U', 'base': { 't': 'E', 'x': 'int' }, 'discriminator': 't', 'data': { 'a': 'S1', 'b': 'V' } }
W | 5: member-clash x | { 'enum': 'E', 'data': [ 'a', 'b' ] }^{ 'struct': 'S1', 'data': { 'y': 'int' } }^{ 'struct': 'S2', 'data': { 'x': 'int' } }^{ 'union': 'V', 'base': { 'u': 'E', 'y': 'int' }, 'discriminator': 'u', 'data': { 'a': 'S2', 'b': 'S2' } }^{ 'union': 'U', 'base': { 't': 'E', 'x': 'int' }, 'discriminator': 't', 'data': { 'a': 'S1', 'b': 'V' } }
W | ok 12 commands, 1 events, 9 types | { 'enum': 'E', 'data': [ 'a', 'b' ] }^{ 'struct': 'S1', 'data': { 'x': 'int' } }^{ 'union': 'U', 'base': { 't': 'E' }, 'discriminator': 't', 'data': { 'a': 'S1', 'b': 'S1' } }
W | 2: bad-name 1 | { 'struct': 'A', 'data': { 'b': 'Foo' } }^{ 'struct': 'B', 'data': { '1': 'int' } }
W | 2: unknown-type Foo | { 'struct': 'A', 'base': 'A', 'data': {} }^{ 'struct': 'B', 'data': { 'b': 'Foo' } }
W | 3: base-cycle C | { 'struct': 'B', 'data': { 'x': 'int' } }^{ 'struct': 'A', 'base': 'B', 'data': { 'x': 'int' } }^{ 'struct': 'C', 'base': 'C', 'data': {} }
W | 1: member-clash b | { 'struct': 'A', 'data': { 'b': 'int', '*b': 'int' } }^{ 'struct': 'A', 'data': { '1': 'int' } }
W | 1: bad-name 1 | { 'struct': 'str', 'data': { 'a': 'int', '*a': 'int', '1': 'int' } }
W | 1: redefined str | { 'struct': 'str', 'data': { 'a': 'int', '*a': 'int' } }
W | 2: unknown-type Foo | { 'enum': 'E', 'data': [ 'a', 'b' ] }^{ 'struct': 'A', 'base': 'E', 'data': { 'x': 'Foo' } }
";
