//! Words in the grammar of command lines, and outside.

/// Words that replay `a.script`, which is empty.
pub const LAWFUL: &str = "\
replay a.script
replay --journal=4 a.script
replay --workers 32 a.script
replay --workers=01 --define A,B a.script --journal 7
replay -- a.script
replay --journal 4 -- a.script
replay --define=-A a.script
replay --define== a.script
";

/// Words that are outside the grammar; the last line has none.
pub const OUTSIDE: &str = "\
-- replay a.script
--journal 4 replay a.script
replay --journal 4 --journal 4 a.script
replay --journal= a.script
replay --journal -4 a.script
replay --define '' a.script
replay --define -- a.script
replay ''
replay -
replay --help
replay --jour 4 a.script
replay --workers=33 a.script
replay a.script a.script
replay -- a.script --journal=4
replay --bind b.json --bind b.json a.script
replay --bind '' a.script
check a.script
check --bind
check --schema
check --schema s.json --schema=s.json
introspect a.script
introspect --schema
serve s
drill 4
replay
replay --journal 0 a.script
replay --journal 1000001 a.script
replay --journal 00000004 a.script
replay a.script --journal
replay --workers 0 x
replay --journal 4 a.script x

";
