//! Texts of schemas, and the expressions or the first fault of each.

use crate::rows::{Asked, other_answers};
use qapi_lex::{TokenList, lex};
use qapi_tree::{Expr, Tree, TreeFault, TreeList, TreeRule, parse};
use std::test::Fail;

const TOKENS: &str = "\
ok 0 | # a comment^# alone
syntax 2  | {^'a'^^
syntax 1  | { 'a': [
syntax 2  | ^true
syntax 1  | { 'struct': 'A', 'data': {} },
syntax 1  | { 'a' 'b' }
syntax 1  | { 'a': 'b', }
syntax 1  | { true: 'a' }
syntax 1  | { 'a': [ 'b', ] }
syntax 1  | { 'a': [ 'b' } }
duplicate-key 3 b | { 'x': true }^{ 'a': [ { 'b': '',^ 'c': '', 'b' } ] }
duplicate-key 1 a | { 'x': true } { 'pragma': { 'a': true, 'a': true } }
";

const KINDS: &str = "\
syntax 1  | { 'data': 'a' }
syntax 2  | ^{ 'enum': 'A',^ 'struct': 'B' }
ok 1 | { 'include': 'a.json' }
unknown-key 1 if | { 'include': 'a.json', 'if': 'A' }
ok 1 | { 'pragma': { 'a': [ [ true ] ] } }
ok 1 | { 'enum': 'A', 'data': [ 'a' ], 'prefix': 'B', 'if': 'C', 'features': [ 'd' ] }
missing-key 1 data | { 'enum': 'A' }
ok 1 | { 'struct': 'A', 'data': {}, 'base': 'B', 'if': 'C', 'features': [] }
missing-key 1 base | { 'union': 'A' }
missing-key 1 discriminator | { 'union': 'A', 'data': [], 'base': 'B' }
ok 1 | { 'union': 'A', 'base': 'B', 'discriminator': 't', 'data': {}, 'if': 'C', 'features': [] }
ok 1 | { 'alternate': 'A', 'data': { 'a': 'str' }, 'if': 'C', 'features': [] }
ok 1 | { 'command': 'a', 'data': 'B', 'returns': [ 'C' ], 'boxed': true, 'gen': false }
ok 1 | { 'command': 'a', 'allow-oob': true, 'allow-preconfig': true, 'coroutine': true }
ok 1 | { 'command': 'a', 'success-response': false, 'if': 'C', 'features': [] }
ok 1 | { 'event': 'A', 'data': { 'a': 'int' }, 'boxed': false, 'if': 'C', 'features': [] }
unknown-key 3 x | { 'command': 'a' }\r^# \u{e9}\r^{ 'x': true,\r^ 'event': 'B', 'y': true }
wrong-shape 1 if | { 'if': true, 'command': true } { 'a': true }
";

const SHAPES: &str = "\
ok 1 | { 'enum': 'A', 'data': [ 'a', { 'name': 'b', 'if': 'C', 'features': [ 'd' ] } ] }
wrong-shape 1 data | { 'enum': 'A', 'data': [ {} ] }
wrong-shape 1 prefix | { 'enum': 'A', 'data': [], 'prefix': false }
ok 1 | { 'struct': 'A', 'data': { 'a': 'b', '*c': [ 'd' ], 'if': 'e', 'data': 'f' } }
ok 1 | { 'struct': 'A', 'data': { '': { 'type': 'a', 'if': { 'not': 'B' }, 'features': [] } } }
wrong-shape 1 data | { 'struct': 'A', 'data': { 'a': [ 'b', 'c' ] } }
wrong-shape 1 data | { 'struct': 'A', 'data': { 'a': { 'type': 'b', 'x': 'c' } } }
wrong-shape 1 base | { 'struct': 'A', 'data': {}, 'base': {} }
ok 1 | { 'union': 'A', 'data': {}, 'discriminator': 'b', 'base': { '*d': { 'type': 'e' } } }
ok 1 | { 'alternate': 'A', 'data': { 'e': { 'type': 'F', 'if': 'G' } } }
wrong-shape 1 data | { 'alternate': 'A', 'data': { 'c': { 'type': 'D', 'features': [] } } }
wrong-shape 1 data | { 'command': 'a', 'data': [ 'B' ] }
wrong-shape 1 returns | { 'command': 'a', 'returns': [ true ] }
wrong-shape 1 coroutine | { 'command': 'a', 'coroutine': 'a' }
ok 1 | { 'event': 'A', 'features': [ 'b', { 'name': 'c' }, { 'if': 'D', 'name': 'e' } ] }
wrong-shape 1 features | { 'event': 'A', 'features': [ { 'name': 'c', 'features': [] } ] }
ok 1 | { 'event': 'A', 'if': { 'any': [ 'B', { 'not': { 'all': [ 'C', 'D' ] } } ] } }
wrong-shape 1 if | { 'event': 'A', 'if': {} }
wrong-shape 1 if | { 'event': 'A', 'if': { 'all': [], 'any': [] } }
wrong-shape 1 if | { 'event': 'A', 'if': { 'any': [ 'B', { 'not': { 'all': [ true ] } } ] } }
";

/// How a table writes the rule.
pub fn word_of(rule: TreeRule) -> &'static str {
    match rule {
        TreeRule::Syntax => "syntax",
        TreeRule::UnknownKey => "unknown-key",
        TreeRule::MissingKey => "missing-key",
        TreeRule::DuplicateKey => "duplicate-key",
        TreeRule::WrongShape => "wrong-shape",
        TreeRule::Memory => "memory",
    }
}

fn tokens(rt: &impl AllocGlobal, text: &[u8]) -> Result<TokenList, Fail> {
    Ok(lex(rt.alloc(), text)?)
}

fn read(rt: &impl AllocGlobal, text: &[u8]) -> Result<Result<TreeList, TreeFault>, Fail> {
    let tokens = tokens(rt, text)?;
    Ok(parse(rt.alloc(), &tokens))
}

fn counted(rt: &impl AllocGlobal, exprs: &TreeList) -> Result<String, Fail> {
    Ok(format!(in rt.alloc(); "ok {} ", exprs.len())?)
}

fn told(rt: &impl AllocGlobal, fault: &TreeFault) -> Result<String, Fail> {
    let name = str::from_utf8(fault.name.as_slice())?;
    Ok(format!(in rt.alloc(); "{} {} {} ", word_of(fault.rule), fault.line, name)?)
}

/// How many expressions the text has, or its first fault.
pub fn answer(rt: &impl AllocGlobal, text: &[u8]) -> Result<String, Fail> {
    match read(rt, text)? {
        Ok(exprs) => counted(rt, &exprs),
        Err(fault) => told(rt, &fault),
    }
}

#[test]
fn each_text_has_its_answer(rt: HostRuntime) -> Result<(), Fail> {
    assert_eq!(rt;
        other_answers(&rt, Asked::Expressions, TOKENS)?.as_str(),
        ""
    );
    assert_eq!(rt; other_answers(&rt, Asked::Expressions, KINDS)?.as_str(), "");
    assert_eq!(rt;
        other_answers(&rt, Asked::Expressions, SHAPES)?.as_str(),
        ""
    );
    let wrong = "ok 7 | {}\n";
    assert_eq!(rt;
        other_answers(&rt, Asked::Expressions, wrong)?.as_str(),
        wrong
    );
    Ok(())
}

/// Each key, with its value where that is a string.
fn put_members(out: &mut Vec<u8>, expr: &Expr) -> Result<(), Fail> {
    for member in expr.keys.as_slice() {
        out.extend_from_slice(member.key.as_slice())?;
        if let Tree::Str(text) = &member.tree {
            out.extend_from_slice(text.as_slice())?;
        }
    }
    Ok(())
}

/// The line of each expression, and its members.
fn members(rt: &impl AllocGlobal, text: &[u8]) -> Result<Vec<u8>, Fail> {
    let mut out = Vec::new(rt.alloc());
    if let Ok(exprs) = read(rt, text)? {
        for expr in exprs.as_slice() {
            out.extend_from_slice(format!(in rt.alloc(); "{}", expr.line)?.as_bytes())?;
            put_members(&mut out, expr)?;
        }
    }
    Ok(out)
}

#[test]
fn members_stand_in_their_order(rt: HostRuntime) -> Result<(), Fail> {
    let text = b"\n{ 'data': { 'b': 'c' },\n 'struct': 'E' }\n{ 'gen': true, 'command': 'x\\\\y' }";
    let out = members(&rt, text)?;
    assert_eq!(rt; out.as_slice(), b"2datastructE4gencommandx\\y".as_slice());
    Ok(())
}
