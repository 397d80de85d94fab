//! The lines that tell why a command line is not run.

use super::USAGE;
use qapi_lex::LexFault;
use qapi_load::{LoadFault, LoadRule};
use qapi_rules::{CheckFault, CheckRule};
use qapi_tree::TreeRule;
use qm_base::{CallList, Text};
use qm_link::MemorySink;
use qm_offline::{Refusal, report};
use std::alloc::Global;
use std::test::Fail;

/// Each rule of a schema's files.
const LOADING: &[LoadRule] = &[
    LoadRule::NoFile,
    LoadRule::IncludeCycle,
    LoadRule::TooManyFiles,
    LoadRule::Lex(LexFault::BadByte(7)),
    LoadRule::Lex(LexFault::BadEscape(7)),
    LoadRule::Lex(LexFault::Unclosed(7)),
    LoadRule::Tree(TreeRule::Syntax),
    LoadRule::Tree(TreeRule::UnknownKey),
    LoadRule::Tree(TreeRule::MissingKey),
    LoadRule::Tree(TreeRule::DuplicateKey),
    LoadRule::Tree(TreeRule::WrongShape),
];

/// The status and the line of each, for the name `n` in line 7 of `d/a.json`.
const LOADING_LINES: &str = "\
3 error: schema d/a.json line 7: no-file n
3 error: schema d/a.json line 7: include-cycle n
3 error: schema d/a.json line 7: too-many-files n
3 error: schema d/a.json line 7: bad-byte
3 error: schema d/a.json line 7: bad-escape
3 error: schema d/a.json line 7: unclosed
3 error: schema d/a.json line 7: syntax
3 error: schema d/a.json line 7: unknown-key n
3 error: schema d/a.json line 7: missing-key n
3 error: schema d/a.json line 7: duplicate-key n
3 error: schema d/a.json line 7: wrong-shape n
";

/// Each rule of a schema's definitions.
const CHECKING: &[CheckRule] = &[
    CheckRule::BadName,
    CheckRule::Redefined,
    CheckRule::NoSuccessResponse,
    CheckRule::MemberClash,
    CheckRule::UnknownType,
    CheckRule::BadBase,
    CheckRule::BadDiscriminator,
    CheckRule::UnknownBranch,
    CheckRule::KindClash,
    CheckRule::BadData,
    CheckRule::BaseCycle,
];

const CHECKING_LINES: &str = "\
3 error: schema d/a.json line 7: bad-name n
3 error: schema d/a.json line 7: redefined n
3 error: schema d/a.json line 7: no-success-response n
3 error: schema d/a.json line 7: member-clash n
3 error: schema d/a.json line 7: unknown-type n
3 error: schema d/a.json line 7: bad-base n
3 error: schema d/a.json line 7: bad-discriminator n
3 error: schema d/a.json line 7: unknown-branch n
3 error: schema d/a.json line 7: kind-clash n
3 error: schema d/a.json line 7: bad-data n
3 error: schema d/a.json line 7: base-cycle n
";

/// The status of a refusal, a blank, and what was put.
fn told(alloc: Global, refusal: &Refusal) -> Result<String, Fail> {
    let mut sink = MemorySink::new(alloc, CallList::new(alloc));
    let status = report(alloc, refusal, &mut sink);
    Ok(format!(in alloc; "{} {}", status, str::from_utf8(sink.taken())?)?)
}

fn told_loading(alloc: Global, rule: LoadRule) -> Result<String, Fail> {
    let fault = LoadFault {
        rule,
        file: Text::of(alloc, b"d/a.json")?,
        line: 7,
        name: Text::of(alloc, b"n")?,
    };
    told(alloc, &Refusal::Schema(fault))
}

fn told_checking(alloc: Global, rule: CheckRule, name: &[u8]) -> Result<String, Fail> {
    let fault = CheckFault {
        rule,
        file: Text::of(alloc, b"d/a.json")?,
        line: 7,
        name: Text::of(alloc, name)?,
    };
    told(alloc, &Refusal::Check(fault))
}

#[test]
fn each_rule_has_its_line(rt: HostRuntime) -> Result<(), Fail> {
    let mut lines = String::new(rt.alloc());
    for rule in LOADING {
        lines.push_str(told_loading(rt.alloc(), *rule)?.as_str())?;
    }
    assert_eq!(rt; lines.as_str(), LOADING_LINES);
    let mut lines = String::new(rt.alloc());
    for rule in CHECKING {
        lines.push_str(told_checking(rt.alloc(), *rule, b"n")?.as_str())?;
    }
    assert_eq!(rt; lines.as_str(), CHECKING_LINES);
    Ok(())
}

#[test]
fn other_refusals(rt: HostRuntime) -> Result<(), Fail> {
    let alloc = rt.alloc();
    let nameless = told_checking(alloc, CheckRule::BadName, b"")?;
    assert_eq!(rt;
        nameless.as_str(),
        "3 error: schema d/a.json line 7: bad-name \n"
    );
    let unread = told(alloc, &Refusal::Library(Text::of(alloc, b"b.json")?))?;
    assert_eq!(rt; unread.as_str(), "6 error: cannot read b.json\n");
    let outside = told(alloc, &Refusal::Words)?;
    assert!(rt; outside.as_str().strip_prefix("2 ") == Some(USAGE));
    assert_eq!(rt; told(alloc, &Refusal::Memory)?.as_str(), "1 ");
    Ok(())
}
