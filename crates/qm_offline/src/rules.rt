//! The words for the rules of a schema, and the lines that tell its faults.
ghost use Rattle.std.specs.Prelude.{◌≡◌, ◌++◌, OnOk, IfOk};
ghost use Rattle.std.specs.Option.{option_copied};
ghost use Rattle.qm_offline.specs.Rules.{lex_word as lex_word_of, tree_word as tree_word_of, load_word as load_word_of, check_word as check_word_of, is_syntax as is_syntax_rule, is_nameless as is_nameless_rule, name_printed};
ghost use Rattle.qm_offline.specs.Output.{behind, schema_line as schema_line_of, load_line as load_line_of, check_line as check_line_of};

use itoa::Buffer;
use qapi_lex::LexFault;
use qapi_load::{LoadFault, LoadRule};
use qapi_rules::{CheckFault, CheckRule};
use qapi_tree::TreeRule;
use qm_base::{NoMemory, Text};
use std::alloc::Global;

fn lex_word(fault: LexFault) -> &'static [u8]
    ensures { result.now ≡ lex_word_of fault }
{
    match fault {
        LexFault::BadByte(_) => b"bad-byte",
        LexFault::BadEscape(_) => b"bad-escape",
        LexFault::Unclosed(_) => b"unclosed",
        LexFault::Memory => b"memory",
    }
}

fn tree_word(rule: TreeRule) -> &'static [u8]
    ensures { result.now ≡ tree_word_of rule }
{
    match rule {
        TreeRule::Syntax => b"syntax",
        TreeRule::UnknownKey => b"unknown-key",
        TreeRule::MissingKey => b"missing-key",
        TreeRule::DuplicateKey => b"duplicate-key",
        TreeRule::WrongShape => b"wrong-shape",
        TreeRule::Memory => b"memory",
    }
}

fn load_word(rule: LoadRule) -> &'static [u8]
    ensures { result.now ≡ load_word_of rule }
{
    match rule {
        LoadRule::NoFile => b"no-file",
        LoadRule::IncludeCycle => b"include-cycle",
        LoadRule::TooManyFiles => b"too-many-files",
        LoadRule::Lex(fault) => lex_word(fault),
        LoadRule::Tree(rule) => tree_word(rule),
        LoadRule::ReadFault => b"read-fault",
        LoadRule::Memory => b"memory",
    }
}

fn check_word(rule: CheckRule) -> &'static [u8]
    ensures { result.now ≡ check_word_of rule }
{
    match rule {
        CheckRule::BadName => b"bad-name",
        CheckRule::Redefined => b"redefined",
        CheckRule::NoSuccessResponse => b"no-success-response",
        CheckRule::MemberClash => b"member-clash",
        CheckRule::UnknownType => b"unknown-type",
        CheckRule::BadBase => b"bad-base",
        CheckRule::BadDiscriminator => b"bad-discriminator",
        CheckRule::UnknownBranch => b"unknown-branch",
        CheckRule::KindClash => b"kind-clash",
        CheckRule::BadData => b"bad-data",
        CheckRule::BaseCycle => b"base-cycle",
        CheckRule::Memory => b"memory",
    }
}

fn is_syntax(rule: TreeRule) -> bool
    ensures { result ≡ is_syntax_rule rule }
{
    match rule {
        TreeRule::Syntax => true,
        TreeRule::UnknownKey
        | TreeRule::MissingKey
        | TreeRule::DuplicateKey
        | TreeRule::WrongShape
        | TreeRule::Memory => false,
    }
}

fn is_nameless(rule: LoadRule) -> bool
    ensures { result ≡ is_nameless_rule rule }
{
    match rule {
        LoadRule::Lex(_) => true,
        LoadRule::Tree(rule) => is_syntax(rule),
        LoadRule::NoFile
        | LoadRule::IncludeCycle
        | LoadRule::TooManyFiles
        | LoadRule::ReadFault
        | LoadRule::Memory => false,
    }
}

fn printed_name(fault: &LoadFault) -> Option<&[u8]>
    ensures { option_copied result ≡ name_printed fault.now }
{
    if is_nameless(fault.rule) {
        None
    } else {
        Some(fault.name.as_slice())
    }
}

fn extend_behind(line: &mut Text, name: Option<&[u8]>) -> Result<(), NoMemory>
    ensures { OnOk result (line.new ≡ line.old ++ behind (option_copied name.entry)) }
{
    let Some(name) = name else {
        return Ok(());
    };
    line.push(b' ')?;
    line.extend(name)
}

fn schema_line(
    alloc: Global,
    file: &[u8],
    number: u32,
    word: &[u8],
    name: Option<&[u8]>,
) -> Result<Text, NoMemory>
    ensures { IfOk result (λ line. line ≡ schema_line_of file.now number word.now (option_copied name.entry)) }
{
    let mut buffer = Buffer::new();
    let mut line = Text::of(alloc, b"error: schema ")?;
    line.extend(file)?;
    line.extend(b" line ")?;
    line.extend(buffer.format(number).as_bytes())?;
    line.extend(b": ")?;
    line.extend(word)?;
    extend_behind(&mut line, name)?;
    line.push(b'\n')?;
    Ok(line)
}

/// The line of a fault of a schema's files. Rules of tokens and `syntax` are told without a name;
/// with another rule, an empty name leaves a blank at the end.
pub fn load_line(alloc: Global, fault: &LoadFault) -> Result<Text, NoMemory>
    ensures { IfOk result (λ line. line ≡ load_line_of fault.now) }
{
    let word = load_word(fault.rule);
    schema_line(
        alloc,
        fault.file.as_slice(),
        fault.line,
        word,
        printed_name(fault),
    )
}

/// The line of a fault of a schema's definitions. An empty name leaves a blank at the end.
pub fn check_line(alloc: Global, fault: &CheckFault) -> Result<Text, NoMemory>
    ensures { IfOk result (λ line. line ≡ check_line_of fault.now) }
{
    let word = check_word(fault.rule);
    let name = Some(fault.name.as_slice());
    schema_line(alloc, fault.file.as_slice(), fault.line, word, name)
}
