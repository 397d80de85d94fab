ghost use Rattle.std.specs.Prelude.{◌≡◌, ◌≢◌, [], Err};
ghost use Rattle.qapi_lex.specs.Tokens.{tokens_of};
ghost use Rattle.qapi_load.specs.Loading.{fault_at, line_of, memory_fault, tokens_in};

use crate::fault::{LoadFault, LoadRule, owned};
use qapi_lex::{LexFault, lex};
use qapi_tree::{TreeFault, TreeList, TreeRule, parse};
use qm_base::Text;
use std::alloc::Global;

/// A fault of a file, if there is memory for its name.
fn fault_in(alloc: Global, rule: LoadRule, file: &[u8], line: u32, name: Text) -> LoadFault
    ensures { result ≢ memory_fault → result ≡ fault_at rule file.now line name }
{
    match owned(alloc, Text::of(alloc, file)) {
        Ok(file) => LoadFault {
            rule,
            file,
            line,
            name,
        },
        Err(fault) => fault,
    }
}

/// The fault of a file's tokens.
fn lexical(alloc: Global, file: &[u8], fault: LexFault) -> LoadFault
    ensures { result ≢ memory_fault →
        (fault ≢ LexFault.Memory) × (result ≡ fault_at (LoadRule.Lex fault) file.now (line_of fault) []) }
{
    let line = match fault {
        LexFault::BadByte(line) | LexFault::BadEscape(line) | LexFault::Unclosed(line) => line,
        LexFault::Memory => return LoadFault::memory(alloc),
    };
    fault_in(alloc, LoadRule::Lex(fault), file, line, Text::new(alloc))
}

/// The fault of a file's expressions.
fn structural(alloc: Global, file: &[u8], fault: TreeFault) -> LoadFault
    ensures { result ≢ memory_fault →
        (fault.rule ≢ TreeRule.Memory) × (result ≡ fault_at (LoadRule.Tree fault.rule) file.now fault.line fault.name) }
{
    if fault.rule == TreeRule::Memory {
        return LoadFault::memory(alloc);
    }
    fault_in(
        alloc,
        LoadRule::Tree(fault.rule),
        file,
        fault.line,
        fault.name,
    )
}

/// The expressions of a file's text.
pub fn expressions(alloc: Global, file: &[u8], text: &[u8]) -> Result<TreeList, LoadFault>
    ensures { result ≢ Err memory_fault → result ≡ tokens_in file.now (tokens_of text.now) }
{
    match lex(alloc, text) {
        Ok(tokens) => match parse(alloc, &tokens) {
            Ok(exprs) => Ok(exprs),
            Err(fault) => Err(structural(alloc, file, fault)),
        },
        Err(fault) => Err(lexical(alloc, file, fault)),
    }
}
