ghost use Rattle.std.specs.Prelude.{◌≡◌, IfOk, IfErr, Ok};
ghost use Rattle.qapi_load.specs.Loading.{include_fault, memory_fault, read_fault};

use crate::reading::Place;
use qapi_lex::LexFault;
use qapi_tree::TreeRule;
use qm_base::{NoMemory, Text};
use std::alloc::Global;

/// How many files a schema may have.
pub const MOST_FILES: usize = 256;

/// Which rule of loading was broken.
#[derive(Clone, Copy, PartialEq, Eq, Debug, Drop)]
pub enum LoadRule {
    /// The library has no file of the name.
    NoFile,
    /// The file is included while it is still being read.
    IncludeCycle,
    /// It would be one file more than a schema may have.
    TooManyFiles,
    /// The text of the file has no tokens.
    Lex(LexFault),
    /// The tokens of the file are no expressions.
    Tree(TreeRule),
    /// Reading a file failed.
    ReadFault,
    /// No memory was left.
    Memory,
}

/// Why the files of a schema were not loaded.
#[derive(Debug, Drop)]
pub struct LoadFault {
    /// The rule that was broken.
    pub rule: LoadRule,
    /// The file in which it was broken.
    pub file: Text,
    /// The line in that file, or 0.
    pub line: u32,
    /// What the rule is about: a file's full name, or a key.
    pub name: Text,
}

impl LoadFault {
    /// No memory was left.
    pub fn memory(alloc: Global) -> LoadFault
        ensures { result ≡ memory_fault }
    {
        LoadFault {
            rule: LoadRule::Memory,
            file: Text::new(alloc),
            line: 0,
            name: Text::new(alloc),
        }
    }
}

/// The fault of an included file.
pub fn refused(rule: LoadRule, place: Place, name: Text) -> LoadFault
    ensures { result ≡ include_fault rule place name }
{
    LoadFault {
        rule,
        file: place.file,
        line: place.line,
        name,
    }
}

/// The fault of a file that could not be read.
pub fn unread(alloc: Global, file: Text) -> LoadFault
    ensures { result ≡ read_fault file }
{
    LoadFault {
        rule: LoadRule::ReadFault,
        file,
        line: 0,
        name: Text::new(alloc),
    }
}

/// A value, if there was memory for it.
pub fn owned<T>(alloc: Global, value: Result<T, NoMemory>) -> Result<T, LoadFault>
    ensures ok { IfOk result (λ found. value ≡ Ok found) }
    ensures err { IfErr result (λ fault. fault ≡ memory_fault) }
{
    match value {
        Ok(found) => Ok(found),
        Err(NoMemory) => Err(LoadFault::memory(alloc)),
    }
}

/// The limit, as a number.
pub fn most_files_is_this()
    ensures { MOST_FILES ≡ 256 }
{}
