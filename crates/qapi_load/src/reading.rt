ghost use Rattle.std.specs.Prelude.{◌≡◌, OnOk};
ghost use Rattle.qm_base.specs.Names.{is_named as has_name};
ghost use Rattle.qapi_load.specs.Loading.{need_of, nothing_read, begin, finish, with_source};

use crate::fault::MOST_FILES;
use crate::source::{Source, SourceList};
use qapi_tree::Expr;
use qm_base::{GrowingList, NoMemory, Text};
use std::alloc::Global;

/// Where a file is included.
#[derive(Debug, Drop)]
pub struct Place {
    /// The including file.
    pub file: Text,
    /// The line there.
    pub line: u32,
}

/// What an include asks for.
#[derive(Clone, Copy, PartialEq, Eq, Debug, Drop)]
pub enum Need {
    /// The file was read whole.
    Nothing,
    /// The file is still being read.
    Cycle,
    /// The file is one too many.
    TooMany,
    /// The file is to be read.
    Wanted,
}

/// What was read of a schema so far.
#[derive(Debug, Drop)]
pub struct Reading {
    /// The expressions.
    pub sources: SourceList,
    /// The files whose reading was begun.
    pub begun: GrowingList<Text>,
    /// The files that were read whole.
    pub finished: GrowingList<Text>,
}

fn is_named(names: &[Text], name: &[u8]) -> bool
    ensures { result ≡ has_name names.now name.now }
{
    names.iter().any(|other| name == other.as_slice())
}

impl Reading {
    /// Nothing was read.
    pub fn new(alloc: Global) -> Reading
        ensures { result ≡ nothing_read }
    {
        Reading {
            sources: GrowingList::new(alloc),
            begun: GrowingList::new(alloc),
            finished: GrowingList::new(alloc),
        }
    }

    /// What an include of the file asks for.
    pub fn need(&self, name: &[u8]) -> Need
        ensures { result ≡ need_of self.now name.now }
    {
        if is_named(self.finished.as_slice(), name) {
            Need::Nothing
        } else if is_named(self.begun.as_slice(), name) {
            Need::Cycle
        } else if MOST_FILES <= self.begun.len() {
            Need::TooMany
        } else {
            Need::Wanted
        }
    }

    /// The reading of the file is begun.
    pub fn begin(&mut self, alloc: Global, name: &[u8]) -> Result<(), NoMemory>
        ensures { OnOk result (self.new ≡ begin self.old name.now) }
    {
        let name = Text::of(alloc, name)?;
        self.begun.push(name)
    }

    /// The file was read whole.
    pub fn finish(&mut self, name: Text) -> Result<(), NoMemory>
        ensures { OnOk result (self.new ≡ finish self.old name) }
    {
        self.finished.push(name)
    }

    /// An expression of the file was read.
    pub fn keep(&mut self, alloc: Global, file: &[u8], expr: Expr) -> Result<(), NoMemory>
        ensures { OnOk result (self.new ≡ with_source self.old file.now expr) }
    {
        let file = Text::of(alloc, file)?;
        self.sources.push(Source { file, expr })
    }
}
