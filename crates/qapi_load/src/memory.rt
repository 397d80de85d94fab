ghost use Rattle.std.specs.Prelude.{◌≡◌, ◌≢◌, [], ◌∷◌, ◌++◌, List, Some, IfOk, OnOk, OnErr, Err, IsErr, true};
ghost use Rattle.qm_base.specs.Faults.{Rose};
ghost use Rattle.qapi_load.specs.Files.{NamedText, text_of};
ghost use Rattle.qm_base.specs.Calls.{fails_next, next_call};

use crate::library::{Library, LibraryFault};
use qm_base::{CallList, GrowingList, NoMemory, Text};
use std::alloc::Global;
use std::marker::Model;

/// A text with its name.
#[derive(Debug, Drop)]
pub struct LibraryFile {
    name: Text,
    text: Text,
}

impl Model for LibraryFile {
    ghost use Rattle.qapi_load.specs.Files.{NamedText};

    ghost Value = { NamedText };

    ghost view = { λ f. record { name = f.name; text = f.text } };
}

impl LibraryFile {
    /// A text with its name.
    pub fn new(name: Text, text: Text) -> LibraryFile
        ensures { result ≡ record { name = name; text = text } }
    {
        LibraryFile { name, text }
    }

    /// The name.
    pub fn name(&self) -> &[u8]
        ensures { result.now ≡ self.now.name }
    {
        self.name.as_slice()
    }

    /// The text.
    pub fn text(&self) -> &[u8]
        ensures { result.now ≡ self.now.text }
    {
        self.text.as_slice()
    }
}

/// Files in order.
pub type FileList = GrowingList<LibraryFile>;

/// A library that holds its texts from the start. Calls are counted from 1, as far as 64 bits
/// count.
#[derive(Drop)]
pub struct MemoryLibrary {
    files: FileList,
    calls: u64,
    faults: u64,
    failed_name: Text,
    failing: CallList,
}

impl Model for MemoryLibrary {
    ghost use Rattle.qapi_load.specs.MemoryLibraries.{Held};

    ghost Value = { Held };

    ghost view = { λ l. record { files = l.files; calls = l.calls; faults = l.faults; failed_name = l.failed_name; failing = l.failing } };
}

fn found(alloc: Global, files: &[LibraryFile], name: &[u8]) -> Result<Option<Text>, NoMemory>
    ensures { IfOk result (λ text. text ≡ text_of name.now files.now) }
{
    match files.iter().find(|file| file.name() == name) {
        None => Ok(None),
        Some(file) => Ok(Some(Text::of(alloc, file.text())?)),
    }
}

impl MemoryLibrary {
    /// A library of these files, of which these calls are to fail. It takes no memory.
    pub fn new(alloc: Global, files: FileList, failing: CallList) -> MemoryLibrary
        ensures { result ≡ record { files = files; calls = 0; faults = 0; failed_name = []; failing = failing } }
    {
        MemoryLibrary {
            files,
            calls: 0,
            faults: 0,
            failed_name: Text::new(alloc),
            failing,
        }
    }
}

impl Library for MemoryLibrary {
    ghost use Rattle.std.specs.Prelude.{Some};

    ghost files = { λ l. Some l.files };

    ghost faults = { λ l. l.faults };

    ghost failed_name = { λ l. l.failed_name };

    /// A call fails exactly where it is to fail and the name could be noted.
    fn text(&mut self, alloc: Global, name: &[u8]) -> Result<Option<Text>, LibraryFault>
        ensures value { (told : List NamedText) → Some self.old.files ≡ Some told → IfOk result (λ text. text ≡ text_of name.now told) }
        ensures same { Some self.new.files ≡ Some self.old.files }
        ensures failed { result ≡ Err LibraryFault.Failed → Rose self.old.faults self.new.faults }
        ensures kept { result ≢ Err LibraryFault.Failed → self.new.faults ≡ self.old.faults }
        ensures name { result ≡ Err LibraryFault.Failed → self.new.failed_name ≡ name.now }
        ensures kept_name { result ≢ Err LibraryFault.Failed → self.new.failed_name ≡ self.old.failed_name }
        ensures listed { fails_next self.old.calls self.old.failing ≡ true → IsErr result }
        ensures unlisted { result ≡ Err LibraryFault.Failed → fails_next self.old.calls self.old.failing ≡ true }
        ensures counted { self.new.calls ≡ next_call self.old.calls }
        ensures still { self.new.failing ≡ self.old.failing }
    {
        let call = self.calls.saturating_add(1);
        self.calls = call;
        if self.failing.has(call) {
            self.failed_name = Text::of(alloc, name)?;
            self.faults = self.faults.saturating_add(1);
            return Err(LibraryFault::Failed);
        }
        Ok(found(alloc, self.files.as_slice(), name)?)
    }
}
