ghost use Rattle.std.specs.Prelude.{◌≡◌, ◌≢◌, ◌<◌, ◌≤◌, ◌+◌, length, [], ◌∷◌, ◌++◌, List, Some, IfOk, OnOk, IfErr, Err};
ghost use Rattle.qapi_load.specs.Answers.{AnswersFrom};
ghost use Rattle.qapi_load.specs.Causes.{HasCause, IsAnswer};
ghost use Rattle.qapi_load.specs.Files.{NamedText, text_of};
ghost use Rattle.qapi_load.specs.Loading.{begin, memory_fault, nothing_read, parsed, sources_of};
ghost use Rattle.qapi_load.specs.Steps.{Fetches, IsFurther, OverFiles, Sound, left_in, outcome_moved, outcome_of, outcome_on, outcome_with};

use crate::fault::{LoadFault, LoadRule, MOST_FILES, owned, refused, unread};
use crate::library::{Library, LibraryFault};
use crate::open_file::{OpenFile, Wanted};
use crate::parsing::expressions;
use crate::reading::{Place, Reading};
use crate::source::SourceList;
use qapi_tree::TreeList;
use qm_base::{NoMemory, Text};
use std::alloc::Global;

/// A schema whose files are being read.
#[derive(Drop)]
pub struct Loading {
    /// What was read so far.
    pub reading: Reading,
    /// The file that is being read.
    pub file: OpenFile,
    /// The files that include it, the outermost first.
    pub outer: Vec<OpenFile>,
}

/// What a reading has become.
#[derive(Drop)]
pub enum Move {
    /// All files were read.
    Done(SourceList),
    /// It goes on with another file, one of which it was read before.
    On(Loading),
    /// A file is to be read next.
    Ask(Loading, Wanted),
}

impl Loading {
    /// The file was read to its end.
    fn close(self, alloc: Global) -> Result<Move, LoadFault>
        requires sound { Sound self }
        requires end { left_in self.file ≡ [] }
        ensures ok { IfOk result (λ move. (told : List NamedText) → outcome_of told self ≡ outcome_moved told move) }
        ensures further { IfOk result (IsFurther self.reading) }
        ensures err { IfErr result (λ fault. fault ≡ memory_fault) }
    {
        let Loading {
            mut reading,
            file,
            mut outer,
        } = self;
        owned(alloc, reading.finish(file.name))?;
        match outer.pop() {
            None => Ok(Move::Done(reading.sources)),
            Some(file) => Ok(Move::On(Loading {
                reading,
                file,
                outer,
            })),
        }
    }

    /// Reads the file up to the next include whose file is to be read, or to its end.
    fn advance(self, alloc: Global) -> Result<Move, LoadFault>
        requires { Sound self }
        ensures ok { IfOk result (λ move. (told : List NamedText) → outcome_of told self ≡ outcome_moved told move) }
        ensures further { IfOk result (IsFurther self.reading) }
        ensures err { IfErr result (λ fault. fault ≢ memory_fault → (told : List NamedText) → outcome_of told self ≡ Err fault) }
        ensures cause { IfErr result (λ fault. fault.rule ≢ LoadRule.ReadFault) }
    {
        let Loading {
            mut reading,
            mut file,
            outer,
        } = self;
        let wanted = file.read_on(alloc, &mut reading);
        let next = Loading {
            reading,
            file,
            outer,
        };
        match wanted {
            Ok(Some(wanted)) => Ok(Move::Ask(next, wanted)),
            Ok(None) => next.close(alloc),
            Err(fault) => Err(fault),
        }
    }
}

/// Opens a file whose reading was begun.
fn opened(name: Text, exprs: TreeList) -> OpenFile
    ensures name { result.name ≡ name }
    ensures rest { left_in result ≡ exprs }
{
    OpenFile {
        name,
        rest: exprs.into_vec().into_iter(),
    }
}

/// The expressions of a file for which a library gave this answer.
fn found(
    alloc: Global,
    place: Place,
    name: Text,
    text: Option<Text>,
) -> Result<(Text, TreeList), LoadFault>
    ensures value { IsAnswer result → Fetches result (parsed place name text) }
    ensures name { IfOk result (λ found. found.0 ≡ name) }
    ensures cause { IfErr result (λ fault. fault.rule ≢ LoadRule.ReadFault) }
{
    let Some(text) = text else {
        return Err(refused(LoadRule::NoFile, place, name));
    };
    let exprs = expressions(alloc, name.as_slice(), text.as_slice())?;
    Ok((name, exprs))
}

/// The expressions of a file that a library has.
#[tactic(auto, using(crate::proofs::Given::over_all))]
fn fetched<L: Library>(
    alloc: Global,
    library: &mut L,
    wanted: Wanted,
) -> Result<(Text, TreeList), LoadFault>
    ensures given { OverFiles (L.files library.old) (wanted.name ∷ []) (λ files. IsAnswer result →
        Fetches result (parsed wanted.place wanted.name (text_of wanted.name files))) }
    ensures name { IfOk result (λ found. found.0 ≡ wanted.name) }
    ensures same { L.files library.new ≡ L.files library.old }
    ensures cause { HasCause result
        (record { count = L.faults library.old; name = L.failed_name library.old })
        (record { count = L.faults library.new; name = L.failed_name library.new }) }
{
    let Wanted { place, name } = wanted;
    let file = owned(alloc, name.copy(alloc))?;
    match library.text(alloc, name.as_slice()) {
        Ok(text) => found(alloc, place, name, text),
        Err(LibraryFault::Failed) => Err(unread(alloc, file)),
        Err(LibraryFault::Memory) => Err(LoadFault::memory(alloc)),
    }
}

impl Loading {
    /// Opens the file that is to be read next.
    #[tactic(auto, using(crate::proofs::Given::over_all))]
    fn enter<L: Library>(
        self,
        alloc: Global,
        library: &mut L,
        wanted: Wanted,
    ) -> Result<Loading, LoadFault>
        requires sound { Sound self }
        requires room { length self.reading.begun < MOST_FILES }
        ensures given { OverFiles (L.files library.old) (wanted.name ∷ []) (λ files. IsAnswer result →
            outcome_with files self wanted ≡ outcome_on files result) }
        ensures sound { IfOk result Sound }
        ensures begun { IfOk result (λ next. next.reading ≡ begin self.reading wanted.name) }
        ensures same { L.files library.new ≡ L.files library.old }
        ensures cause { HasCause result
            (record { count = L.faults library.old; name = L.failed_name library.old })
            (record { count = L.faults library.new; name = L.failed_name library.new }) }
    {
        let Loading {
            mut reading,
            file,
            mut outer,
        } = self;
        let (name, exprs) = match fetched(alloc, library, wanted) {
            Ok(found) => found,
            Err(fault) => return Err(fault),
        };
        owned(alloc, reading.begin(alloc, name.as_slice()))?;
        owned(alloc, kept(&mut outer, file))?;
        let file = opened(name, exprs);
        Ok(Loading {
            reading,
            file,
            outer,
        })
    }
}

/// Puts a file inside the others that are open.
fn kept(outer: &mut Vec<OpenFile>, file: OpenFile) -> Result<(), NoMemory>
    ensures { OnOk result (outer.new.items ≡ outer.old.items ++ file ∷ []) }
{
    if outer.push(file).is_ok() {
        Ok(())
    } else {
        Err(NoMemory)
    }
}

impl Loading {
    /// A schema whose main file was opened.
    #[tactic(auto, using(crate::proofs::Given::over_all))]
    fn first<L: Library>(alloc: Global, library: &mut L, main: &[u8]) -> Result<Loading, LoadFault>
        ensures given { OverFiles (L.files library.old) (main.now ∷ []) (λ files. IsAnswer result →
            sources_of files main.now ≡ outcome_on files result) }
        ensures sound { IfOk result Sound }
        ensures begun { IfOk result (λ first. first.reading ≡ begin nothing_read main.now) }
        ensures same { L.files library.new ≡ L.files library.old }
        ensures cause { HasCause result
            (record { count = L.faults library.old; name = L.failed_name library.old })
            (record { count = L.faults library.new; name = L.failed_name library.new }) }
    {
        let file = owned(alloc, Text::of(alloc, main))?;
        let name = owned(alloc, Text::of(alloc, main))?;
        let place = Place { file, line: 0 };
        let mut reading = Reading::new(alloc);
        let (name, exprs) = match fetched(alloc, library, Wanted { place, name }) {
            Ok(found) => found,
            Err(fault) => return Err(fault),
        };
        owned(alloc, reading.begin(alloc, name.as_slice()))?;
        Ok(Loading {
            reading,
            file: opened(name, exprs),
            outer: Vec::new(alloc),
        })
    }
}

/// The expressions of a schema's files in reading order, or the first fault (QAPI code generation
/// guide, "Include directives"). Includes and pragmas are left out. The name that a file includes is
/// put after the file's own name up to its last `/`. A file is read whole before its first include
/// is followed, so that its own faults come before those of its includes; a file that was read
/// already is passed over.
///
/// - `NoFile`: the library has no such file. Of an include the fault has the file and the line of
///   the include and the full name of what it includes; of the main file its name twice, and line 0.
/// - `IncludeCycle`: the included file is still being read.
/// - `TooManyFiles`: it would be the 257th file, for which the library is not asked.
/// - `Lex`, `Tree`: the file's text has this fault.
/// - `ReadFault`: reading the file failed; the line is 0 and the name empty.
/// - `Memory`: no memory was left; the line is 0, and file and name are empty.
pub fn load_files<L: Library>(
    alloc: Global,
    library: &mut L,
    main: &[u8],
) -> Result<SourceList, LoadFault>
    ensures given { AnswersFrom (L.files library.old) main.now result }
    ensures same { L.files library.new ≡ L.files library.old }
    ensures cause { HasCause result
        (record { count = L.faults library.old; name = L.failed_name library.old })
        (record { count = L.faults library.new; name = L.failed_name library.new }) }
{
    let mut loading = Loading::first(alloc, library, main)?;
    loop {
        match loading.advance(alloc)? {
            Move::Done(sources) => return Ok(sources),
            Move::On(next) => loading = next,
            Move::Ask(next, wanted) => loading = next.enter(alloc, library, wanted)?,
        }
    }
}
