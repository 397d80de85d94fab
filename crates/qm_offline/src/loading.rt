//! What a command line asks for: its words, and the schema and the bind file that they name.
ghost use Rattle.std.specs.Prelude.{◌≡◌, ◌≤◌, [], codes, IfOk, IsTrue, map, string_bytes, Some, Ok};
ghost use Rattle.qm_json.specs.Cleanness.{are_distinct};
ghost use Rattle.qapi_load.specs.Causes.{Failures};
ghost use Rattle.qm_plan.specs.Stores.{names_of};
ghost use Rattle.qm_bind.specs.Goodness.{IsGoodBinding};
ghost use Rattle.qm_core.specs.Worlds.{IsReady};
ghost use Rattle.qapi_types.specs.{Prelude.HasPrelude, Texts.HasTexts};
ghost use Rattle.qm_core.specs.declared.TheConstants.{MOST_ENTRIES, MOST_TEXT};
ghost use Rattle.qm_offline.specs.Loading.{BoundFrom, HasCause, IsAnswer, IsGoodWorld, LoadedFrom, loaded_over};
ghost use Rattle.qm_offline.specs.Output.{bind_over, world_of as world_of_schema};
ghost use Rattle.qm_offline.specs.Words.{command_told, words_of as words_of_words};

use crate::defines::names_defined;
use crate::refusal::{Refusal, bind_refusal, refusal_of};
use crate::words::{CommandWord, Words, words_of};
use qapi_check::load_schema;
use qapi_load::{Library, LibraryFault};
use qapi_mask::introspect;
use qapi_mask::laws::introspection_is_clean;
use qapi_types::Schema;
use qm_base::{NoMemory, Text};
use qm_bind::{Binding, bind};
use qm_core::{Limits, MOST_TEXT, World};
use std::alloc::Global;

/// What a command line orders.
#[derive(Debug, Drop)]
pub enum Command {
    /// `check`: tells how many definitions the schema has.
    Check,
    /// `introspect`: tells what a client may read of the schema.
    Introspect,
    /// `replay`: plays the script of this name over the schema.
    Replay(Text),
}

/// What a command line asks for, with the files that it names.
#[derive(Drop)]
pub struct Loaded {
    /// What is ordered.
    pub command: Command,
    /// The schema, its introspection, and what its commands do.
    pub world: World,
    /// What a journal may grow to.
    pub limits: Limits,
}

fn ordered(alloc: Global, word: CommandWord<'_>) -> Result<Command, NoMemory>
    ensures { IfOk result (λ command. command ≡ command_told word.entry) }
{
    match word {
        CommandWord::Check => Ok(Command::Check),
        CommandWord::Introspect => Ok(Command::Introspect),
        CommandWord::Replay(name) => Ok(Command::Replay(Text::of(alloc, name)?)),
    }
}

fn served(alloc: Global, schema: Schema, binding: Binding) -> Result<World, NoMemory>
    requires prelude { HasPrelude schema }
    requires texts { HasTexts schema }
    requires good { IsGoodBinding schema binding }
    ensures value { IfOk result (λ world. world ≡ world_of_schema schema binding) }
    ensures good { IfOk result (λ world. IsGoodWorld world) }
{
    introspection_is_clean();
    let _parts = schema.parts();
    let introspection = introspect(alloc, &schema)?;
    Ok(World {
        schema,
        introspection,
        binding,
    })
}

fn over_binding(
    alloc: Global,
    words: &Words<'_>,
    schema: Schema,
    binding: Binding,
) -> Result<Loaded, NoMemory>
    requires prelude { HasPrelude schema }
    requires texts { HasTexts schema }
    requires cells { IsTrue (are_distinct (names_of binding.cells)) }
    requires tallies { IsTrue (are_distinct binding.tallies) }
    requires good { IsGoodBinding schema binding }
    ensures value { IfOk result (λ loaded. Ok loaded
        ≡ loaded_over words.now (Ok (world_of_schema schema binding))) }
    ensures some { IfOk result (λ loaded. 1 ≤ loaded.limits.entries) }
    ensures few { IfOk result (λ loaded. loaded.limits.entries ≤ MOST_ENTRIES) }
    ensures short { IfOk result (λ loaded. loaded.limits.text ≤ MOST_TEXT) }
    ensures good { IfOk result (λ loaded. IsGoodWorld loaded.world) }
    ensures ready { IfOk result (λ loaded. IsReady loaded.world) }
{
    Ok(Loaded {
        command: ordered(alloc, words.command())?,
        world: served(alloc, schema, binding)?,
        limits: Limits {
            entries: words.entries(),
            text: MOST_TEXT,
        },
    })
}

/// What words ask for over a schema and the text of the bind file of the name, where there is one.
fn over_text(
    alloc: Global,
    words: &Words<'_>,
    schema: Schema,
    name: Text,
    text: Option<Text>,
) -> Result<Loaded, Refusal>
    requires prelude { HasPrelude schema }
    requires texts { HasTexts schema }
    ensures value { IsAnswer result → result ≡ loaded_over words.now (bind_over schema name text) }
    ensures some { IfOk result (λ loaded. 1 ≤ loaded.limits.entries) }
    ensures few { IfOk result (λ loaded. loaded.limits.entries ≤ MOST_ENTRIES) }
    ensures short { IfOk result (λ loaded. loaded.limits.text ≤ MOST_TEXT) }
    ensures good { IfOk result (λ loaded. IsGoodWorld loaded.world) }
    ensures ready { IfOk result (λ loaded. IsReady loaded.world) }
    ensures read { (failures : Failures) → HasCause (Some words.now) result failures failures }
{
    let Some(text) = text else {
        return Err(Refusal::NoBind(name));
    };
    match bind(alloc, &schema, text.as_slice()) {
        Ok(binding) => match over_binding(alloc, words, schema, binding) {
            Ok(loaded) => Ok(loaded),
            Err(NoMemory) => Err(Refusal::Memory),
        },
        Err(fault) => Err(bind_refusal(name, fault)),
    }
}

/// What words without a bind file ask for over a schema.
fn unbound(alloc: Global, words: &Words<'_>, schema: Schema) -> Result<Loaded, Refusal>
    requires prelude { HasPrelude schema }
    requires texts { HasTexts schema }
    ensures value { IsAnswer result →
        result ≡ loaded_over words.now (bind_over schema [] (Some (codes "{}"))) }
    ensures some { IfOk result (λ loaded. 1 ≤ loaded.limits.entries) }
    ensures few { IfOk result (λ loaded. loaded.limits.entries ≤ MOST_ENTRIES) }
    ensures short { IfOk result (λ loaded. loaded.limits.text ≤ MOST_TEXT) }
    ensures good { IfOk result (λ loaded. IsGoodWorld loaded.world) }
    ensures ready { IfOk result (λ loaded. IsReady loaded.world) }
    ensures read { (failures : Failures) → HasCause (Some words.now) result failures failures }
{
    match Text::of(alloc, b"{}") {
        Ok(text) => over_text(alloc, words, schema, Text::new(alloc), Some(text)),
        Err(NoMemory) => Err(Refusal::Memory),
    }
}

/// What words ask for over a schema and the bind file of the name.
fn bound<L: Library>(
    alloc: Global,
    words: &Words<'_>,
    schema: Schema,
    name: Text,
    library: &mut L,
) -> Result<Loaded, Refusal>
    requires prelude { HasPrelude schema }
    requires texts { HasTexts schema }
    requires named { words.now.bind ≡ Some name }
    ensures given { BoundFrom (L.files library.old) words.now schema result }
    ensures some { IfOk result (λ loaded. 1 ≤ loaded.limits.entries) }
    ensures few { IfOk result (λ loaded. loaded.limits.entries ≤ MOST_ENTRIES) }
    ensures short { IfOk result (λ loaded. loaded.limits.text ≤ MOST_TEXT) }
    ensures good { IfOk result (λ loaded. IsGoodWorld loaded.world) }
    ensures ready { IfOk result (λ loaded. IsReady loaded.world) }
    ensures same { L.files library.new ≡ L.files library.old }
    ensures cause { HasCause (Some words.now) result
        (record { count = L.faults library.old; name = L.failed_name library.old })
        (record { count = L.faults library.new; name = L.failed_name library.new }) }
{
    match library.text(alloc, name.as_slice()) {
        Ok(text) => over_text(alloc, words, schema, name, text),
        Err(LibraryFault::Failed) => Err(Refusal::Library(name)),
        Err(LibraryFault::Memory) => Err(Refusal::Memory),
    }
}

/// What words ask for over a schema and the bind file that they name.
fn over_schema<L: Library>(
    alloc: Global,
    words: &Words<'_>,
    schema: Schema,
    library: &mut L,
) -> Result<Loaded, Refusal>
    requires prelude { HasPrelude schema }
    requires texts { HasTexts schema }
    ensures given { BoundFrom (L.files library.old) words.now schema result }
    ensures some { IfOk result (λ loaded. 1 ≤ loaded.limits.entries) }
    ensures few { IfOk result (λ loaded. loaded.limits.entries ≤ MOST_ENTRIES) }
    ensures short { IfOk result (λ loaded. loaded.limits.text ≤ MOST_TEXT) }
    ensures good { IfOk result (λ loaded. IsGoodWorld loaded.world) }
    ensures ready { IfOk result (λ loaded. IsReady loaded.world) }
    ensures same { L.files library.new ≡ L.files library.old }
    ensures cause { HasCause (Some words.now) result
        (record { count = L.faults library.old; name = L.failed_name library.old })
        (record { count = L.faults library.new; name = L.failed_name library.new }) }
{
    let Some(name) = words.bind() else {
        return unbound(alloc, words, schema);
    };
    match Text::of(alloc, name) {
        Ok(name) => bound(alloc, words, schema, name, library),
        Err(NoMemory) => Err(Refusal::Memory),
    }
}

fn load_words<L: Library>(
    alloc: Global,
    words: &Words<'_>,
    library: &mut L,
) -> Result<Loaded, Refusal>
    ensures given { LoadedFrom (L.files library.old) (Some words.now) result }
    ensures some { IfOk result (λ loaded. 1 ≤ loaded.limits.entries) }
    ensures few { IfOk result (λ loaded. loaded.limits.entries ≤ MOST_ENTRIES) }
    ensures short { IfOk result (λ loaded. loaded.limits.text ≤ MOST_TEXT) }
    ensures good { IfOk result (λ loaded. IsGoodWorld loaded.world) }
    ensures ready { IfOk result (λ loaded. IsReady loaded.world) }
    ensures same { L.files library.new ≡ L.files library.old }
    ensures cause { HasCause (Some words.now) result
        (record { count = L.faults library.old; name = L.failed_name library.old })
        (record { count = L.faults library.new; name = L.failed_name library.new }) }
{
    let Ok(names) = names_defined(alloc, words.define()) else {
        return Err(Refusal::Memory);
    };
    match load_schema(alloc, library, words.schema(), names.as_slice()) {
        Ok(schema) => over_schema(alloc, words, schema, library),
        Err(fault) => Err(refusal_of(fault)),
    }
}

/// Reads the words of a command line, then the schema and then the bind file that they name. Without
/// a schema it is that of the definitions which stand before those of each schema; without a bind
/// file that is the empty object.
///
/// - `Words`: the words are outside the grammar.
/// - `Schema`: the files of the schema were not loaded, by this fault.
/// - `Check`: a definition of the schema breaks a rule.
/// - `NoBind`: there is no bind file of this name.
/// - `Bind`: the bind file of this name has this fault.
/// - `Library`: the file of this name could not be read; it comes exactly where the library's count
///   of faults rises.
/// - `Memory`: no memory was left.
pub fn load<L: Library>(alloc: Global, words: &[String], library: &mut L) -> Result<Loaded, Refusal>
    ensures given { LoadedFrom (L.files library.old) (words_of_words (map string_bytes words.now)) result }
    ensures some { IfOk result (λ loaded. 1 ≤ loaded.limits.entries) }
    ensures few { IfOk result (λ loaded. loaded.limits.entries ≤ MOST_ENTRIES) }
    ensures short { IfOk result (λ loaded. loaded.limits.text ≤ MOST_TEXT) }
    ensures good { IfOk result (λ loaded. IsGoodWorld loaded.world) }
    ensures ready { IfOk result (λ loaded. IsReady loaded.world) }
    ensures same { L.files library.new ≡ L.files library.old }
    ensures cause { HasCause (words_of_words (map string_bytes words.now)) result
        (record { count = L.faults library.old; name = L.failed_name library.old })
        (record { count = L.faults library.new; name = L.failed_name library.new }) }
{
    match words_of(words) {
        Some(words) => load_words(alloc, &words, library),
        None => Err(Refusal::Words),
    }
}
