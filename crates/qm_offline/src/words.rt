ghost use Rattle.std.specs.Prelude.{◌≡◌, ◌≤◌, ◌<◌, map, string_bytes, ◌∷◌, [], length, position, IfSome, IfNone, option_map};
ghost use Rattle.std.specs.Option.{option_copied, option_and_then};
ghost use Rattle.qm_core.specs.declared.TheConstants.{MOST_ENTRIES};
ghost use Rattle.qm_offline.specs.Words.{begins_with_dash as begins_with_dash_of, is_equals_sign, option_named as option_named_of, first_value as first_value_of, nothing_given, put as put_of, put_value, word_item, option_item, item, placed, given_after, count_of, number_or as number_or_of, without_zeros as without_zeros_of};
ghost use Rattle.qm_offline.specs.Words.{command_told, command_of, words_given as words_given_of, words_of as words_of_words};
ghost use Rattle.qm_offline.specs.declared.words.Slot.TheVariants.{Positional};

use qm_base::number;
use qm_core::MOST_ENTRIES;
use std::marker::Model;

/// How many workers there may be.
const MOST_WORKERS: u64 = 32;

/// What stands at most once in a command line.
#[derive(Clone, Copy, Debug, PartialEq, Eq)]
pub enum Slot {
    /// `--schema F`.
    Schema,
    /// `--bind F`.
    Bind,
    /// `--define A,B`.
    Define,
    /// `--journal N`.
    Journal,
    /// `--workers N`.
    Workers,
    /// A word that is neither an option nor an option's value.
    Positional,
}

/// What was given, by its slots.
#[derive(Drop)]
struct Given<'a> {
    schema: Option<&'a [u8]>,
    bind: Option<&'a [u8]>,
    define: Option<&'a [u8]>,
    journal: Option<&'a [u8]>,
    workers: Option<&'a [u8]>,
    positional: Option<&'a [u8]>,
}

impl<'a> Model for Given<'a> {
    ghost use Rattle.std.specs.Option.{option_copied};
    ghost use Rattle.qm_offline.specs.Words.{Given as Values};

    ghost Value = { Values };

    ghost view = { λ g. record {
      schema = option_copied g.schema;
      bind = option_copied g.bind;
      define = option_copied g.define;
      journal = option_copied g.journal;
      workers = option_copied g.workers;
      positional = option_copied g.positional;
    } };
}

fn first_value<'a>(before: Option<&'a [u8]>, value: &'a [u8]) -> Option<&'a [u8]>
    ensures { option_copied result ≡ first_value_of (option_copied before.entry) value.now }
{
    if before.is_some() || value.is_empty() {
        None
    } else {
        Some(value)
    }
}

fn begins_with_dash(word: &[u8]) -> bool
    ensures { result ≡ begins_with_dash_of word.now }
{
    word.len() > 0 && word[0] == b'-'
}

fn option_named(name: &[u8]) -> Option<Slot>
    ensures { result ≡ option_named_of name.now }
{
    if name == b"--schema".as_slice() {
        Some(Slot::Schema)
    } else if name == b"--bind".as_slice() {
        Some(Slot::Bind)
    } else if name == b"--define".as_slice() {
        Some(Slot::Define)
    } else if name == b"--journal".as_slice() {
        Some(Slot::Journal)
    } else if name == b"--workers".as_slice() {
        Some(Slot::Workers)
    } else {
        None
    }
}

fn equals_sign_at(word: &[u8]) -> Option<usize>
    ensures place { result ≡ position is_equals_sign word.now }
    ensures within { IfSome result (λ at. at < length word.now) }
{
    word.iter().position(|byte| *byte == b'=')
}

fn first_word(words: &[String]) -> Option<(&[u8], &[String])>
    ensures some { IfSome result (λ p. map string_bytes words.now ≡ p.0.now ∷ map string_bytes p.1.now) }
    ensures none { IfNone result (map string_bytes words.now ≡ []) }
    ensures shorter { IfSome result (λ p. length p.1.now < length words.now) }
{
    match words {
        [word, rest @ ..] => Some((word.as_bytes(), rest)),
        [] => None,
    }
}

impl<'a> Given<'a> {
    fn nothing() -> Given<'a>
        ensures { result ≡ nothing_given }
    {
        Given {
            schema: None,
            bind: None,
            define: None,
            journal: None,
            workers: None,
            positional: None,
        }
    }

    fn put(self, slot: Slot, value: &'a [u8]) -> Option<Given<'a>>
        ensures { result ≡ put_value self.entry slot value.now }
    {
        match slot {
            Slot::Schema => Some(Given {
                schema: Some(first_value(self.schema, value)?),
                ..self
            }),
            Slot::Bind => Some(Given {
                bind: Some(first_value(self.bind, value)?),
                ..self
            }),
            Slot::Define => Some(Given {
                define: Some(first_value(self.define, value)?),
                ..self
            }),
            Slot::Journal => Some(Given {
                journal: Some(first_value(self.journal, value)?),
                ..self
            }),
            Slot::Workers => Some(Given {
                workers: Some(first_value(self.workers, value)?),
                ..self
            }),
            Slot::Positional => Some(Given {
                positional: Some(first_value(self.positional, value)?),
                ..self
            }),
        }
    }

    fn put_word(self, word: &'a [u8]) -> Option<Given<'a>>
        ensures { result ≡ option_and_then (put_of self.entry) (word_item word.now) }
    {
        if !begins_with_dash(word) {
            return self.put(Slot::Positional, word);
        }
        let at = equals_sign_at(word)?;
        let slot = option_named(&word[..at])?;
        self.put(slot, &word[at + 1..])
    }

    fn put_option(self, slot: Slot, value: &'a [u8]) -> Option<Given<'a>>
        ensures { result ≡ option_and_then (put_of self.entry) (option_item slot value.now) }
    {
        if begins_with_dash(value) {
            return None;
        }
        self.put(slot, value)
    }

    fn put_positional(self, words: &'a [String]) -> Option<Given<'a>>
        ensures { result ≡ placed self.entry (map (item Positional) (map string_bytes words.now)) }
    {
        match words {
            [] => Some(self),
            [word] => self.put(Slot::Positional, word.as_bytes()),
            _ => None,
        }
    }

    /// Puts what the words say. Each call of itself fills a slot, so that calls nest no deeper than
    /// there are slots.
    #[tactic(auto, using(crate::proofs::WordLemmas::first_placed))]
    fn put_words(self, words: &'a [String]) -> Option<Given<'a>>
        ensures { result ≡ given_after self.entry (map string_bytes words.now) }
    {
        let Some((word, rest)) = first_word(words) else {
            return Some(self);
        };
        if word == b"--".as_slice() {
            return self.put_positional(rest);
        }
        let Some(slot) = option_named(word) else {
            return self.put_word(word)?.put_words(rest);
        };
        let (value, rest) = first_word(rest)?;
        self.put_option(slot, value)?.put_words(rest)
    }
}

fn without_zeros(word: &[u8]) -> &[u8]
    ensures { result.now ≡ without_zeros_of word.now }
{
    let mut rest = word;
    while let [b'0', later @ ..] = rest {
        if later.is_empty() {
            return rest;
        }
        rest = later;
    }
    rest
}

fn count(word: &[u8]) -> Option<u64>
    ensures { result ≡ count_of word.now }
{
    if word.len() > 7 {
        return None;
    }
    number(without_zeros(word))
}

fn number_or(other: u64, most: u64, word: Option<&[u8]>) -> Option<u64>
    requires some { 1 ≤ other }
    requires few { other ≤ most }
    ensures value { result ≡ number_or_of other most (option_copied word.entry) }
    ensures some { IfSome result (λ n. 1 ≤ n) }
    ensures few { IfSome result (λ n. n ≤ most) }
{
    let Some(word) = word else {
        return Some(other);
    };
    let n = count(word)?;
    if 1 <= n && n <= most { Some(n) } else { None }
}

/// The command of a command line.
#[derive(Clone, Copy, Debug, Drop)]
pub enum CommandWord<'a> {
    /// `check`.
    Check,
    /// `introspect`.
    Introspect,
    /// `replay` with the name of a script.
    Replay(&'a [u8]),
}

/// What a command line asks for: a command, the main file of a schema, a bind file, the names that
/// hold in the schema's conditions, and how many entries and open sessions a journal may have
/// together, 1 to 1,000,000.
#[derive(Drop)]
pub struct Words<'a> {
    command: CommandWord<'a>,
    schema: Option<&'a [u8]>,
    bind: Option<&'a [u8]>,
    define: Option<&'a [u8]>,
    entries: u64,
}

impl<'a> Model for Words<'a> {
    ghost use Rattle.std.specs.Prelude.{◌≤◌};
    ghost use Rattle.std.specs.Option.{option_copied};
    ghost use Rattle.qm_core.specs.declared.TheConstants.{MOST_ENTRIES};
    ghost use Rattle.qm_offline.specs.Words.{Words as Asked, command_told};

    ghost Value = { Asked };

    ghost view = { λ w. record {
      command = command_told w.command;
      schema = option_copied w.schema;
      bind = option_copied w.bind;
      define = option_copied w.define;
      entries = w.entries;
    } };

    ghost invariant = { λ w. (1 ≤ w.entries) × (w.entries ≤ MOST_ENTRIES) };
}

impl<'a> Words<'a> {
    /// What is ordered.
    pub fn command(&self) -> CommandWord<'a>
        ensures { command_told result ≡ self.now.command }
    {
        self.command
    }

    /// The name of the schema's main file.
    pub fn schema(&self) -> Option<&'a [u8]>
        ensures { option_copied result ≡ self.now.schema }
    {
        self.schema
    }

    /// The name of the bind file.
    pub fn bind(&self) -> Option<&'a [u8]>
        ensures { option_copied result ≡ self.now.bind }
    {
        self.bind
    }

    /// The names that hold in the schema's conditions, with commas between them.
    pub fn define(&self) -> Option<&'a [u8]>
        ensures { option_copied result ≡ self.now.define }
    {
        self.define
    }

    /// How many entries and open sessions a journal may have together.
    pub fn entries(&self) -> u64
        ensures value { result ≡ self.now.entries }
        ensures some { 1 ≤ result }
        ensures few { result ≤ MOST_ENTRIES }
    {
        self.entries
    }
}

fn command_given<'a>(verb: &[u8], given: &Given<'a>) -> Option<CommandWord<'a>>
    ensures { option_map command_told result ≡ command_of verb.now given.now }
{
    if verb == b"check".as_slice() && given.positional.is_none() {
        return Some(CommandWord::Check);
    }
    if verb == b"introspect".as_slice() && given.positional.is_none() {
        return Some(CommandWord::Introspect);
    }
    if verb == b"replay".as_slice() {
        return Some(CommandWord::Replay(given.positional?));
    }
    None
}

fn words_given<'a>(verb: &[u8], given: Given<'a>) -> Option<Words<'a>>
    ensures { result ≡ words_given_of verb.now given.entry }
{
    let command = command_given(verb, &given)?;
    number_or(4, MOST_WORKERS, given.workers)?;
    let entries = number_or(MOST_ENTRIES, MOST_ENTRIES, given.journal)?;
    Some(Words {
        command,
        schema: given.schema,
        bind: given.bind,
        define: given.define,
        entries,
    })
}

/// What the words ask for; None where they are outside the grammar.
pub fn words_of(words: &[String]) -> Option<Words<'_>>
    ensures { result ≡ words_of_words (map string_bytes words.now) }
{
    match words {
        [verb, rest @ ..] => words_given(verb.as_bytes(), Given::nothing().put_words(rest)?),
        [] => None,
    }
}
