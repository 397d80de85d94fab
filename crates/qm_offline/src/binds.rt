//! The lines of a bind file that is refused.
ghost use Rattle.std.specs.Prelude.{◌≡◌, ◌++◌, IfOk, OnOk};
ghost use Rattle.qm_offline.specs.Binds.{bind_line as bind_line_of, missing_bind as missing_bind_of, rule_word as rule_word_of, text_word, told_behind};

use qm_base::{NoMemory, Text};
use qm_bind::{BindFault, BindRule};
use qm_core::JsonWord;
use qm_history::put_json_word;
use qm_read::JsonFault;
use std::alloc::Global;

fn rule_word(rule: BindRule) -> &'static [u8]
    ensures { result.now ≡ rule_word_of rule }
{
    match rule {
        BindRule::NotJson(_) => b"not-json",
        BindRule::UnknownCommand => b"unknown-command",
        BindRule::UnknownEvent => b"unknown-event",
        BindRule::BadRecipe => b"bad-recipe",
        BindRule::BadPeriod => b"bad-period",
        BindRule::Twice => b"twice",
        BindRule::Memory => b"memory",
    }
}

fn put_text_word(line: &mut Text, fault: JsonFault) -> Result<(), NoMemory>
    ensures { OnOk result (line.new ≡ line.old ++ text_word fault) }
{
    match fault {
        JsonFault::Expected(place) => put_json_word(line, JsonWord::Expected(place)),
        JsonFault::Duplicate(place) => put_json_word(line, JsonWord::Duplicate(place)),
        JsonFault::BadEscape(place) => put_json_word(line, JsonWord::BadEscape(place)),
        JsonFault::BadUtf8(place) => put_json_word(line, JsonWord::BadUtf8(place)),
        JsonFault::Memory => line.extend(b"memory"),
    }
}

fn put_name(line: &mut Text, rule: BindRule, name: &[u8]) -> Result<(), NoMemory>
    ensures { OnOk result (line.new ≡ line.old ++ told_behind rule name.now) }
{
    match rule {
        BindRule::NotJson(fault) => {
            line.push(b' ')?;
            put_text_word(line, fault)
        }
        BindRule::BadRecipe if name.is_empty() => Ok(()),
        BindRule::UnknownCommand
        | BindRule::UnknownEvent
        | BindRule::BadRecipe
        | BindRule::BadPeriod
        | BindRule::Twice
        | BindRule::Memory => {
            line.push(b' ')?;
            line.extend(name)
        }
    }
}

/// The line of a bind file's fault. `bad-recipe` for the file as a whole is told without a name.
pub fn bind_line(alloc: Global, file: &[u8], fault: &BindFault) -> Result<Text, NoMemory>
    ensures { IfOk result (λ line. line ≡ bind_line_of file.now fault.now) }
{
    let mut line = Text::of(alloc, b"error: bind ")?;
    line.extend(file)?;
    line.extend(b": ")?;
    line.extend(rule_word(fault.rule))?;
    put_name(&mut line, fault.rule, fault.name.as_slice())?;
    line.push(b'\n')?;
    Ok(line)
}

/// The line of a bind file that is missing.
pub fn missing_bind(alloc: Global, file: &[u8]) -> Result<Text, NoMemory>
    ensures { IfOk result (λ line. line ≡ missing_bind_of file.now) }
{
    let mut line = Text::of(alloc, b"error: bind ")?;
    line.extend(file)?;
    line.extend(b": no-file\n")?;
    Ok(line)
}
