ghost use Rattle.std.specs.Prelude.{◌≡◌, ◌<◌, ◌^◌, length, map, IfOk};
ghost use Rattle.std.specs.List.{All};
ghost use Rattle.qapi_types.specs.Goodness.{IsGood};
ghost use Rattle.qapi_types.specs.Lookups.{command_names, event_names, names_in};
ghost use Rattle.qapi_types.specs.Sets.{IsNamable};

use crate::kind::Kind;
use crate::names::{names_of_commands, names_of_events, names_of_members, names_of_values};
use crate::parts::Parts;
use crate::tables::{NameIndex, table_of};
use qm_base::{GrowingList, NoMemory};
use std::alloc::Global;

/// The names of the commands.
pub fn command_table(alloc: Global, parts: &Parts) -> Result<NameIndex, NoMemory>
    requires { IsGood parts.now }
    ensures { IfOk result (λ table. table ≡ command_names parts.now) }
{
    let names = names_of_commands(alloc, parts.commands.as_slice())?;
    table_of(alloc, names.as_slice())
}

/// The names of the events.
pub fn event_table(alloc: Global, parts: &Parts) -> Result<NameIndex, NoMemory>
    requires { IsGood parts.now }
    ensures { IfOk result (λ table. table ≡ event_names parts.now) }
{
    let names = names_of_events(alloc, parts.events.as_slice())?;
    table_of(alloc, names.as_slice())
}

/// The names that a type has.
fn names_of<'a>(alloc: Global, kind: &'a Kind) -> Result<GrowingList<&'a [u8]>, NoMemory>
    ensures { IfOk result (λ names. map (λ k. k.now) names ≡ names_in kind.now) }
{
    match kind {
        Kind::Object(_) => names_of_members(alloc, kind),
        Kind::Enum(_, _) => names_of_values(alloc, kind),
        _ => Ok(GrowingList::new(alloc)),
    }
}

fn kind_table(alloc: Global, kind: &Kind) -> Result<NameIndex, NoMemory>
    requires { IsNamable kind.now }
    ensures { IfOk result (λ table. table ≡ names_in kind.now) }
{
    let names = names_of(alloc, kind)?;
    table_of(alloc, names.as_slice())
}

fn kind_tables(alloc: Global, kinds: &[Kind]) -> Result<Vec<NameIndex>, NoMemory>
    requires { All IsNamable kinds.now }
    ensures { IfOk result (λ tables. tables.items ≡ map names_in kinds.now) }
{
    let mut tables = Vec::new(alloc);
    for kind in kinds {
        let table = kind_table(alloc, kind)?;
        tables.push(table)?;
    }
    Ok(tables)
}

/// The names that each type has.
pub fn tables_of(alloc: Global, parts: &Parts) -> Result<Vec<NameIndex>, NoMemory>
    requires { IsGood parts.now }
    ensures { IfOk result (λ tables. tables.items ≡ map names_in parts.now.kinds) }
{
    kind_tables(alloc, parts.kinds.as_slice())
}
