ghost use Rattle.std.specs.Prelude.{◌≡◌, [], map, IfOk};
ghost use Rattle.qapi_types.specs.Choices.{stands};
ghost use Rattle.qapi_types.specs.Sets.{AddsName, IsSetOf};
ghost use Rattle.qapi_types.specs.Types.{member_names, value_names};

use crate::kind::Kind;
use crate::parts::{CommandDef, EventDef};
use qm_base::{GrowingList, NoMemory};
use std::alloc::Global;
use std::collections::BTreeSet;
use std::marker::Model;

/// Names, each once.
#[derive(Drop)]
pub struct NameSet<'a> {
    names: BTreeSet<&'a [u8]>,
}

impl<'a> Model for NameSet<'a> {
    ghost use Rattle.std.specs.Prelude.{ℕ, List, map};

    ghost Value = { List (List ℕ) };

    ghost view = { λ s. map (λ k. k.now) s.names.keys };
}

impl<'a> NameSet<'a> {
    /// No names. It takes no memory.
    pub fn new(alloc: Global) -> NameSet<'a>
        ensures { result ≡ [] }
    {
        NameSet {
            names: BTreeSet::new(alloc),
        }
    }

    /// Whether the name is there.
    pub fn has(&self, name: &[u8]) -> bool
        ensures { result ≡ stands name.now self.now }
    {
        self.names.contains(name)
    }

    /// Adds a name, and tells whether it is new.
    pub fn add(&mut self, name: &'a [u8]) -> Result<bool, NoMemory>
        ensures { IfOk result (λ is_new. AddsName self.old name.now is_new self.new) }
    {
        match self.names.insert(name) {
            Ok(is_new) => Ok(is_new),
            Err(_) => Err(NoMemory),
        }
    }
}

/// The names, each once; None where two are the same.
pub fn distinct_names<'a>(
    alloc: Global,
    names: &[&'a [u8]],
) -> Result<Option<NameSet<'a>>, NoMemory>
    ensures { IfOk result (λ set. IsSetOf (map (λ k. k.now) names.now) set) }
{
    let mut set = NameSet::new(alloc);
    for name in names {
        if !set.add(*name)? {
            return Ok(None);
        }
    }
    Ok(Some(set))
}

/// The names of a type's members.
pub fn names_of_members<'a>(
    alloc: Global,
    kind: &'a Kind,
) -> Result<GrowingList<&'a [u8]>, NoMemory>
    ensures { IfOk result (λ names. map (λ k. k.now) names ≡ member_names kind.now) }
{
    let mut names = GrowingList::new(alloc);
    for member in kind.members() {
        names.push(member.name.as_slice())?;
    }
    Ok(names)
}

/// The names of a type's values.
pub fn names_of_values<'a>(alloc: Global, kind: &'a Kind) -> Result<GrowingList<&'a [u8]>, NoMemory>
    ensures { IfOk result (λ names. map (λ k. k.now) names ≡ value_names kind.now) }
{
    let mut names = GrowingList::new(alloc);
    for value in kind.values() {
        names.push(value.name.as_slice())?;
    }
    Ok(names)
}

/// The names of commands.
pub fn names_of_commands<'a>(
    alloc: Global,
    commands: &'a [CommandDef],
) -> Result<GrowingList<&'a [u8]>, NoMemory>
    ensures { IfOk result (λ names. map (λ k. k.now) names ≡ map (λ x. x.name) commands.now) }
{
    let mut names = GrowingList::new(alloc);
    for command in commands {
        names.push(command.name.as_slice())?;
    }
    Ok(names)
}

/// The names of events.
pub fn names_of_events<'a>(
    alloc: Global,
    events: &'a [EventDef],
) -> Result<GrowingList<&'a [u8]>, NoMemory>
    ensures { IfOk result (λ names. map (λ k. k.now) names ≡ map (λ x. x.name) events.now) }
{
    let mut names = GrowingList::new(alloc);
    for event in events {
        names.push(event.name.as_slice())?;
    }
    Ok(names)
}
