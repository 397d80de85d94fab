ghost use Rattle.std.specs.Prelude.{◌≡◌, ◌≤◌, [], ◌∷◌, ◌++◌, length, IsSome, OnOk, IfOk};
ghost use Rattle.std.specs.Option.{option_map};
ghost use Rattle.qm_json.specs.Members.{has_name};
ghost use Rattle.qm_read.specs.Names.{AreNamesOf};

use qm_base::{NameTable, NoMemory, Text};
use qm_json::{Json, Member, has_member};
use sqlite_items::Items;
use std::alloc::Global;
use std::marker::Model;
use std::mem;

/// How many members an object may have whose names are looked for by going through them.
const MOST_WALKED: usize = 8;

/// The members of an object that is open. Where there are many, a table has their names too.
#[derive(Drop)]
pub struct NamedMembers {
    members: Items<Member>,
    names: Option<Box<NameTable>>,
}

impl Model for NamedMembers {
    ghost use Rattle.std.specs.Prelude.{List};
    ghost use Rattle.std.specs.Option.{option_map};
    ghost use Rattle.std.specs.Coded.{codes};
    ghost use Rattle.qm_json.specs.declared.value.Member.{Member};
    ghost use Rattle.qm_json.specs.contracts.value.Json as json;
    ghost use Rattle.qm_read.specs.Names.{AreNamesOf};

    ghost Value = { List Member };

    ghost coded = { Prim.hlevel (codes, json.the_row.coded) };

    ghost invariant = { λ m. AreNamesOf (option_map (λ b. b.value) m.names) m.members };

    ghost view = { λ m. m.members };
}

/// A table of the names of members.
fn table_of(alloc: Global, members: &[Member]) -> Result<NameTable, NoMemory>
    ensures { IfOk result (λ names. AreNamesOf (Some names) members.now) }
{
    let mut names = NameTable::new(alloc);
    for member in members {
        names.add(alloc, member.name.as_slice())?;
    }
    Ok(names)
}

/// The table of the members, where it is wanted.
fn table_for(
    alloc: Global,
    names: Option<Box<NameTable>>,
    members: &[Member],
) -> Result<Option<Box<NameTable>>, NoMemory>
    requires { AreNamesOf (option_map (λ b. b.value) names) members.now }
    ensures names { IfOk result (λ table. AreNamesOf (option_map (λ b. b.value) table) members.now) }
    ensures many { IfOk result (λ table. MOST_WALKED ≤ length members.now → IsSome table) }
{
    match names {
        Some(names) => Ok(Some(names)),
        None => {
            if members.len() < MOST_WALKED {
                return Ok(None);
            }
            Ok(Some(Box::new(alloc, table_of(alloc, members)?)?))
        }
    }
}

/// The table of the members and one more of a name, where it is wanted.
#[tactic(auto, using(qm_base::proofs::NameLemmas::names_more))]
fn with_name(
    alloc: Global,
    names: Option<Box<NameTable>>,
    members: &[Member],
    name: &[u8],
) -> Result<Option<Box<NameTable>>, NoMemory>
    requires { AreNamesOf (option_map (λ b. b.value) names) members.now }
    ensures { IfOk result (λ after. (value : Json) →
        AreNamesOf (option_map (λ b. b.value) after)
        (members.now ++ record { name = name.now; value = value } ∷ [])) }
{
    match table_for(alloc, names, members)? {
        None => Ok(None),
        Some(mut names) => {
            names.add(alloc, name)?;
            Ok(Some(names))
        }
    }
}

impl NamedMembers {
    /// No members. It takes no memory.
    pub fn new(alloc: Global) -> NamedMembers
        ensures { result ≡ [] }
    {
        NamedMembers {
            members: Items::new(alloc),
            names: None,
        }
    }

    /// Whether a member has the name.
    pub fn has(&self, name: &[u8]) -> bool
        ensures { result ≡ has_name self.now name.now }
    {
        match &self.names {
            Some(names) => names.has(name),
            None => has_member(self.members.as_slice(), name),
        }
    }

    /// Appends a member.
    pub fn push(&mut self, alloc: Global, name: Text, value: Json) -> Result<(), NoMemory>
        ensures { OnOk result (self.new ≡ self.old ++ record { name = name; value = value } ∷ []) }
    {
        let names = mem::replace(&mut self.names, None);
        let names = with_name(alloc, names, self.members.as_slice(), name.as_slice())?;
        self.members.push(Member { name, value })?;
        self.names = names;
        Ok(())
    }

    /// The members alone.
    pub fn into_items(self) -> Items<Member>
        ensures { result ≡ self }
    {
        let NamedMembers { members, .. } = self;
        members
    }
}
