ghost use Rattle.std.specs.Prelude.{◌≡◌, ◌<◌, length, IfOk, Some, slice_get};
ghost use Rattle.qapi_types.specs.Goodness.{IsGood};
ghost use Rattle.qapi_types.specs.Lookups.{place_of, command_names, event_names};
ghost use Rattle.qapi_types.specs.Types.{kind_of, member_names, value_names};

use crate::kind::Kind;
use crate::lookups::kind_at;
use crate::parts::{CommandDef, EventDef, Parts};
use crate::sealing::{command_table, event_table, tables_of};
use crate::tables::NameIndex;
use qm_base::NoMemory;
use std::alloc::Global;
use std::marker::Model;

/// A sealed schema, which contracts see as its parts: they are good, and its names are found
/// without a walk.
#[derive(Drop)]
pub struct Schema {
    parts: Parts,
    commands: NameIndex,
    events: NameIndex,
    tables: Vec<NameIndex>,
}

impl Model for Schema {
    ghost use Rattle.qapi_types.specs.declared.parts.Parts.{Parts};
    ghost use Rattle.qapi_types.specs.Goodness.{IsGood};
    ghost use Rattle.qapi_types.specs.Lookups.{AreIndexed};
    ghost use Rattle.qapi_types.specs.contracts.parts.Parts as inner;

    ghost Value = { Parts };

    ghost coded = { inner.the_row.coded };

    ghost view = { λ s. s.parts };

    ghost invariant = { λ s. IsGood s.parts × AreIndexed s.parts s.commands s.events s.tables.items };
}

impl Schema {
    /// Seals good parts. An error says nothing but that memory was wanting.
    pub fn seal(alloc: Global, parts: Parts) -> Result<Schema, NoMemory>
        requires { IsGood parts }
        ensures { IfOk result (λ schema. schema ≡ parts) }
    {
        let commands = command_table(alloc, &parts)?;
        let events = event_table(alloc, &parts)?;
        let tables = tables_of(alloc, &parts)?;
        Ok(Schema {
            parts,
            commands,
            events,
            tables,
        })
    }

    /// The parts, which are good.
    pub fn parts(&self) -> &Parts
        ensures value { result.now ≡ self.now }
        ensures good { IsGood self.now }
    {
        &self.parts
    }

    /// How many commands there are.
    pub fn commands(&self) -> u32
        ensures { result ≡ length self.now.commands }
    {
        self.parts.commands.len() as u32
    }

    /// How many events there are.
    pub fn events(&self) -> u32
        ensures { result ≡ length self.now.events }
    {
        self.parts.events.len() as u32
    }

    /// How many types there are.
    pub fn types(&self) -> u32
        ensures { result ≡ length self.now.kinds }
    {
        self.parts.kinds.len() as u32
    }

    /// The command of the number.
    pub fn command(&self, id: u32) -> &CommandDef
        requires { id < length self.now.commands }
        ensures { slice_get self.now.commands id ≡ Some result.now }
    {
        &self.parts.commands.as_slice()[id as usize]
    }

    /// The event of the number.
    pub fn event(&self, id: u32) -> &EventDef
        requires { id < length self.now.events }
        ensures { slice_get self.now.events id ≡ Some result.now }
    {
        &self.parts.events.as_slice()[id as usize]
    }

    /// What the type of the number is.
    pub fn kind(&self, id: u32) -> &Kind
        requires { id < length self.now.kinds }
        ensures { result.now ≡ kind_of self.now.kinds id }
    {
        kind_at(self.parts.kinds.as_slice(), id as usize)
    }

    /// The number of the command of the name; None exactly where there is none. It takes no
    /// memory.
    pub fn find_command(&self, name: &[u8]) -> Option<u32>
        ensures { result ≡ place_of (command_names self.now) name.now }
    {
        self.commands.place(name)
    }

    /// The number of the event of the name; None exactly where there is none. It takes no memory.
    pub fn find_event(&self, name: &[u8]) -> Option<u32>
        ensures { result ≡ place_of (event_names self.now) name.now }
    {
        self.events.place(name)
    }

    /// The position of the member of the name in the type's members; None exactly where there is
    /// none, as in a type without members. It takes no memory.
    pub fn find_member(&self, type_id: u32, name: &[u8]) -> Option<u32>
        requires { type_id < length self.now.kinds }
        ensures { result ≡ place_of (member_names (kind_of self.now.kinds type_id)) name.now }
    {
        match kind_at(self.parts.kinds.as_slice(), type_id as usize) {
            Kind::Object(_) => self.tables[type_id as usize].place(name),
            _ => None,
        }
    }

    /// The position of the value in the values of an enum; None exactly where there is none, as in
    /// a type that is no enum. It takes no memory.
    pub fn find_value(&self, type_id: u32, name: &[u8]) -> Option<u32>
        requires { type_id < length self.now.kinds }
        ensures { result ≡ place_of (value_names (kind_of self.now.kinds type_id)) name.now }
    {
        match kind_at(self.parts.kinds.as_slice(), type_id as usize) {
            Kind::Enum(_, _) => self.tables[type_id as usize].place(name),
            _ => None,
        }
    }
}
