use crate::kind::{KindList, Names};
use qm_base::{GrowingList, Text};

/// Commands in the order of their definitions.
pub type CommandList = GrowingList<CommandDef>;

/// Events in the order of their definitions.
pub type EventList = GrowingList<EventDef>;

/// What a command takes.
#[derive(Clone, Copy, Debug, PartialEq, Eq)]
pub enum ArgType {
    /// What is of the object type of this number.
    Typed(u32),
    /// Each object: the command is defined with `gen` false.
    AnyObject,
}

/// A command (QAPI code generation guide, "Commands").
#[derive(Debug, Drop)]
pub struct CommandDef {
    /// The name.
    pub name: Text,
    /// The number of commands and events together that are defined before it.
    pub place: u32,
    /// What it takes.
    pub arg: ArgType,
    /// The number of the type of what it returns.
    pub ret: u32,
    /// Whether it may be executed out of band.
    pub allow_oob: bool,
    /// Whether it may be executed before the machine is configured.
    pub allow_preconfig: bool,
    /// Its features.
    pub features: Names,
}

/// An event (QAPI code generation guide, "Events").
#[derive(Debug, Drop)]
pub struct EventDef {
    /// The name.
    pub name: Text,
    /// The number of commands and events together that are defined before it.
    pub place: u32,
    /// The number of the type of its data.
    pub arg: u32,
    /// Its features.
    pub features: Names,
}

/// The commands, events and types of a schema, each in the order of their definitions.
#[derive(Debug, Drop)]
pub struct Parts {
    /// The commands.
    pub commands: CommandList,
    /// The events.
    pub events: EventList,
    /// The types by their numbers.
    pub kinds: KindList,
}
