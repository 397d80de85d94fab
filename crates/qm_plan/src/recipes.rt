use crate::templates::Template;
use crate::verbs::Verb;
use qm_base::Text;
use sqlite_items::Items;

/// A part of what a command does. This project's own rule.
#[derive(Drop)]
pub enum Act {
    /// A cell gets a value.
    Set {
        /// The cell's name.
        cell: Text,
        /// What the value is made of.
        to: Template,
    },
    /// A tally grows.
    Add {
        /// The tally's name.
        tally: Text,
        /// By how much.
        by: u32,
    },
    /// An event is raised.
    Raise {
        /// The event's number.
        event: u32,
        /// What its data is made of; without it there is none.
        payload: Option<Template>,
    },
    /// A job is started.
    Start {
        /// What its id is made of.
        id: Template,
        /// How many units of work it has.
        units: u32,
        /// Whether it becomes ready before it ends.
        ready: bool,
        /// Whether it waits to be finalized and dismissed.
        manual: bool,
    },
    /// Something is asked of a job.
    OnJob {
        /// What is asked.
        verb: Verb,
        /// What the job's id is made of.
        id: Template,
    },
    /// The negotiation ends, with what the arguments enable; a plan has none of these.
    Negotiate,
    /// The negotiation ends, with execution out of band or without.
    Enable(bool),
    /// The monitor stops.
    Quit,
    /// The command fails with this text.
    Fail(Text),
}

/// Whether a command waits before its plan is made, and for what.
#[derive(Clone, Copy, Debug, PartialEq, Eq)]
pub enum Waiting {
    /// It does not wait.
    No,
    /// It waits until another command lets it go on.
    Hold,
    /// It lets the commands go on that wait.
    Free,
}

/// What a command does, and what it returns.
#[derive(Drop)]
pub struct Recipe {
    /// Its acts, in order.
    pub acts: Items<Act>,
    /// What its return value is made of.
    pub ret: Template,
    /// Whether it waits first.
    pub waiting: Waiting,
}

/// What a call does, and what it returns: a recipe with the arguments of the call filled in.
#[derive(Drop)]
pub struct Plan {
    /// Its acts, in order.
    pub acts: Items<Act>,
    /// What its return value is made of.
    pub ret: Template,
}
