//! What commands do: recipes, the plans of calls, and the store that plans change; and what
//! events are throttled by. This project's own rule.
#![tactic(auto)]

pub mod applied;
pub mod applying;
mod arguments;
pub mod calls;
pub mod cells;
pub mod changes;
mod copying;
pub mod events;
pub mod facts;
mod filling;
pub mod laws;
mod lists;
mod overlay;
pub mod planning;
pub mod recipes;
pub mod stores;
pub mod templates;
mod values;
pub mod verbs;

pub use applied::{Applied, ApplyFault};
pub use applying::apply;
pub use calls::Call;
pub use cells::{Cell, CellList};
pub use changes::{StoreChange, StoreChangeList};
pub use events::{Names, Period, PeriodList, Raised, RaisedList};
pub use facts::Facts;
pub use planning::{plan, plan_with};
pub use recipes::{Act, Plan, Recipe, Waiting};
pub use stores::Store;
pub use templates::{Template, TemplateMember};
pub use verbs::Verb;

/// The greatest count of a tally: 2^63-1.
pub const MOST_COUNT: u64 = 9_223_372_036_854_775_807;
