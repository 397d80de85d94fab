//! The text of a journal: a numbered line for each entry, and a line for each line handed out.
#![tactic(auto)]

mod guesses;
pub mod laws;
mod reading;
mod texts;
mod words;
mod writing;

pub use reading::{EntryWordList, HistoryRefusal, read_history};
pub use texts::put_json_word;
pub use words::{after_blank, before_blank, session};
pub use writing::{HistoryFault, write_history};
