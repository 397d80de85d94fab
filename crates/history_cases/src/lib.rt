//! Cases of histories that are read back, over public calls alone.
#![tactic(auto)]

#[cfg(test)]
mod history_rows;
