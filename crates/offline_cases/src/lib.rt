//! Cases of command lines, over public calls alone.
#![tactic(auto)]

#[cfg(test)]
mod tests;
