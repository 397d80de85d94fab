//! Cases of schemas' texts and files, over public calls alone.
#![tactic(auto)]

#[cfg(test)]
mod lexing;
#[cfg(test)]
mod loading;
#[cfg(test)]
mod nesting;
#[cfg(test)]
mod parsing;
#[cfg(test)]
mod rows;
#[cfg(test)]
mod sealing;
