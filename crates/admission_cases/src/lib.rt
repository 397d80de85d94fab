//! Worked examples of admission and of introspection, given to the calls directly. Tests alone.
#![tactic(auto)]

#[cfg(test)]
mod admission;
#[cfg(test)]
mod depths;
#[cfg(test)]
mod introspection;
#[cfg(test)]
mod schemas;
#[cfg(test)]
mod verdicts;
