//! Worked examples of turns, jobs and throttled events, given to the calls directly. Tests alone.
#![tactic(auto)]

#[cfg(test)]
mod jobs;
#[cfg(test)]
mod throttling;
#[cfg(test)]
mod turns;
