//! Cases of texts, values, framing and reading, over public calls alone.
#![tactic(auto)]

#[cfg(test)]
mod base;
#[cfg(test)]
mod framing;
#[cfg(test)]
mod printing;
#[cfg(test)]
mod reading;
#[cfg(test)]
mod reading_faults;
#[cfg(test)]
mod sinks;
#[cfg(test)]
mod tables;
