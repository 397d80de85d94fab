//! Cases of the monitor and of its journal's text, over public calls alone.
#![tactic(auto)]

#[cfg(test)]
mod histories;
#[cfg(test)]
mod playing;
#[cfg(test)]
mod replies;
#[cfg(test)]
mod schemas;
#[cfg(test)]
mod sessions;
#[cfg(test)]
mod worlds;
