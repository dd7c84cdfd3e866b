//! Trials of what threads share: what no clause says of the lock, the pools and the published words is tried here, above
//! the crates that promise the rest. There is nothing else in this crate.
#![tactic(auto)]

#[cfg(test)]
mod frames;
#[cfg(test)]
mod pools;
#[cfg(test)]
mod prefixes;
#[cfg(test)]
mod turns;
