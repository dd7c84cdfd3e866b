//! Trials of what several viewers do over one scene: what no clause says of them is tried here, above the crates that
//! promise the rest. There is nothing else in this crate.
#![tactic(auto)]

#[cfg(test)]
mod batches;
#[cfg(test)]
mod files;
#[cfg(test)]
mod held;
