//! Trials of replays: what no clause says of whole scripts is tried here, above the crates that promise the rest. There
//! is nothing else in this crate.
#![tactic(auto)]

#[cfg(test)]
mod scripts;
