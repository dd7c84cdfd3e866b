//! Trials of walks: what no clause says of cursors, of whole walks, and of walks that are published and shared is tried
//! here, above the crates that promise the rest. There is nothing else in this crate.
#![tactic(auto)]

#[cfg(test)]
mod courses;
#[cfg(test)]
mod cursors;
#[cfg(test)]
mod frames;
#[cfg(test)]
mod shown_walks;
#[cfg(test)]
mod whole_walks;
#[cfg(test)]
mod worked_walks;
