//! Trials of writing: what no clause says of occupancies, files and whole tilesets is tried here, above the crates that
//! promise the rest. There is nothing else in this crate.
#![tactic(auto)]

#[cfg(test)]
mod layouts;
#[cfg(test)]
mod occupancies;
#[cfg(test)]
mod recipes;
#[cfg(test)]
mod subtrees;
