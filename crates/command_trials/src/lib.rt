//! Trials of the calls of the program: what no clause says of them is tried here, above the crate that promises the rest.
//! There is nothing else in this crate.
#![tactic(auto)]

#[cfg(test)]
mod calls;
#[cfg(test)]
mod recipes;
