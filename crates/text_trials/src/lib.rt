//! Trials of what is read from and written to the outside: what no clause says of folders, streams, lines and heads is
//! tried here, above the crates that promise the rest. There is nothing else in this crate.
#![tactic(auto)]

#[cfg(test)]
mod connections;
#[cfg(test)]
mod heads;
#[cfg(test)]
mod ports;
#[cfg(test)]
mod requests;
#[cfg(test)]
mod scripts;
