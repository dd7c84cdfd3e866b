//! Trials of reading: what no clause says of bits, templates, tiles, files and subtrees is tried here, above the crates
//! that promise the rest. There is nothing else in this crate.
#![tactic(auto)]

#[cfg(test)]
mod bits;
#[cfg(test)]
mod files;
#[cfg(test)]
mod layouts;
#[cfg(test)]
mod parts;
#[cfg(test)]
mod plain_scans;
#[cfg(test)]
mod rules;
#[cfg(test)]
mod scans;
#[cfg(test)]
mod templates;
#[cfg(test)]
mod tiles;
