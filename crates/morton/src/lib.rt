//! Morton indices: the bits of two or three coordinates put together in one number, and taken apart again.
//! Each call works by masks on whole words, in a fixed number of steps, with no loop and no table.
#![tactic(auto)]

mod oct;
mod quad;

pub use oct::{coords3, index3};
pub use quad::{coords2, index2};

#[cfg(test)]
mod tests;
