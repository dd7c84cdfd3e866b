//! An input that is taken whole before anything is made of it, up to the most bytes that an input may have.
#![tactic(auto)]

mod input;

pub use input::{InputStop, MOST_INPUT_BYTES, take_input};
