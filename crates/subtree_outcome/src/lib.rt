//! What the file of a subtree root holds with the files of its buffers: the subtree, or the first fault. It knows no
//! walk.
#![tactic(auto)]

mod buffers;
mod outcome;
pub mod outcome_laws;
mod root;

pub use outcome::{Outcome, WalkStop, read_subtree};
pub use root::root_tile;
