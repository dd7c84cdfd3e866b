//! The calls of the program that several workers carry out: the words of a command line are read, the scene of the
//! files is started, the input is taken whole, and its lines are answered, each worker at its desk. The desks, the
//! inlet and the outlet are handed in.
#![tactic(auto)]

mod batch;
mod program;

pub use batch::answer_input;
pub use program::shared;
