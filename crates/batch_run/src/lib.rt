//! Lines answered by several workers over one scene: in rounds of 64 lines, each worker answers its own at its desk,
//! in a thread of its own, and the blocks are written in input order. What answers their plans is a trait: it knows
//! no walk and no frames.
#![tactic(auto)]

mod all_lines;
mod desk;
mod gate;
mod round;
mod scene;
mod viewing;
mod work;

pub use all_lines::batch;
pub use desk::Desk;
pub use gate::{Gate, NoGate};
pub use viewing::{AnswerStop, Pass, Viewing};
