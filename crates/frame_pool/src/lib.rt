//! A pool of frames: which key each frame holds, who pins it, and which frame is given up for a new key.
//! `Pool` answers each question by its census and its order, which its contracts state as two lists. Beside them it
//! keeps where each key stands and which frames can be empty, so that a call takes no longer where there are more
//! frames. Only a victim is sought among the frames that are pinned, and notes of keys are now and then made anew.
#![tactic(auto)]

mod frame;
mod key_notes;
mod order;
mod pool;
mod victim;

pub use frame::{Asked, FrameState};
pub use order::Order;
pub use pool::Pool;
