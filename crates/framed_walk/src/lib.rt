//! The walk of a region for one viewer, over a pool of frames and the paused walk: a subtree that a frame still holds
//! isn't read again. The answer is the one that a walk without frames gives.
#![tactic(auto)]

mod frames;
mod walk;

pub use walk::framed;
