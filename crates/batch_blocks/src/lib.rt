//! The blocks of a batch: what is written for each line of an input that several workers answer in rounds. A round is
//! cut from the input, each line of it has one worker, and the replies of the workers become blocks in input order.
//! It knows no threads and no scene.
#![tactic(auto)]

mod reply;
mod round;

pub use reply::{Reply, append_reply};
pub use round::{ROUND_LINES, next_round, worker_of};
