//! What the files of subtree roots hold, in frames that several passes share. A pass that holds the outcome of a root has
//! it pinned: it was found in a frame, or its file was read for it, and the turn of the pool is never had meanwhile.
#![tactic(auto)]

mod held;
mod rule;
mod scene;

pub use held::{HoldStop, hold};
pub use rule::{Outcomes, SceneTag};
pub use scene::start;
