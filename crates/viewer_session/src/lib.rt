//! Viewers of one scene: its layout, the walks of the plans that were asked for last, and the frames of its subtrees.
//! Who asks for a plan reads the walk that all share who ask for it, moves it on by one step at a time, or has its
//! answer whole.
//!
//! A viewer has a pass, which is for one thread, and a cursor for each plan that it looks at. Pages never wait.
#![tactic(auto)]

mod advance;
mod answer;
mod host;
mod next;
mod pass;
mod scene;
mod start;
mod walks;

pub use advance::Advance;
pub use answer::Whole;
pub use host::SceneHost;
pub use pass::{ViewerPass, Walked};
pub use scene::{Cursor, Scene};
pub use start::{StartFault, Started};
