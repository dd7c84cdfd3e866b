//! The paused walk of a region: its state, the subtree root that its next step reads, and the step, which is one local
//! level of one subtree. Over the outcomes of a scene the steps are those that the definitions cut the walk into, one
//! after another.
#![tactic(auto)]

mod cursor;
pub mod cursor_laws;

pub use cursor::CursorState;
