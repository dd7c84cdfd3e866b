//! What runs a replay: frames, cursors and passes, one event at a time. Over the outcomes of a scene each reply is that
//! of the replay's machine, and so is the state that it leaves. A cursor is a paused walk that keeps the words that its
//! steps gave. The crate reads no file and knows no text.
#![tactic(auto)]

mod claiming;
mod cursors;
mod moving;
mod passes;
mod pinning;
mod shared_cursor;
mod shown_walk;
mod standing;
mod state;
mod stepping;

pub use shown_walk::ShownWalk;
pub use state::Core;
