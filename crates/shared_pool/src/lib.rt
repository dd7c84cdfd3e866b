//! A pool of frames that several passes share behind a turn. A pass pins the value of a key, so that it stays in its
//! frame, or is granted a frame to load it into. A rule, which a user states, says which items fit which keys.
#![tactic(auto)]

mod answer;
mod ask;
mod changes;
mod entry;
mod host;
mod note;
mod pass;
mod rule;
mod shared;

pub use answer::Pinned;
pub use entry::Entry;
pub use host::Host;
pub use note::{Grants, Load, Note, Pin};
pub use pass::PoolPass;
pub use rule::{PoolRule, Pooled};
pub use shared::{PoolTag, Shared};
