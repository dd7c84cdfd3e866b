//! The reference: the definitions' plain program, which no command runs. It tests each node of a subtree's level by
//! itself, in the order of the local indices, and keeps those in the region. What it promises of the tiles of a level
//! and of the child roots is what `region_scan` promises, word for word, so both find the same.
#![tactic(auto)]

mod children;
mod level;
mod nodes;

pub use children::child_roots_plain;
pub use level::level_tiles_plain;
