//! The check of all subtree files of a tileset: its reached roots are read frontier by frontier, each of them once.
#![tactic(auto)]

mod first;
mod tileset;

pub use first::first_roots;
pub use tileset::{check_all, whole_plan};
