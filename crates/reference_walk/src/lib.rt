//! The reference: the definitions' plain program, which no command runs. It reads a region level by level, each root
//! anew for each of its levels, and keeps nothing. What runs is compared with it on small tilesets.
#![tactic(auto)]

mod found;
mod level;
mod region;
mod step;

pub use region::fresh;
