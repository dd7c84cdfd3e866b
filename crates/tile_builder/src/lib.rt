//! From tiles to files: `build` puts the subtree files of an occupancy into a keeper, one of them in memory at a
//! time. It takes any list of tiles; which lists are generated from a few numbers is the matter of `tileset_make`.
#![tactic(auto)]

mod bits;
mod builder;
mod file;
mod runs;
mod subtree;

pub use builder::{BuildStop, Built, build};
pub use tile_occupancy::{Occupancy, OccupancyFault, generate};
pub use tileset_write::layout_text;

#[cfg(test)]
mod tests;
