//! Tiles, regions, plans and the ends of walks: the small values that every layer speaks of.
//! Each is seen by contracts as the plain record of numbers that the definitions of `implicit_tiling` speak of.
#![tactic(auto)]

mod plan;
mod region;
mod tile;
mod walk_end;
mod word;

pub use implicit_tiling::Scheme;
pub use plan::Plan;
pub use region::{Region, RegionFault};
pub use tile::Tile;
pub use walk_end::{CheckEnd, FoundFault, WalkEnd};
pub use word::Word;
