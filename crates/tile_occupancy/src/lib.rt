//! The tiles that a tileset is made of: `Occupancy` takes a list of words in key order in which each tile's parent
//! stands, or refuses it by its first fault. `generate` makes such lists for tests and times: it stands here, below the
//! recipes whose numbers it takes, since it makes an occupancy with no test of each word, as only this crate may.
#![tactic(auto)]

mod checks;
mod generator;
mod occupancy;
mod search;

pub use generator::generate;
pub use occupancy::{Occupancy, OccupancyFault};
