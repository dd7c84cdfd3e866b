//! From a few numbers to a tileset, for tests and times: a recipe names the tiles to generate, `make` puts all files
//! of their tileset through `tile_builder`, `tileset.json` as the last, and `survey` makes them in memory and walks
//! them.
#![tactic(auto)]

mod found;
mod layout;
mod making;
mod recipe;
mod surveying;
mod tileset;

pub use found::Survey;
pub use making::make;
pub use recipe::Recipe;
pub use surveying::survey;
