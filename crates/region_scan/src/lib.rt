//! What a decoded subtree has in a region: the words of its tiles of one local level, and those of its child roots, in
//! key order. What is found is a filter of the nodes in the order of their local indices; the search for it goes by
//! words of bits, and passes over blocks of nodes that are outside.
#![tactic(auto)]

mod children;
mod level;
pub mod node_laws;
mod nodes;
mod search;

pub use children::child_roots;
pub use level::level_tiles;
