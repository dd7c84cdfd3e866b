//! `serve`: the tileset of a source, shown to viewers over connections of HTTP on this machine.
#![tactic(auto)]

mod serving;

pub use serving::serve;
