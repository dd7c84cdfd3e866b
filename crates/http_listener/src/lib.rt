//! Connections of TCP on this machine, served by workers: each has viewers of its own, and serves one connection after
//! the other from one listener. It is the one crate that knows sockets.
#![tactic(auto)]

mod stream_link;
mod workers;

pub use stream_link::StreamLink;
pub use workers::{listen, serve_all};
