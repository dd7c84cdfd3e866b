//! Trials of connections: what no clause says of a connection that is served is tried here, above the crates that promise
//! the rest. There is nothing else in this crate.
#![tactic(auto)]

#[cfg(test)]
mod links;
#[cfg(test)]
mod scenes;
#[cfg(test)]
mod sockets;
#[cfg(test)]
mod talks;
