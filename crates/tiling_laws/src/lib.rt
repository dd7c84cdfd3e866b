//! What follows from the definitions of tiles alone, for every layer above: laws of the index, of places in a
//! subtree, of the order of tiles and of availability. Each law is the contract of a function that does nothing, and
//! a lemma of `proofs/` to cite.
#![tactic(auto)]

pub mod availability_laws;
pub mod index_laws;
pub mod node_laws;
pub mod order_laws;
pub mod place_laws;
