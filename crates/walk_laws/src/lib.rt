//! What follows from the definitions of the walk of a region alone, for both walks of the program: how the tiles of a
//! level split by the subtrees on the walk, what a decoded subtree gives of them, which subtrees come next, where the
//! first fault is, and that the steps of a walk are its answer. Each law is the contract of a function that does
//! nothing, and a lemma of `proofs/` to cite.
#![tactic(auto)]

pub mod frontier_laws;
pub mod pair_laws;
pub mod root_laws;
pub mod split_laws;
pub mod step_laws;
pub mod subtree_laws;
