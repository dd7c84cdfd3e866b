//! What is replied to each event of a replay script, and the state that it leaves: the meaning of a replay, as a
//! machine over a scene. It keeps no words, no roots and no subtrees: what a pass reads are places of the answer. What
//! holds of every turn is the contract of a function that does nothing, and a lemma of `proofs/` to cite.
#![tactic(auto)]

mod pass;
pub mod turn_laws;
pub mod use_laws;

pub use pass::{Held, Pass};
