//! Decoded subtrees: which tiles, contents and child subtrees a subtree's bits name, and the two rules that those bits
//! keep.
#![tactic(auto)]

mod nodes;
mod rules;
mod subtree;

pub use nodes::nodes_above;
pub use subtree::{RuleFault, Subtree};
