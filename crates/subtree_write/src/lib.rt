//! Writing subtree files: of the files that hold a subtree's bits one is canonical, and is written. It reads back as
//! the subtree.
#![tactic(auto)]

mod file;
pub mod file_laws;
mod streams;
mod values;

pub use file::encode;
