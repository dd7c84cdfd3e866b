// How a walk ends, and what a check finds.
use crate::word::Word;

/// How a walk, or the part of it that was made so far, ends (this project's own).
#[derive(Clone, Copy, Debug, PartialEq, Eq)]
pub enum WalkEnd {
    /// The walk goes on.
    Partial,
    /// All tiles of the region were given.
    Complete,
    /// The region has more tiles than an answer holds.
    TooMany,
    /// The file of the subtree root of this word, with mask 0, has the fault of this number.
    Fault { root: Word, number: u64 },
}

/// A subtree root, by its word with mask 0, whose file has the fault of this number (1 to 18).
#[derive(Clone, Copy, Debug, PartialEq, Eq)]
pub struct FoundFault {
    pub root: Word,
    pub number: u64,
}

/// How a check of a whole tileset ends (this project's own).
#[derive(Clone, Copy, Debug, PartialEq, Eq)]
pub struct CheckEnd {
    /// How many subtree roots were looked at: up to 65,536.
    pub looked: u64,
    /// Whether more roots are reached.
    pub more: bool,
}
