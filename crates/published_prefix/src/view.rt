// What the table keeps of a seat.
use crate::head::Head;
use std::collections::LinkedList;
use tile_coords::WalkEnd;

/// What a seat has of the turn, for contracts alone. No value of it is made.
pub enum Turn {
    Idle,
    /// It has the turn, and has loaded no head since.
    Claimed,
    /// It has the work. The head stands so since it took the turn or stored it, and these numbers stand past the words
    /// that are published, and as the words of a fault.
    At {
        steps: u64,
        length: u64,
        end: WalkEnd,
        row: LinkedList<u64>,
        fault_high: Option<u64>,
        fault_low: Option<u64>,
    },
}

/// A place whose first number was loaded, and the second number that stands there. No value of it is made.
pub struct Half {
    pub place: u64,
    pub low: u64,
}

/// What the table keeps of a seat, for contracts alone. No value of it is made.
pub struct View<G> {
    pub tag: G,
    /// For how many words the table has room.
    pub capacity: u64,
    /// The steps, length and end that it has seen.
    pub steps: u64,
    pub length: u64,
    pub end: WalkEnd,
    /// The heads that it loaded.
    pub heads: LinkedList<Head>,
    /// How many heads it stored.
    pub stores: u64,
    /// The values of the turn that its compare and exchanges found.
    pub tries: LinkedList<u64>,
    /// The word that it is loading.
    pub half: Option<Half>,
    pub turn: Turn,
}
