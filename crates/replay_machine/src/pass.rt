// The state of a pass.

/// The frame of a pass (this project's own).
#[derive(Clone, Copy, Debug, PartialEq, Eq)]
pub enum Held {
    /// It has none.
    Nothing,
    /// It loads the subtree of the next root of its work into the frame of this number.
    Loads(u32),
    /// It has pinned the frame of this number.
    Pins(u32),
}

/// A pass: a viewer of a replay (this project's own).
#[derive(Clone, Copy, Debug, PartialEq, Eq)]
pub struct Pass {
    /// The number of its cursor, where it has one.
    pub cursor: Option<u32>,
    /// The place in the answer of the tile that it reads next.
    pub place: u64,
    pub frame: Held,
}
