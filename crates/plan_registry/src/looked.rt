// What one look for a plan gave.

// What one look gave.
pub enum Looked<W> {
    // A new seat on the walk that was there.
    There(W),
    // No walk of the plan was there.
    Absent,
    // The walk was there, but its prefix has no room for one more owner.
    Memory,
}
