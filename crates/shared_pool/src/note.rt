// What the turn keeps of a pass. Contracts alone see it; no value of it is made.
use crate::entry::Entry;
use std::collections::LinkedList;

/// A frame that a pass has pinned, with the key and the value that it found there.
pub struct Pin<K, T> {
    pub frame: u32,
    pub key: K,
    pub value: T,
}

/// A frame that a pass was granted, with the key that it loads.
pub struct Load<K> {
    pub frame: u32,
    pub key: K,
}

/// The number of a pass, with the entries of the log that have this number.
pub struct Grants<K> {
    pub pass: usize,
    pub entries: LinkedList<Entry<K>>,
}

/// What the rule knows of a pass, or of the host.
pub struct Note<K, T> {
    /// What it has pinned.
    pub pin: Option<Pin<K, T>>,
    /// What it loads.
    pub loading: Option<Load<K>>,
    /// The numbers that it has. A pass has one, and the host those of the passes that aren't handed out.
    pub granted: LinkedList<Grants<K>>,
    /// How often it was answered that every frame is pinned.
    pub busies: u64,
}
