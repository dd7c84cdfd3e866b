// What stands in the log of a pool.

/// A change of a pool that counts for its keys. Contracts alone see it; no value of it is made.
pub enum Entry<K> {
    /// The pass was granted a frame for the key. Another key may have lost the frame.
    Granted {
        pass: usize,
        key: K,
        lost: Option<K>,
    },
    /// The pass ended its loading of the key without a value.
    Ended {
        pass: usize,
        key: K,
    },
}
