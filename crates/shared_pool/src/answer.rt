// What a pass is answered, and what it has.
use std::alloc::Global;
use std::sync::Arc;

/// The answer to a pass that pins the value of a key.
#[derive(Drop)]
pub enum Pinned<T: Drop> {
    /// The value, which the pass has pinned.
    Hit(Arc<T, Global>),
    /// The pass has a frame to load the value into, which `settle` brings.
    Granted,
    /// Every frame is pinned, and none has the key.
    Busy,
    /// The value was there, but there was no memory to share it.
    Memory,
}

// The frame that a pass has, and the key that it loads.
#[derive(Clone, Copy)]
pub(crate) enum Held<K> {
    Nothing,
    Loading { frame: u32, key: K },
    Pinned { frame: u32 },
}

// What one look at the pool gave.
pub(crate) enum Asking<T: Drop> {
    Hit(u32, Arc<T, Global>),
    Granted(u32),
    Busy,
    Memory,
}
