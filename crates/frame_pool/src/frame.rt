//! What a frame is, and what is answered to one who asks for a key.
ghost use Rattle.std.specs.Prelude.{◌≡◌};
ghost use Rattle.frame_pool.specs.States.{has_key, is_empty, is_free, state_key};

/// The state of a frame.
#[derive(Clone, Copy, Debug, PartialEq, Eq)]
pub enum FrameState<K> {
    /// Without a key and a value.
    Empty,
    /// Granted to one who fetches the value of the key. It counts as pinned.
    Loading { key: K },
    /// With the value of the key, and with the number of those who use it.
    Ready { key: K, pins: u32 },
}

/// The answer to one who asks for a key.
#[derive(Clone, Copy, Debug, PartialEq, Eq)]
pub enum Asked {
    /// The frame of this number has the value, and has one pin more.
    Hit(u32),
    /// The frame of this number is now loading the key, for the one who asked.
    Granted(u32),
    /// Another one is loading the key.
    Loading,
    /// Every frame is pinned.
    Busy,
}

impl<K: Copy + Eq> FrameState<K> {
    pub(crate) fn key(&self) -> Option<K>
        ensures { result ≡ state_key self.now }
    {
        match self {
            FrameState::Empty => None,
            FrameState::Loading { key } | FrameState::Ready { key, .. } => Some(*key),
        }
    }

    pub(crate) fn has(&self, key: K) -> bool
        ensures { result ≡ has_key K.eq key self.now }
    {
        match self {
            FrameState::Empty => false,
            FrameState::Loading { key: own } | FrameState::Ready { key: own, .. } => *own == key,
        }
    }

    pub(crate) fn is_empty(&self) -> bool
        ensures { result ≡ is_empty self.now }
    {
        matches!(self, FrameState::Empty)
    }

    pub(crate) fn is_free(&self) -> bool
        ensures { result ≡ is_free self.now }
    {
        matches!(self, FrameState::Ready { pins: 0, .. })
    }
}
