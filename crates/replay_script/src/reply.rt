// What is replied to an event.
ghost use Rattle.std.specs.Prelude.{◌≡◌};
ghost use Rattle.replay_script.specs.Replies.{reply_words};

use tile_coords::{WalkEnd, Word};

/// What is replied to an event (this project's own). All but those that tell of a change leave everything as it was.
#[derive(Debug, Drop)]
pub enum Reply {
    /// The line has the form of no event.
    Bad,
    /// There is no such pass, or it isn't where the event needs it.
    No,
    /// The pass has this cursor now.
    Cursor(u32),
    /// The request line is refused by the rule of this number.
    Refused(u64),
    /// The pass holds the work of its cursor now.
    Claimed,
    /// The cursor has ended.
    End,
    /// Another pass holds the work.
    Out,
    /// The subtree stands in this frame, which the pass has pinned now.
    Hit(u32),
    /// The pass may load the subtree into this frame.
    Granted(u32),
    /// Another pass is loading the subtree.
    Loading,
    /// Every frame is pinned.
    Busy,
    /// The subtree stands in this frame now, which the pass has pinned.
    Loaded(u32),
    /// The file couldn't be read. The frame is empty.
    Failed,
    /// The step is made. The cursor shows this many tiles now.
    Moved(u64),
    /// Frame and work are given back.
    Dropped,
    /// The tiles from this place on, by their words, and how the walk stands.
    Page {
        from: u64,
        words: Vec<Word>,
        end: WalkEnd,
    },
}

impl Reply {
    /// The words of the tiles that the reply shows: those of a page, and none in any other.
    pub fn words(&self) -> &[Word]
        ensures { result.now ≡ reply_words self.now }
    {
        match self {
            Reply::Page { words, .. } => words,
            _ => &[],
        }
    }
}
