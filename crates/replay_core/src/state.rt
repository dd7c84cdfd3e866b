// What runs a replay.
use crate::cursors::Cursors;
use crate::passes::Passes;
use frame_pool::Pool;
use subtree_outcome::Outcome;
use tile_coords::Word;

/// A replay as it runs: frames that hold what is read of the files of subtree roots, the cursors of the plans that
/// passes have asked for, and the passes (this project's own).
#[derive(Drop)]
pub struct Core {
    pub(crate) frames: Pool<Word, Outcome>,
    pub(crate) cursors: Cursors,
    pub(crate) passes: Passes,
}
