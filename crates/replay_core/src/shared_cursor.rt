// A cursor of a replay.
use crate::shown_walk::ShownWalk;
use tile_coords::Plan;

/// A cursor of a replay: its plan, its walk, and the pass that holds its work, if one does. Passes that ask for equal
/// plans share it (this project's own).
#[derive(Drop)]
pub struct SharedCursor {
    pub(crate) plan: Plan,
    pub(crate) walk: ShownWalk,
    pub(crate) holder: Option<u32>,
}
