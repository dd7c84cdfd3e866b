// Which outcome fits which root.
use shared_pool::PoolRule;
use std::collections::LinkedList;
use subtree_outcome::Outcome;
use tile_coords::Word;
use tileset_json::Layout;

/// What all passes of a scene know of it: the files, where its source tells them, by name and bytes, and its layout.
/// Contracts alone see it; no value of it is made.
pub struct SceneTag {
    pub told: Option<LinkedList<(LinkedList<u64>, LinkedList<u64>)>>,
    pub layout: Layout,
}

/// The rule of the frames of a scene: the item of a root's word is the outcome of the root's file.
pub struct Outcomes;

impl PoolRule for Outcomes {
    ghost use Rattle.scene_frames.specs.Held.{Fits, no_scene};

    type Tag = SceneTag;

    type Key = Word;

    type Item = Outcome;

    ghost fits = { Fits };

    ghost any_tag = { no_scene };
}
