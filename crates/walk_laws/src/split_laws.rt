// Laws of the tiles of a level, split by subtree roots (this project's own).
ghost use Rattle.walk_laws.specs.Split.{LevelsSplit, SegmentsMakeALevel};

/// The tiles of a level are the descendants of the tiles of a level above it, in their order.
pub fn a_level_splits_by_a_level_above()
    ensures { LevelsSplit }
{}

/// The available tiles of a region's level are the segments of the subtrees on the walk that have the level.
pub fn segments_make_a_level()
    ensures { SegmentsMakeALevel }
{}
