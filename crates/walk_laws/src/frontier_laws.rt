// Laws of the subtree roots that are reached, level by level (this project's own).
ghost use Rattle.walk_laws.specs.Regions.{WholeIsARegion, WholeHasEachTile};
ghost use Rattle.walk_laws.specs.Frontiers.{ReachedIsOnTheWholeWalk, ReachedGoDown, ReachedAreAll, ReachedEnd};
ghost use Rattle.walk_laws.specs.Frontiers.{RootsEnd};
ghost use Rattle.walk_laws.specs.Frontiers.{ReachedAtARoot, CheckedIsAll, CheckedIsCut};

/// The region of the last level with its whole box is a region.
pub fn the_whole_is_a_region()
    ensures { WholeIsARegion }
{}

/// It has every tile of the levels in all.
pub fn the_whole_has_each_tile()
    ensures { WholeHasEachTile }
{}

/// A subtree root is reached exactly where it is on the walk of the whole region.
pub fn the_whole_walk_has_the_reached_roots()
    ensures { ReachedIsOnTheWholeWalk }
{}

/// The roots reached above a level and one subtree more are those above it, and then those of that level on the walk.
pub fn reached_roots_go_down()
    ensures { ReachedGoDown }
{}

/// Those reached above a level from the levels in all on are all that are reached.
pub fn reached_roots_are_all()
    ensures { ReachedAreAll }
{}

/// Those reached above a level without roots are all that are reached.
pub fn reached_roots_end()
    ensures { ReachedEnd }
{}

/// After a level without roots no further roots are on a walk.
pub fn roots_on_the_walk_end()
    ensures { RootsEnd }
{}

/// A root on the walk of the whole region stands, among all that are reached, after those above its level and those
/// before it.
pub fn a_root_is_in_the_midst_of_reached_roots()
    ensures { ReachedAtARoot }
{}

/// A check looks at all roots that are reached where they are few enough.
pub fn a_check_looks_at_all_roots()
    ensures { CheckedIsAll }
{}

/// A check that has looked at as many roots as it may, and before which another root stands, is cut there.
pub fn a_check_is_cut()
    ensures { CheckedIsCut }
{}
