// Laws of which tiles are available, and of what an answer reads (OGC 22-025r4, implicit tiling: availability).
ghost use Rattle.tiling_laws.specs.Available.{AvailableAsWritten, ReachedAsWritten, RootIsReached, AvailableByBits};
ghost use Rattle.tiling_laws.specs.Available.{AnswerReadsTheWalk};

/// A tile is available exactly where its subtree's file is reached and has no fault, its bit is 1, and it is the
/// root tile or its parent is available.
pub fn a_tile_is_available_as_written()
    ensures { AvailableAsWritten }
{}

/// A subtree root below level 0 is reached exactly where the file of its parent's subtree is reached and has no
/// fault, its parent is available, and its child bit is 1.
pub fn a_subtree_is_reached_as_written()
    ensures { ReachedAsWritten }
{}

/// The root tile is reached exactly where there is a level.
pub fn the_root_is_reached()
    ensures { RootIsReached }
{}

/// A tile is available exactly where its own bit, those of all its ancestors, and the child bits of the subtree
/// roots among them below level 0 are 1.
pub fn a_tile_is_available_by_its_bits()
    ensures { AvailableByBits }
{}

/// The answer for a region depends on no file outside its walk: where the files of the roots on the walk are alike,
/// so are the answers, whatever the other files hold.
pub fn an_answer_reads_its_walk_alone()
    ensures { AnswerReadsTheWalk }
{}
