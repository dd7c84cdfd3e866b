// Laws of the pairs of a walk, and of its answer and steps by the pairs that are done (this project's own).
ghost use Rattle.walk_laws.specs.Pairs.{PairsGoDown, PairsAboveComeFirst, PairsAtARoot, PairsEnd, RootsOfInnerLevels};
ghost use Rattle.walk_laws.specs.Pairs.{TilesAboveALevel, NoFaultsAboveTellNone, NoFaultsGoDown};
ghost use Rattle.walk_laws.specs.Pairs.{AnswerIsComplete, AnswerStopsAtAFault, AnswerIsCut, StepsFollowThePairs};

/// The pairs above a level are followed by the pairs of that level.
pub fn pairs_go_down()
    ensures { PairsGoDown }
{}

/// The pairs above a level are the first ones.
pub fn pairs_above_come_first()
    ensures { PairsAboveComeFirst }
{}

/// A root of a level has its pair after the pairs above that level and those of the roots before it.
pub fn a_root_is_in_the_midst_of_pairs()
    ensures { PairsAtARoot }
{}

/// The tiles of the pairs above a level are the available tiles of the region above that level.
pub fn pairs_have_the_tiles_above_a_level()
    ensures { TilesAboveALevel }
{}

/// Where no root on the walk above a level has a fault, no pair there tells one.
pub fn good_roots_tell_no_fault()
    ensures { NoFaultsAboveTellNone }
{}

/// Where the roots of a level have no fault either, no root on the walk up to one subtree below has one.
pub fn good_roots_go_down()
    ensures { NoFaultsGoDown }
{}

/// The pairs above a level without roots are all pairs.
pub fn pairs_end()
    ensures { PairsEnd }
{}

/// Each level of a subtree has the roots of its first level.
pub fn inner_levels_have_the_same_roots()
    ensures { RootsOfInnerLevels }
{}

/// Without a fault and with few enough tiles an answer is complete.
pub fn an_answer_is_complete()
    ensures { AnswerIsComplete }
{}

/// An answer stops at the first pair that tells a fault, where the tiles before it are few enough.
pub fn an_answer_stops_at_a_fault()
    ensures { AnswerStopsAtAFault }
{}

/// An answer is cut where the tiles of pairs without a fault are too many, whatever comes after them.
pub fn an_answer_is_cut()
    ensures { AnswerIsCut }
{}

/// Pairs without a fault and with few enough tiles that another one follows have one partial step each.
pub fn steps_follow_the_pairs()
    ensures { StepsFollowThePairs }
{}
