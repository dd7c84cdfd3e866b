// Laws of the subtree roots on a walk, from level to level (OGC 22-025r4, implicit tiling: child subtree availability).
ghost use Rattle.walk_laws.specs.Regions.{AcceptedIsARegion};
ghost use Rattle.walk_laws.specs.Children.{ChildrenAreTheRootsBelow, ChildWordsAreRootWords, NoRootBelowAFault};
ghost use Rattle.walk_laws.specs.Children.{RootsGoDown, RootsAreOnTheWalk, RootsBeginAtTheRoot};

/// A region that is accepted has its box in order and within its level, which is below the levels in all.
pub fn an_accepted_region_is_one()
    ensures { AcceptedIsARegion }
{}

/// A walk begins with the root.
pub fn a_walk_begins_at_the_root()
    ensures { RootsBeginAtTheRoot }
{}

/// The roots on a walk are tiles where subtrees begin, reached and in the region.
pub fn roots_are_on_the_walk()
    ensures { RootsAreOnTheWalk }
{}

/// The roots on the walk at a level are those below the roots on the walk one subtree above, in their order.
pub fn roots_on_the_walk_go_down()
    ensures { RootsGoDown }
{}

/// The roots on the walk right below a decoded subtree are its children in the region.
pub fn children_are_the_roots_below()
    ensures { ChildrenAreTheRootsBelow }
{}

/// The words of those roots are the words of the children.
pub fn child_words_are_root_words()
    ensures { ChildWordsAreRootWords }
{}

/// No root below a faulty file is on a walk.
pub fn no_root_is_below_a_fault()
    ensures { NoRootBelowAFault }
{}
