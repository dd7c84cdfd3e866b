// Laws of the places of tiles among the bits of their subtree (OGC 22-025r4, implicit tiling: availability).
ghost use Rattle.tiling_laws.specs.Places.{PlaceIsBelow, ChildPlace, OnePlaceOneTile};

/// A tile's place is below the number of its subtree's nodes.
pub fn a_place_is_within_its_subtree()
    ensures { PlaceIsBelow }
{}

/// In one subtree the children of the node at place p stand at the places N p + 1 to N p + N, in the order of their
/// numbers.
pub fn children_stand_in_place_order()
    ensures { ChildPlace }
{}

/// Tiles of one subtree at one place are one tile.
pub fn one_place_is_one_tile()
    ensures { OnePlaceOneTile }
{}
