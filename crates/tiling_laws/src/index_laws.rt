// Laws of the Morton index (OGC 22-025r4, implicit tiling: Morton index).
ghost use Rattle.tiling_laws.specs.Index.{FurtherPlacesAddNothing, ChildIndex, IndexIsBelow, EachIndexHasATile};
ghost use Rattle.tiling_laws.specs.Index.{TileIsAtItsIndex, OneIndexOneTile, AncestorIndex, DescendantsAreARun};

/// Places from the level on add nothing: the index of a tile is the same over any number of places that holds its
/// level.
pub fn further_places_add_nothing()
    ensures { FurtherPlacesAddNothing }
{}

/// The index of a child is N times its parent's, plus the child's number.
pub fn children_stand_in_index_order()
    ensures { ChildIndex }
{}

/// The index of a tile is below N^level.
pub fn an_index_is_within_its_level()
    ensures { IndexIsBelow }
{}

/// Each number below N^level is the index of a tile of that level.
pub fn each_index_has_a_tile()
    ensures { EachIndexHasATile }
{}

/// A tile is the one of its level and its index.
pub fn a_tile_is_at_its_index()
    ensures { TileIsAtItsIndex }
{}

/// Tiles of one level with one index are one tile.
pub fn one_index_is_one_tile()
    ensures { OneIndexOneTile }
{}

/// The index of an ancestor k levels above is the quotient of the index by N^k.
pub fn an_ancestor_has_the_first_places()
    ensures { AncestorIndex }
{}

/// The descendants of a tile on a level below it are the tiles of a run of indices.
pub fn descendants_are_a_run_of_indices()
    ensures { DescendantsAreARun }
{}
