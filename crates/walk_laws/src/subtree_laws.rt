// Laws of a decoded subtree on the walk (OGC 22-025r4, implicit tiling: availability).
ghost use Rattle.walk_laws.specs.Decoded.{NodesAreAvailableByBit, NodesHaveTheirContents, NodesMakeASegment};
ghost use Rattle.walk_laws.specs.Decoded.{NodeWordsAreTileWords};

/// A node of a decoded subtree is available exactly where its bit is 1.
pub fn nodes_are_available_by_their_bits()
    ensures { NodesAreAvailableByBit }
{}

/// A node that is there has the contents that the subtree's bits say.
pub fn nodes_have_their_contents()
    ensures { NodesHaveTheirContents }
{}

/// The available tiles of a region in a local level of a decoded subtree are its nodes that are there and in the
/// region.
pub fn nodes_make_a_segment()
    ensures { NodesMakeASegment }
{}

/// The words of those tiles with their contents are the words of the nodes.
pub fn node_words_are_tile_words()
    ensures { NodeWordsAreTileWords }
{}
