// Laws of a subtree's nodes and of the words that are found (this project's own).
ghost use Rattle.region_scan.specs.NodeLaws.{EachNodeIsATile, WordsRise, NodesInTheRegion, NodeChildren};
ghost use Rattle.region_scan.specs.NodeLaws.{FoundWordsAreWords, FoundWordsRise};

/// A node is a tile of its level below the root: its index is the level's first and then its own, and its coordinates
/// are the root's and then its own.
pub fn nodes_are_tiles_below_the_root()
    ensures { EachNodeIsATile }
{}

/// For one mask a node's word rises with its local index.
pub fn words_rise_with_the_local_index()
    ensures { WordsRise }
{}

/// A node is in the region exactly where its coordinates are.
pub fn a_node_is_in_the_region_where_its_coordinates_are()
    ensures { NodesInTheRegion }
{}

/// The children of a node are nodes of the next level, and are in the region only where the node is.
pub fn children_of_a_node_are_nodes()
    ensures { NodeChildren }
{}

/// Each word that is found is that of a tile in the region, within the limits, below the subtree's root and its levels
/// in all, with a mask of the subtree's contents, or of none for a child root.
pub fn what_is_found_are_words()
    ensures { FoundWordsAreWords }
{}

/// The words that are found stand in key order.
pub fn what_is_found_is_in_key_order()
    ensures { FoundWordsRise }
{}
