// One node of a subtree: whether it is there and in a region, and its word.
ghost use Rattle.std.specs.Prelude.{◌≡◌, ◌+◌, ◌^◌, ◌<◌, ◌≤◌};
ghost use Rattle.implicit_tiling.specs.Tile.{branching};
ghost use Rattle.implicit_tiling.specs.Nodes.{node_at as node_at_of, node_word, child_word, is_tile_in, is_child_in};
ghost use Rattle.region_scan.specs.Found.{first_index};
ghost use Rattle.reference_scan.specs.Tested.{some_if};

use availability::Subtree;
use tile_coords::{Region, Tile, Word};
use tile_word::{index_of, tile_at, word_of};

/// The word of a node, where the node is there and in the region.
pub(crate) fn tile_in(subtree: &Subtree, local: u32, region: &Region, index: u64) -> Option<Word>
    requires local { local < subtree.now.levels }
    requires index { index < branching subtree.now.scheme ^ local }
    ensures { result ≡ some_if (is_tile_in subtree.now region.now local index) (node_word subtree.now local index) }
{
    if !subtree.tile_at(local, index) {
        return None;
    }
    let tile = node_at(subtree, local, index);
    if !region.meets(&tile) {
        return None;
    }
    Some(word_of(subtree.scheme, &tile, subtree.contents_at(local, index)))
}

/// The word of a child root, where its child bit is 1, its parent is there, and it is in the region.
pub(crate) fn child_in(subtree: &Subtree, region: &Region, index: u64) -> Option<Word>
    requires { index < branching subtree.now.scheme ^ subtree.now.levels }
    ensures { result ≡ some_if (is_child_in subtree.now region.now index) (child_word subtree.now index) }
{
    let parent = index >> subtree.scheme.axes();
    if !subtree.child_at(index) || !subtree.tile_at(subtree.levels - 1, parent) {
        return None;
    }
    let root = node_at(subtree, subtree.levels, index);
    if !region.meets(&root) {
        return None;
    }
    Some(word_of(subtree.scheme, &root, 0))
}

// The tile of a node, or of a child root at the level below the last one.
fn node_at(subtree: &Subtree, local: u32, index: u64) -> Tile
    requires local { local ≤ subtree.now.levels }
    requires kept { subtree.now.root.level + local < subtree.now.cut }
    requires index { index < branching subtree.now.scheme ^ local }
    ensures { result ≡ node_at_of subtree.now local index }
{
    let first = first_at(subtree, local);
    tile_at(subtree.scheme, level_of(subtree, local), first + index)
}

// The level of the nodes of a local level.
fn level_of(subtree: &Subtree, local: u32) -> u32
    requires { local ≤ subtree.now.levels }
    ensures { result ≡ subtree.now.root.level + local }
{
    subtree.root.level + local
}

// The index of the first node of a local level among the tiles of its level.
fn first_at(subtree: &Subtree, local: u32) -> u64
    requires { subtree.now.root.level + local < subtree.now.cut }
    ensures { result ≡ first_index subtree.now local }
{
    index_of(subtree.scheme, &subtree.root) << (subtree.scheme.axes() * local)
}
