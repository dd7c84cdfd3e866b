// One node of a subtree as a tile and a word.
ghost use Rattle.std.specs.Prelude.{◌≡◌, ◌+◌, ◌^◌, ◌<◌, ◌≤◌};
ghost use Rattle.implicit_tiling.specs.Tile.{branching};
ghost use Rattle.implicit_tiling.specs.Code.{word};
ghost use Rattle.implicit_tiling.specs.Nodes.{node_at as node_at_of, node_word, child_word};
ghost use Rattle.region_scan.specs.Found.{first_index, is_looked_at as is_looked_at_of};

use availability::Subtree;
use tile_coords::{Region, Tile, Word};
use tile_word::{index_of, tile_at, word_at};

/// Whether the nodes of a local level are below the levels in all, and not below the region's level: where they aren't,
/// none of them is in the region.
#[inline]
pub(crate) fn is_looked_at(subtree: &Subtree, local: u32, region: &Region) -> bool
    requires { local ≤ subtree.now.levels }
    ensures { result ≡ is_looked_at_of subtree.now local region.now }
{
    let level = level_of(subtree, local);
    level < subtree.cut && level <= region.level
}

/// The index of the first node of a local level among the tiles of its level.
#[inline]
pub(crate) fn first_at(subtree: &Subtree, local: u32) -> u64
    requires { subtree.now.root.level + local < subtree.now.cut }
    ensures { result ≡ first_index subtree.now local }
{
    index_of(subtree.scheme, &subtree.root) << (subtree.scheme.axes() * local)
}

/// The word of a node that is in a region. `first` is the index of its level's first node.
#[inline]
pub(crate) fn tile_word(subtree: &Subtree, local: u32, first: u64, index: u64) -> Word
    requires local { local < subtree.now.levels }
    requires first { first ≡ first_index subtree.now local }
    requires kept { subtree.now.root.level + local < subtree.now.cut }
    requires index { index < branching subtree.now.scheme ^ local }
    ensures { result ≡ node_word subtree.now local index }
{
    let mask = subtree.contents_at(local, index);
    word_with(subtree, local, first, index, mask)
}

/// The word of a child root. `first` is the index of the first one.
#[inline]
pub(crate) fn root_word(subtree: &Subtree, first: u64, index: u64) -> Word
    requires first { first ≡ first_index subtree.now subtree.now.levels }
    requires kept { subtree.now.root.level + subtree.now.levels < subtree.now.cut }
    requires index { index < branching subtree.now.scheme ^ subtree.now.levels }
    ensures { result ≡ child_word subtree.now index }
{
    word_with(subtree, subtree.levels, first, index, 0)
}

// The word of a node, or of a child root, with a mask. Its index is at hand, and no tile is made for it.
#[inline]
fn word_with(subtree: &Subtree, local: u32, first: u64, index: u64, mask: u16) -> Word
    requires local { local ≤ subtree.now.levels }
    requires first { first ≡ first_index subtree.now local }
    requires kept { subtree.now.root.level + local < subtree.now.cut }
    requires index { index < branching subtree.now.scheme ^ local }
    ensures { result ≡ word subtree.now.scheme (node_at_of subtree.now local index) mask }
{
    // The scheme is read so that the limits of the subtree are known.
    let _scheme = subtree.scheme;
    word_at(level_of(subtree, local), first + index, mask)
}

// The level of the nodes of a local level.
#[inline]
fn level_of(subtree: &Subtree, local: u32) -> u32
    requires { local ≤ subtree.now.levels }
    ensures { result ≡ subtree.now.root.level + local }
{
    subtree.root.level + local
}

/// The tile of a node, or of a child root at the level below the last one.
#[inline]
pub(crate) fn node_at(subtree: &Subtree, local: u32, first: u64, index: u64) -> Tile
    requires local { local ≤ subtree.now.levels }
    requires first { first ≡ first_index subtree.now local }
    requires kept { subtree.now.root.level + local < subtree.now.cut }
    requires index { index < branching subtree.now.scheme ^ local }
    ensures { result ≡ node_at_of subtree.now local index }
{
    tile_at(subtree.scheme, level_of(subtree, local), first + index)
}
