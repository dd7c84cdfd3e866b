// The next node of a level that is in a region: bits are searched by words, and what is outside is passed over by
// blocks.
ghost use Rattle.std.specs.Prelude.{◌≡◌, ◌+◌, ◌-◌, ◌/◌, ◌^◌, ◌<◌, ◌≤◌, ◌&&◌, false, MatchOption};
ghost use Rattle.implicit_tiling.specs.Tile.{branching};
ghost use Rattle.implicit_tiling.specs.Region.{is_in};
ghost use Rattle.implicit_tiling.specs.Nodes.{node_at as node_at_of, is_tile_in, is_child_in};
ghost use Rattle.bitstream.specs.Bits.{HasNoOne, IsFirstOne};
ghost use Rattle.region_scan.specs.Found.{first_index, is_child};

use crate::nodes::{first_at, node_at};
use availability::Subtree;
use tile_coords::Region;
use tile_word::nodes_at;

/// The least index from `from` on of a node of a local level that is there and in the region. None exactly where
/// there is none. `first` is the index of the level's first node.
pub(crate) fn next_tile(
    subtree: &Subtree,
    local: u32,
    first: u64,
    region: &Region,
    from: u64,
) -> Option<u64>
    requires local { local < subtree.now.levels }
    requires first { first ≡ first_index subtree.now local }
    requires kept { subtree.now.root.level + local < subtree.now.cut }
    requires from { from ≤ branching subtree.now.scheme ^ local }
    ensures { MatchOption result (HasNoOne (is_tile_in subtree.now region.now local) from
        (branching subtree.now.scheme ^ local)) (IsFirstOne (is_tile_in subtree.now region.now local) from
        (branching subtree.now.scheme ^ local)) }
{
    let mut at = from;
    while let Some(index) = subtree.next_tile(local, at) {
        if region.meets(&node_at(subtree, local, first, index)) {
            return Some(index);
        }
        at = outside_until(subtree, local, region, index);
    }
    None
}

/// The least index from `from` on of a child root whose child bit is 1, whose parent is there, and which is in the
/// region. None exactly where there is none. `first` is the index of the first child root.
pub(crate) fn next_child(subtree: &Subtree, first: u64, region: &Region, from: u64) -> Option<u64>
    requires first { first ≡ first_index subtree.now subtree.now.levels }
    requires kept { subtree.now.root.level + subtree.now.levels < subtree.now.cut }
    requires from { from ≤ branching subtree.now.scheme ^ subtree.now.levels }
    ensures { MatchOption result (HasNoOne (is_child_in subtree.now region.now) from
        (branching subtree.now.scheme ^ subtree.now.levels)) (IsFirstOne (is_child_in subtree.now region.now) from
        (branching subtree.now.scheme ^ subtree.now.levels)) }
{
    let mut at = from;
    while let Some(index) = next_child_of_tile(subtree, at) {
        if region.meets(&node_at(subtree, subtree.levels, first, index)) {
            return Some(index);
        }
        at = outside_until(subtree, subtree.levels, region, index);
    }
    None
}

// The least index from `from` on of a child root whose child bit is 1 and whose parent is there. Where a parent isn't,
// the children of those up to the next one are passed over.
fn next_child_of_tile(subtree: &Subtree, from: u64) -> Option<u64>
    requires { from ≤ branching subtree.now.scheme ^ subtree.now.levels }
    ensures { MatchOption result (HasNoOne (is_child subtree.now) from
        (branching subtree.now.scheme ^ subtree.now.levels)) (IsFirstOne (is_child subtree.now) from
        (branching subtree.now.scheme ^ subtree.now.levels)) }
{
    let children = nodes_at(subtree.scheme, 1);
    let mut at = from;
    while let Some(index) = subtree.next_child(at) {
        let parent = index / children;
        let next = subtree.next_tile(subtree.levels - 1, parent)?;
        if next == parent {
            return Some(index);
        }
        at = next * children;
    }
    None
}

// The end of a block of nodes which begins at or before a node that is outside the region, and is outside as a whole:
// the nodes below the highest one above that is outside, too.
fn outside_until(subtree: &Subtree, local: u32, region: &Region, index: u64) -> u64
    requires local { local ≤ subtree.now.levels }
    requires kept { subtree.now.root.level + local < subtree.now.cut }
    requires index { index < branching subtree.now.scheme ^ local }
    requires outside { is_in region.now (node_at_of subtree.now local index) ≡ false }
    ensures behind { index < result }
    ensures within { result ≤ branching subtree.now.scheme ^ local }
    ensures outside { HasNoOne (λ m. is_in region.now (node_at_of subtree.now local m)) index result }
{
    let scheme = subtree.scheme;
    let mut end = index + 1;
    for up in 1..local + 1 {
        let nodes = nodes_at(scheme, up);
        let block = index / nodes;
        let above = node_at(subtree, local - up, first_at(subtree, local - up), block);
        if region.meets(&above) {
            return end;
        }
        end = (block + 1) * nodes;
    }
    end
}
