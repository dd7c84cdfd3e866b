// What is read of a subtree's raw bits: masks, and the rule of parents by words.
ghost use Rattle.std.specs.Prelude.{◌≡◌, ◌<◌, ◌≤◌, length, map};
ghost use Rattle.std.specs.List.{All};
ghost use Rattle.implicit_tiling.specs.Limits.{most_subtree_levels, most_contents};
ghost use Rattle.implicit_tiling.specs.Tile.{branching};
ghost use Rattle.implicit_tiling.specs.Subtree.{mask_of_bits};
ghost use Rattle.implicit_tiling.specs.Bits.{bit_at};
ghost use Rattle.availability.specs.Rules.{HasOrphanAt, RepeatsBits};

use crate::nodes::nodes_above;
use bitstream::{Bits, low_bits};
use morton::index2;
use tile_coords::Scheme;
use tile_word::nodes_at;

// The bits of each content at a place, the first of them lowest.
pub(crate) fn mask_at(contents: &[Bits], place: u64) -> u16
    requires few { length contents.now ≤ most_contents }
    requires within { All (λ bits. place < length bits) contents.now }
    ensures { result ≡ mask_of_bits 0 (map (λ bits. bit_at bits place) contents.now) }
{
    let mut mask = 0u16;
    for (content, bits) in contents.iter().enumerate() {
        mask |= (bits.get(place) as u16) << content;
    }
    mask
}

// Whether a node of this level has a 1, and its parent a 0. 64 nodes are asked at once.
pub(crate) fn has_orphan_at(scheme: Scheme, tiles: &Bits, local: u32) -> bool
    requires below { 1 ≤ local }
    requires few { local ≤ most_subtree_levels scheme }
    ensures { HasOrphanAt scheme tiles.now local result }
{
    let parents = nodes_above(scheme, local - 1);
    let first = nodes_above(scheme, local);
    let nodes = nodes_at(scheme, local);
    for word in 0..nodes.div_ceil(64) {
        let index = 64 * word;
        let above = tiles.word_from(parents + (index >> scheme.axes()));
        let alone = tiles.word_from(first + index) & !for_each_child(scheme, above);
        if low_bits(alone, nodes - index) != 0 {
            return true;
        }
    }
    false
}

// Each of the first bits of a word as many times, side by side, as a tile has children.
fn for_each_child(scheme: Scheme, word: u64) -> u64
    ensures { RepeatsBits (branching scheme) word result }
{
    let four_times = twice(twice(word));
    match scheme {
        Scheme::Quad => four_times,
        Scheme::Oct => twice(four_times),
    }
}

// Each of the first 32 bits of a word twice.
fn twice(word: u64) -> u64
    ensures { RepeatsBits 2 word result }
{
    let half = (word & u64::from(u32::MAX)) as u32;
    index2(half, half)
}
