// Regions and limits over worked subtrees.
ghost use Rattle.std.specs.Prelude.{◌≡◌, ◌<◌, ◌≤◌, IfOk, length};
ghost use Rattle.implicit_tiling.specs.Limits.{most_levels, most_subtree_levels};

use availability::{Subtree, nodes_above};
use bitstream::Bits;
use region_scan::{child_roots, level_tiles};
use std::alloc::{AllocError, Global};
use std::test::Fail;
use tile_coords::{Region, Scheme, Tile, Word};
use tile_word::{nodes_at, word_at};

// Whether these are the words of tiles of a level with these indices, each with the same contents.
fn are_words(words: &[Word], level: u32, indices: &[u64], mask: u16) -> bool {
    if words.len() != indices.len() {
        return false;
    }
    for (place, index) in indices.iter().enumerate() {
        if words[place] != word_at(level, *index, mask) {
            return false;
        }
    }
    true
}

// The bits 1, 1, 1, 1, 0.
fn five_bits(alloc: Global) -> Result<Bits, AllocError>
    ensures { IfOk result (λ bits. length bits ≡ 5) }
{
    let mut bytes = Vec::new(alloc);
    bytes.push(0x0F)?;
    match Bits::of_bytes(bytes, 5) {
        Some(bits) => Ok(bits),
        None => Ok(Bits::constant(false, 5)),
    }
}

// Two levels of a quadtree below the tile 1,0 of level 1, of four levels in all. The last node isn't there; each node
// has a content bit, and each child bit is 1.
fn quadtree(alloc: Global) -> Result<Subtree, AllocError>
    ensures { IfOk result (λ s. (s.scheme ≡ Scheme.Quad) × (s.levels ≡ 2)) }
{
    let tiles = five_bits(alloc)?;
    let mut contents = Vec::new(alloc);
    contents.push(Bits::constant(true, 5))?;
    Ok(Subtree {
        scheme: Scheme::Quad,
        levels: 2,
        cut: 4,
        root: Tile {
            level: 1,
            x: 1,
            y: 0,
            z: 0,
        },
        tiles,
        contents,
        child: Bits::constant(true, 16),
    })
}

#[test]
fn regions_and_limits(rt: HostRuntime) -> Result<(), Fail> {
    // a region's level and box, the limit, the indices of the tiles of local level 1, whether there are more, and those of
    // the child roots
    let rows: [(u32, [u32; 3], [u32; 3], usize, &[u64], bool, &[u64]); 9] = [
        (2, [0, 0, 0], [3, 3, 0], 3, &[4, 5, 6], false, &[]),
        (2, [0, 0, 0], [3, 3, 0], 2, &[4, 5], true, &[]),
        (2, [0, 0, 0], [3, 3, 0], 0, &[], true, &[]),
        (2, [0, 0, 0], [3, 3, 0], 4, &[4, 5, 6], false, &[]),
        (1, [0, 0, 0], [1, 1, 0], 9, &[], false, &[]),
        (2, [0, 2, 0], [1, 3, 0], 9, &[], false, &[]),
        (4, [12, 1, 0], [12, 1, 0], 9, &[5], false, &[20]),
        (3, [6, 2, 0], [7, 3, 0], 0, &[], false, &[]),
        (3, [5, 0, 0], [6, 0, 0], 9, &[4, 5], false, &[17, 20]),
    ];
    for (level, lo, hi, limit, tiles, more, roots) in rows {
        let alloc = rt.alloc();
        let subtree = quadtree(alloc)?;
        let region = Region { level, lo, hi };
        let mut out = Vec::new(alloc);
        assert!(rt; level_tiles(&subtree, 1, &region, limit, &mut out)? == more);
        assert!(rt; are_words(&out, 2, tiles, 1));
        out.clear();
        child_roots(&subtree, &region, &mut out)?;
        assert!(rt; are_words(&out, 3, roots, 0));
    }
    Ok(())
}

// A subtree below the root tile with no content, whose other bits are all 1.
fn full(alloc: Global, scheme: Scheme, levels: u32, cut: u32) -> Subtree
    requires some { 1 ≤ levels }
    requires few { levels ≤ most_subtree_levels scheme }
    requires below { 0 < cut }
    requires within { cut ≤ most_levels scheme }
    ensures { (result.scheme ≡ scheme) × (result.levels ≡ levels) }
{
    let tiles = Bits::constant(true, nodes_above(scheme, levels));
    let child = Bits::constant(true, nodes_at(scheme, levels));
    Subtree {
        scheme,
        levels,
        cut,
        root: Tile::root(),
        tiles,
        contents: Vec::new(alloc),
        child,
    }
}

#[test]
fn the_deepest_octree(rt: HostRuntime) -> Result<(), Fail> {
    let alloc = rt.alloc();
    let subtree = full(alloc, Scheme::Oct, 7, 21);
    let region = Region {
        level: 6,
        lo: [63, 0, 63],
        hi: [63, 0, 63],
    };
    let mut out = Vec::new(alloc);
    assert!(rt; !level_tiles(&subtree, 6, &region, 9, &mut out)?);
    child_roots(&subtree, &region, &mut out)?;
    assert!(rt; are_words(&out, 6, &[187_245], 0));
    Ok(())
}
