// What runs finds what the reference finds, over subtrees of both schemes, regions and limits.
ghost use Rattle.std.specs.Prelude.{◌≡◌, ◌^◌, ◌<◌, ◌≤◌, IfOk, length};
ghost use Rattle.implicit_tiling.specs.Limits.{most_levels, most_subtree_levels};
ghost use Rattle.implicit_tiling.specs.Tile.{branching};

use availability::{Subtree, nodes_above};
use bitstream::Bits;
use reference_scan::{child_roots_plain, level_tiles_plain};
use region_scan::{child_roots, level_tiles};
use std::alloc::{AllocError, Global};
use std::test::Fail;
use tile_coords::{Region, Scheme};
use tile_word::{nodes_at, tile_at};

// So many bits, of which about three in four are 1, at places that depend on a seed.
fn mixed_bits(alloc: Global, count: u64, seed: u64) -> Result<Bits, AllocError>
    ensures { IfOk result (λ bits. length bits ≡ count) }
{
    let mut bytes = Vec::new(alloc);
    let mut state = seed;
    for _ in 0..count.div_ceil(8) {
        state = state
            .wrapping_mul(6_364_136_223_846_793_005)
            .wrapping_add(1_442_695_040_888_963_407);
        bytes.push((state >> 56) as u8 | (state >> 48 & 0xFF) as u8)?;
    }
    match Bits::of_bytes(bytes, count) {
        Some(bits) => Ok(bits),
        None => Ok(Bits::constant(false, count)),
    }
}

// A subtree with one content, whose bits depend on a seed, below the tile of a level and an index.
fn mixed_subtree(
    alloc: Global,
    scheme: Scheme,
    levels: u32,
    cut: u32,
    level: u32,
    index: u64,
    seed: u64,
) -> Result<Subtree, AllocError>
    requires some { 1 ≤ levels }
    requires few { levels ≤ most_subtree_levels scheme }
    requires within { cut ≤ most_levels scheme }
    requires below { level < cut }
    requires index { index < branching scheme ^ level }
{
    let nodes = nodes_above(scheme, levels);
    let root = tile_at(scheme, level, index);
    let tiles = mixed_bits(alloc, nodes, seed)?;
    let mut contents = Vec::new(alloc);
    contents.push(mixed_bits(alloc, nodes, seed.wrapping_add(1))?)?;
    let child = mixed_bits(alloc, nodes_at(scheme, levels), seed.wrapping_add(2))?;
    Ok(Subtree {
        scheme,
        levels,
        cut,
        root,
        tiles,
        contents,
        child,
    })
}

// Whether both scans find the same tiles of a level, for limits from none to more than there are.
fn level_alike(
    alloc: Global,
    subtree: &Subtree,
    local: u32,
    region: &Region,
) -> Result<bool, AllocError>
    requires { local < subtree.now.levels }
{
    let mut fast = Vec::new(alloc);
    let mut plain = Vec::new(alloc);
    for limit in [0, 1, 3, 1_000_000] {
        let more = level_tiles(subtree, local, region, limit, &mut fast)?;
        let more_plain = level_tiles_plain(subtree, local, region, limit, &mut plain)?;
        if more != more_plain {
            return Ok(false);
        }
    }
    Ok(fast.as_slice() == plain.as_slice())
}

// Whether both scans find the same at each level, and the same child roots.
fn region_alike(alloc: Global, subtree: &Subtree, region: &Region) -> Result<bool, AllocError> {
    for local in 0..subtree.levels {
        if !level_alike(alloc, subtree, local, region)? {
            return Ok(false);
        }
    }
    let mut fast = Vec::new(alloc);
    let mut plain = Vec::new(alloc);
    child_roots(subtree, region, &mut fast)?;
    child_roots_plain(subtree, region, &mut plain)?;
    Ok(fast.as_slice() == plain.as_slice())
}

// Whether both scans find the same in each of some regions.
fn all_alike(alloc: Global, subtree: &Subtree) -> Result<bool, AllocError> {
    // a region's level and box
    let regions: [(u32, [u32; 3], [u32; 3]); 8] = [
        (1, [0, 0, 0], [1, 1, 0]),
        (3, [4, 0, 0], [7, 3, 0]),
        (4, [8, 0, 0], [15, 7, 7]),
        (5, [17, 2, 0], [28, 11, 3]),
        (6, [41, 5, 0], [41, 5, 0]),
        (7, [80, 1, 0], [99, 60, 31]),
        (9, [300, 100, 2], [301, 101, 9]),
        (11, [1024, 0, 0], [2047, 1023, 1023]),
    ];
    for (level, lo, hi) in regions {
        if !box_alike(alloc, subtree, level, lo, hi)? {
            return Ok(false);
        }
    }
    Ok(true)
}

// The same in one box of a level.
fn box_alike(
    alloc: Global,
    subtree: &Subtree,
    level: u32,
    lo: [u32; 3],
    hi: [u32; 3],
) -> Result<bool, AllocError> {
    match Region::new(Scheme::Oct, Scheme::Oct.most_levels(), level, lo, hi) {
        Ok(region) => region_alike(alloc, subtree, &region),
        Err(_) => Ok(false),
    }
}

// Whether both scans find the same in subtrees of a scheme whose bits depend on some seeds.
fn seeds_alike(alloc: Global, scheme: Scheme, levels: u32, cut: u32) -> Result<bool, AllocError>
    requires some { 1 ≤ levels }
    requires few { levels ≤ most_subtree_levels scheme }
    requires within { cut ≤ most_levels scheme }
    requires below { 1 < cut }
{
    for seed in [1, 20, 300] {
        let subtree = mixed_subtree(alloc, scheme, levels, cut, 1, 1, seed)?;
        if !all_alike(alloc, &subtree)? {
            return Ok(false);
        }
    }
    Ok(true)
}

#[test]
fn both_scans_find_the_same(rt: HostRuntime) -> Result<(), Fail> {
    let alloc = rt.alloc();
    assert!(rt; seeds_alike(alloc, Scheme::Quad, 2, 4)?);
    assert!(rt; seeds_alike(alloc, Scheme::Quad, 5, 20)?);
    assert!(rt; seeds_alike(alloc, Scheme::Quad, 5, 4)?);
    assert!(rt; seeds_alike(alloc, Scheme::Oct, 3, 12)?);
    Ok(())
}
