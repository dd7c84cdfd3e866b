// Worked tilesets: the tiles of their walks in order, and the ends, of both walks and of a check.
ghost use Rattle.std.specs.Prelude.{◌≡◌, ◌≤◌, IfOk, IfSome};
ghost use Rattle.implicit_tiling.specs.Limits.{most_levels, most_subtree_levels};
ghost use Rattle.walk_laws.specs.Plans.{FitsLayout};

use framed_walk::framed;
use reference_walk::fresh;
use scene_ports::MemoryFiles;
use std::alloc::{AllocError, Global};
use std::test::Fail;
use tile_coords::{CheckEnd, Plan, Region, Scheme, WalkEnd, Word};
use tile_walk::check_all;
use tile_word::word_at;
use tileset_json::Layout;
use uri_template::Template;

// A tile: its level and its coordinates.
type Place = (u32, u64, u64, u64);

// Subtrees whose bits are all 1; and one of two levels by bitstreams of tiles and of child subtrees.
const ONES: &str =
    "{\"childSubtreeAvailability\":{\"constant\":1},\"tileAvailability\":{\"constant\":1}}";

const STREAMS: &str =
    "{\"buffers\":[{\"byteLength\":10}],\"bufferViews\":[{\"buffer\":0,\"byteOffset\":0,\"byteLength\":1},{\"buffer\":0,\"byteOffset\":8,\"byteLength\":2}],\"tileAvailability\":{\"bitstream\":0},\"childSubtreeAvailability\":{\"bitstream\":1}}";

const BY_PLACE: &str = "s/{level}/{x}/{y}.subtree";

const ONE_FOR_ALL: &str = "all.subtree";

// The word of a tile without contents: bit j of x, y and z stands at place axes * j of the index and the next ones.
fn word(axes: u32, tile: Place) -> Word
    requires { axes ≤ 3 }
{
    let (level, x, y, z) = tile;
    let mut index = 0;
    for bit in 0..20u32 {
        index |= (x >> bit & 1) << (axes * bit) | (y >> bit & 1) << (axes * bit + 1);
        index |= (z >> bit & 1) << (axes * bit + 2);
    }
    for bit in 20..31u32 {
        index |= (x >> bit & 1) << (2 * bit) | (y >> bit & 1) << (2 * bit + 1);
    }
    word_at(level, index, 0)
}

fn words(alloc: Global, axes: u32, tiles: &[Place]) -> Result<Vec<Word>, AllocError>
    requires { axes ≤ 3 }
{
    let mut words = Vec::new(alloc);
    for tile in tiles {
        words.push(word(axes, *tile))?;
    }
    Ok(words)
}

// A subtree file of these parts, each filled up to a multiple of 8 bytes.
fn packed(alloc: Global, json: &str, binary: &[u8]) -> Result<Vec<u8>, AllocError> {
    let text = filled(alloc, json.as_bytes(), b' ')?;
    let bits = filled(alloc, binary, 0)?;
    let mut bytes = Vec::from_slice(alloc, b"subt".as_slice())?;
    bytes.extend_from_slice(1u32.to_le_bytes().as_slice())?;
    bytes.extend_from_slice((text.len() as u64).to_le_bytes().as_slice())?;
    bytes.extend_from_slice((bits.len() as u64).to_le_bytes().as_slice())?;
    bytes.extend_from_slice(&text)?;
    bytes.extend_from_slice(&bits)?;
    Ok(bytes)
}

fn filled(alloc: Global, bytes: &[u8], byte: u8) -> Result<Vec<u8>, AllocError> {
    let mut all = Vec::from_slice(alloc, bytes)?;
    for _ in 0..8 {
        if all.len() % 8 != 0 {
            all.push(byte)?;
        }
    }
    Ok(all)
}

fn layout(
    alloc: Global,
    scheme: Scheme,
    subtree_levels: u32,
    levels: u32,
    template: &str,
) -> Result<Layout, Fail>
    requires some_subtree_levels { 1 ≤ subtree_levels }
    requires few_subtree_levels { subtree_levels ≤ most_subtree_levels scheme }
    requires some_levels { 1 ≤ levels }
    requires few_levels { levels ≤ most_levels scheme }
    ensures { IfOk result (λ l. l.scheme ≡ scheme) }
{
    Ok(Layout {
        scheme,
        subtree_levels,
        levels,
        subtree: Template::new(String::from_str(alloc, template)?)?,
        contents: Vec::new(alloc),
    })
}

// The plan of a box of a quadtree; None where there is no such box.
fn plan_of(layout: &Layout, level: u32, lo: [u32; 2], hi: [u32; 2]) -> Option<Plan>
    requires { layout.now.scheme ≡ Scheme.Quad }
    ensures { IfSome result (FitsLayout layout.now) }
{
    match Region::new(
        Scheme::Quad,
        layout.levels,
        level,
        [lo[0], lo[1], 0],
        [hi[0], hi[1], 0],
    ) {
        Ok(region) => Some(Plan {
            scheme: Scheme::Quad,
            region,
        }),
        Err(_) => None,
    }
}

// The words and the end of a walk, where that with frames and that without them agree.
fn walk(
    alloc: Global,
    files: &mut MemoryFiles,
    layout: &Layout,
    plan: &Plan,
) -> Result<Option<(Vec<Word>, WalkEnd)>, Fail>
    requires { FitsLayout layout.now plan.now }
{
    let mut plain = Vec::new(alloc);
    let end = fresh(alloc, files, layout, plan, &mut plain);
    let mut held = Vec::new(alloc);
    let same = framed(alloc, files, layout, plan, 4, &mut held) == end;
    if !same || held.as_slice() != plain.as_slice() {
        return Ok(None);
    }
    match end {
        Ok(end) => Ok(Some((plain, end))),
        Err(_) => Ok(None),
    }
}

// The same over files of these names and bytes, of a box of a quadtree.
fn walk_box(
    alloc: Global,
    layout: &Layout,
    files: Vec<(String, Vec<u8>)>,
    level: u32,
    lo: [u32; 2],
    hi: [u32; 2],
) -> Result<Option<(Vec<Word>, WalkEnd)>, Fail>
    requires { layout.now.scheme ≡ Scheme.Quad }
{
    let Some(plan) = plan_of(layout, level, lo, hi) else {
        return Ok(None);
    };
    let Some(mut files) = MemoryFiles::new(files, Vec::new(alloc)) else {
        return Ok(None);
    };
    walk(alloc, &mut files, layout, &plan)
}

// Files of these names, each with a text or three zero bytes.
fn files_of(
    alloc: Global,
    names: &[&str],
    faulty: &str,
) -> Result<Vec<(String, Vec<u8>)>, AllocError> {
    let mut files = Vec::new(alloc);
    for name in names {
        let bytes = if *name == faulty {
            Vec::from_slice(alloc, [0u8; 3].as_slice())?
        } else {
            packed(alloc, ONES, &[])?
        };
        files.push((String::from_str(alloc, name)?, bytes))?;
    }
    Ok(files)
}

fn one_for_all(alloc: Global) -> Result<Vec<(String, Vec<u8>)>, AllocError> {
    files_of(alloc, &[ONE_FOR_ALL], "")
}

// Whether a walk gave these tiles and this end.
fn gave(
    alloc: Global,
    walked: &Option<(Vec<Word>, WalkEnd)>,
    axes: u32,
    tiles: &[Place],
    end: WalkEnd,
) -> Result<bool, AllocError>
    requires { axes ≤ 3 }
{
    let wanted = words(alloc, axes, tiles)?;
    Ok(match walked {
        Some((words, found)) => words.as_slice() == wanted.as_slice() && *found == end,
        None => false,
    })
}

#[test]
fn children_of_absent_leaves(rt: HostRuntime) -> Result<(), Fail> {
    let alloc = rt.alloc();
    let layout = layout(alloc, Scheme::Quad, 2, 4, BY_PLACE)?;
    let tiles = [(0, 0, 0, 0), (1, 0, 0, 0)];
    // child bits under a leaf that isn't there; then one under a leaf that is, whose file is missing
    let missing = WalkEnd::Fault {
        root: word(2, (2, 0, 0, 0)),
        number: 1,
    };
    for (low, high, end) in [(0xF0u8, 0u8, WalkEnd::Complete), (1, 0, missing)] {
        let mut files = Vec::new(alloc);
        let bytes = packed(alloc, STREAMS, &[3, 0, 0, 0, 0, 0, 0, 0, low, high])?;
        files.push((String::from_str(alloc, "s/0/0/0.subtree")?, bytes))?;
        let walked = walk_box(alloc, &layout, files, 3, [0, 0], [7, 7])?;
        assert!(rt; gave(alloc, &walked, 2, &tiles, end)?);
    }
    Ok(())
}

#[test]
fn faults_in_and_outside_the_region(rt: HostRuntime) -> Result<(), Fail> {
    let alloc = rt.alloc();
    let layout = layout(alloc, Scheme::Quad, 1, 2, BY_PLACE)?;
    // the faulty file stands outside the region, where one is missing
    let files = files_of(
        alloc,
        &[
            "s/0/0/0.subtree",
            "s/1/0/0.subtree",
            "s/1/0/1.subtree",
            "s/1/1/1.subtree",
        ],
        "s/1/0/0.subtree",
    )?;
    let walked = walk_box(alloc, &layout, files, 1, [1, 0], [1, 0])?;
    let end = WalkEnd::Fault {
        root: word(2, (1, 1, 0, 0)),
        number: 1,
    };
    assert!(rt; gave(alloc, &walked, 2, &[(0, 0, 0, 0)], end)?);
    // the first fault in the region ends the answer
    let all = [
        "s/0/0/0.subtree",
        "s/1/0/0.subtree",
        "s/1/1/0.subtree",
        "s/1/0/1.subtree",
        "s/1/1/1.subtree",
    ];
    let files = files_of(alloc, &all, "s/1/0/1.subtree")?;
    let walked = walk_box(alloc, &layout, files, 1, [0, 0], [1, 1])?;
    let root = word(2, (1, 0, 1, 0));
    let tiles = [(0, 0, 0, 0), (1, 0, 0, 0), (1, 1, 0, 0)];
    assert!(rt;
        gave(
            alloc,
            &walked,
            2,
            &tiles,
            WalkEnd::Fault { root, number: 3 }
        )?
    );
    // and the check finds it among five files
    let mut found = Vec::new(alloc);
    let files = files_of(alloc, &all, "s/1/0/1.subtree")?;
    let checked = match MemoryFiles::new(files, Vec::new(alloc)) {
        Some(mut files) => check_all(alloc, &mut files, &layout, &mut found).ok(),
        None => None,
    };
    let whole = CheckEnd {
        looked: 5,
        more: false,
    };
    assert!(rt; checked == Some(whole));
    assert!(rt; found.len() == 1);
    assert!(rt;
        found
            .iter()
            .all(|fault| fault.root == root && fault.number == 3)
    );
    Ok(())
}

// The tiles of level 0 to 16 or 17 whose x is 0, by level and by y, as far as an answer goes.
fn left_column(alloc: Global, level: u32) -> Result<Vec<Place>, AllocError>
    requires { level ≤ 17 }
{
    let mut tiles = Vec::new(alloc);
    for above in 0..level + 1 {
        for y in 0..32768u64 >> (level - above) {
            if tiles.len() < 65536 {
                tiles.push((above, 0, y, 0))?;
            }
        }
        if 32768u64 >> (level - above) == 0 {
            tiles.push((above, 0, 0, 0))?;
        }
    }
    Ok(tiles)
}

#[test]
fn the_cut_and_its_neighbour(rt: HostRuntime) -> Result<(), Fail> {
    let alloc = rt.alloc();
    let layout = layout(alloc, Scheme::Quad, 9, 18, ONE_FOR_ALL)?;
    for (level, end) in [(16u32, WalkEnd::Complete), (17, WalkEnd::TooMany)] {
        let tiles = left_column(alloc, level)?;
        assert!(rt; tiles.len() == 65536);
        let walked = walk_box(
            alloc,
            &layout,
            one_for_all(alloc)?,
            level,
            [0, 0],
            [0, 32767],
        )?;
        assert!(rt; gave(alloc, &walked, 2, &tiles, end)?);
    }
    Ok(())
}

#[test]
fn one_path_down_to_the_last_level(rt: HostRuntime) -> Result<(), Fail> {
    let alloc = rt.alloc();
    let layout = layout(alloc, Scheme::Quad, 9, 32, ONE_FOR_ALL)?;
    let last = 2_147_483_647;
    let walked = walk_box(
        alloc,
        &layout,
        one_for_all(alloc)?,
        31,
        [last, last],
        [last, last],
    )?;
    let mut tiles = Vec::new(alloc);
    for level in 0..32u32 {
        let greatest = (1u64 << level) - 1;
        tiles.push((level, greatest, greatest, 0))?;
    }
    assert!(rt; gave(alloc, &walked, 2, &tiles, WalkEnd::Complete)?);
    Ok(())
}

// The plan of a box of an octree; None where there is no such box.
fn cube_of(layout: &Layout, level: u32, lo: [u32; 3], hi: [u32; 3]) -> Option<Plan>
    requires { layout.now.scheme ≡ Scheme.Oct }
    ensures { IfSome result (FitsLayout layout.now) }
{
    match Region::new(Scheme::Oct, layout.levels, level, lo, hi) {
        Ok(region) => Some(Plan {
            scheme: Scheme::Oct,
            region,
        }),
        Err(_) => None,
    }
}

#[test]
fn a_side_of_an_octree(rt: HostRuntime) -> Result<(), Fail> {
    let alloc = rt.alloc();
    let layout = layout(alloc, Scheme::Oct, 2, 2, ONE_FOR_ALL)?;
    let walked = match (
        cube_of(&layout, 1, [1, 0, 0], [1, 1, 1]),
        MemoryFiles::new(one_for_all(alloc)?, Vec::new(alloc)),
    ) {
        (Some(plan), Some(mut files)) => walk(alloc, &mut files, &layout, &plan)?,
        _ => None,
    };
    let tiles = [
        (0, 0, 0, 0),
        (1, 1, 0, 0),
        (1, 1, 1, 0),
        (1, 1, 0, 1),
        (1, 1, 1, 1),
    ];
    assert!(rt; gave(alloc, &walked, 3, &tiles, WalkEnd::Complete)?);
    Ok(())
}
