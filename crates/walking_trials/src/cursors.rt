// Whole walks over subtrees whose bits are all 1.
ghost use Rattle.std.specs.Prelude.{◌≡◌, ◌+◌, ◌%◌, ◌<◌, ◌≤◌, IfOk, IfSome, length};
ghost use Rattle.implicit_tiling.specs.Tile.{IsTile};
ghost use Rattle.walk_laws.specs.Plans.{FitsLayout};
ghost use Rattle.implicit_tiling.specs.Code.{word_tile};
ghost use Rattle.subtree_outcome.specs.Outcomes.{IsFoundAt, IsOutcomeAt};

use availability::{Subtree, nodes_above};
use bitstream::Bits;
use region_cursor::CursorState;
use std::alloc::{AllocError, Global};
use std::test::Fail;
use subtree_outcome::Outcome;
use tile_coords::{Plan, Region, Scheme, Tile, WalkEnd, Word};
use tile_word::{nodes_at, tile_of, word_at};
use tileset_json::Layout;
use uri_template::Template;

// A subtree of ones with no content; None where its bits break a rule, which they never do.
fn full(alloc: Global, layout: &Layout, root: Tile) -> Option<Subtree>
    requires tile { IsTile layout.now.scheme root }
    requires below { root.level < layout.now.levels }
    requires start { root.level % layout.now.subtree_levels ≡ 0 }
    ensures { IfSome result (IsFoundAt layout.now root) }
{
    let subtree = Subtree {
        scheme: layout.scheme,
        levels: layout.subtree_levels,
        cut: layout.levels,
        root,
        tiles: Bits::constant(true, nodes_above(layout.scheme, layout.subtree_levels)),
        contents: Vec::new(alloc),
        child: Bits::constant(true, nodes_at(layout.scheme, layout.subtree_levels)),
    };
    if subtree.check().is_err() {
        return None;
    }
    Some(subtree)
}

// The outcome of a root: its file has a fault at this key, or a subtree of ones.
fn outcome_at(alloc: Global, layout: &Layout, key: Word, bad: Word) -> Option<Outcome>
    ensures { IfSome result (IsOutcomeAt layout.now (word_tile layout.now.scheme key)) }
{
    if key == bad {
        return Some(Outcome::Bad(3));
    }
    let root = tile_of(layout.scheme, key)?.tile;
    if root.level >= layout.levels || root.level % layout.subtree_levels != 0 {
        return None;
    }
    Some(Outcome::Good(full(alloc, layout, root)?))
}

// The steps of a walk, up to 40, their tiles, and the end of the last one.
fn walked(
    alloc: Global,
    layout: &Layout,
    plan: Plan,
    bad: Word,
) -> Result<(usize, usize, WalkEnd), AllocError>
    requires { FitsLayout layout.now plan }
{
    let mut cursor = CursorState::start(alloc, layout, plan)?;
    let mut words = Vec::new(alloc);
    let mut walk = (0usize, 0usize, WalkEnd::Partial);
    'steps: for step in 0..40 {
        let Some(key) = cursor.next_key() else {
            break;
        };
        let Some(outcome) = outcome_at(alloc, layout, key, bad) else {
            break;
        };
        let end = cursor.step(&outcome, &mut words)?;
        walk = (step + 1, walk.1.saturating_add(words.len()), end);
    }
    Ok(walk)
}

// A layout of a quadtree with no contents.
fn layout(alloc: Global, subtree_levels: u32, levels: u32) -> Result<Layout, Fail>
    requires some_subtree_levels { 1 ≤ subtree_levels }
    requires few_subtree_levels { subtree_levels ≤ 10 }
    requires some_levels { 1 ≤ levels }
    requires few_levels { levels ≤ 32 }
    ensures { IfOk result (λ l. l.scheme ≡ Scheme.Quad) }
{
    let mut text = String::new(alloc);
    text.push('s')?;
    Ok(Layout {
        scheme: Scheme::Quad,
        subtree_levels,
        levels,
        subtree: Template::new(text)?,
        contents: Vec::new(alloc),
    })
}

// The walk of the box from 0 to `most` of a level; None where there is no such region.
fn walk_of(
    alloc: Global,
    layout: &Layout,
    level: u32,
    most: u32,
    bad: Word,
) -> Result<Option<(usize, usize, WalkEnd)>, AllocError>
    requires { layout.now.scheme ≡ Scheme.Quad }
{
    match Region::new(
        Scheme::Quad,
        layout.levels,
        level,
        [0, 0, 0],
        [most, most, 0],
    ) {
        Ok(region) => {
            let plan = Plan {
                scheme: Scheme::Quad,
                region,
            };
            Ok(Some(walked(alloc, layout, plan, bad)?))
        }
        Err(_) => Ok(None),
    }
}

#[test]
fn walks(rt: HostRuntime) -> Result<(), Fail> {
    // the levels of a subtree and in all, the region's level and greatest coordinates, the key of a fault if it is one,
    // and the steps, the tiles and the end
    let none = Word {
        high: u64::MAX,
        low: 0,
    };
    let root = word_at(0, 0, 0);
    let child = word_at(2, 6, 0);
    let rows: [(u32, u32, u32, u32, Word, (usize, usize, WalkEnd)); 7] = [
        (2, 3, 2, 3, none, (18, 21, WalkEnd::Complete)),
        (2, 3, 1, 1, none, (2, 5, WalkEnd::Complete)),
        (1, 1, 0, 0, none, (1, 1, WalkEnd::Complete)),
        (1, 3, 2, 1, none, (6, 6, WalkEnd::Complete)),
        (9, 9, 8, 255, none, (9, 65536, WalkEnd::TooMany)),
        (2, 3, 2, 3, root, (1, 0, WalkEnd::Fault { root, number: 3 })),
        (
            2,
            3,
            2,
            3,
            child,
            (
                9,
                11,
                WalkEnd::Fault {
                    root: child,
                    number: 3,
                },
            ),
        ),
    ];
    for (subtree_levels, levels, level, most, bad, wanted) in rows {
        let alloc = rt.alloc();
        let layout = layout(alloc, subtree_levels, levels)?;
        assert!(rt; walk_of(alloc, &layout, level, most, bad)? == Some(wanted));
    }
    Ok(())
}
