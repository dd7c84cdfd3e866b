// Whole walks over subtrees whose bits are all 1, published step by step.
ghost use Rattle.std.specs.Prelude.{ℕ, ◌≡◌, ◌+◌, ◌%◌, ◌<◌, ◌≤◌, IfOk, IfSome, None, false, length};
ghost use Rattle.implicit_tiling.specs.Code.{word_tile};
ghost use Rattle.implicit_tiling.specs.Tile.{IsTile};
ghost use Rattle.subtree_outcome.specs.Outcomes.{IsFoundAt, IsOutcomeAt};
ghost use Rattle.walk_laws.specs.Plans.{FitsLayout};

use availability::{Subtree, nodes_above};
use bitstream::Bits;
use plan_registry::Cursor;
use published_prefix::Page;
use std::alloc::{AllocError, Global};
use std::marker::Brand;
use std::test::Fail;
use subtree_outcome::Outcome;
use tile_coords::{Plan, Region, Scheme, Tile, WalkEnd, Word};
use tile_word::{nodes_at, tile_of, word_at};
use tileset_json::Layout;
use uri_template::Template;
use walk_course::{PlanWalk, begin, publish_next};

// A subtree of ones with no content; None where its bits break a rule, which they never do.
fn full(alloc: Global, layout: &Layout, root: Tile) -> Option<Subtree>
    requires tile { IsTile layout.now.scheme root }
    requires below { root.level < layout.now.levels }
    requires start { root.level % layout.now.subtree_levels ≡ 0 }
    ensures { IfSome result (IsFoundAt layout.now root) }
{
    let subtree = Subtree {
        scheme: layout.scheme,
        levels: layout.subtree_levels,
        cut: layout.levels,
        root,
        tiles: Bits::constant(true, nodes_above(layout.scheme, layout.subtree_levels)),
        contents: Vec::new(alloc),
        child: Bits::constant(true, nodes_at(layout.scheme, layout.subtree_levels)),
    };
    if subtree.check().is_err() {
        return None;
    }
    Some(subtree)
}

// The outcome of a root: its file has a fault at this key, or a subtree of ones.
fn outcome_at(alloc: Global, layout: &Layout, key: Word, bad: Word) -> Option<Outcome>
    ensures { IfSome result (IsOutcomeAt layout.now (word_tile layout.now.scheme key)) }
{
    if key == bad {
        return Some(Outcome::Bad(3));
    }
    let root = tile_of(layout.scheme, key)?.tile;
    if root.level >= layout.levels || root.level % layout.subtree_levels != 0 {
        return None;
    }
    Some(Outcome::Good(full(alloc, layout, root)?))
}

// A cursor on the walk of a plan over files that nobody tells.
fn begun(alloc: Global, layout: &Layout, plan: Plan) -> Result<Cursor<PlanWalk>, AllocError>
    requires { FitsLayout layout.now plan }
    ensures at_rest { IfOk result (λ c. c.seat.has_work ≡ false) }
    ensures tag { IfOk result (λ c. (c.seat.tag.told ≡ None) × (c.seat.tag.layout ≡ layout.now)) }
{
    let (prefix, seat) = begin::<Brand>(alloc, layout, plan)?;
    Cursor::new(alloc, plan, prefix, seat)
}

// Publishes the next step, if the walk goes on. Whether it did.
fn moves(alloc: Global, cursor: &mut Cursor<PlanWalk>, layout: &Layout, bad: Word) -> bool
    requires none_out { cursor.old.seat.has_work ≡ false }
    requires tag { (cursor.old.seat.tag.told ≡ None) × (cursor.old.seat.tag.layout ≡ layout.now) }
    ensures { (cursor.new.seat.tag ≡ cursor.old.seat.tag) × (cursor.new.seat.has_work ≡ false) }
{
    let Some(work) = cursor.try_claim() else {
        return false;
    };
    let Some(root) = work.next_key() else {
        cursor.give_back(work);
        return false;
    };
    let Some(outcome) = outcome_at(alloc, layout, root, bad) else {
        cursor.give_back(work);
        return false;
    };
    let mut words = Vec::new(alloc);
    publish_next(cursor, work, &outcome, &mut words).is_ok()
}

// Up to 40 steps of a walk, and a page of what was published.
fn walked(
    alloc: Global,
    layout: &Layout,
    plan: Plan,
    bad: Word,
    out: &mut [Word],
) -> Result<Page, AllocError>
    requires { FitsLayout layout.now plan }
{
    let mut cursor = begun(alloc, layout, plan)?;
    for _ in 0..40 {
        if !moves(alloc, &mut cursor, layout, bad) {
            break;
        }
    }
    Ok(cursor.page(0, out))
}

// A layout of a quadtree with no contents.
fn layout(alloc: Global, subtree_levels: u32, levels: u32) -> Result<Layout, Fail>
    requires some_subtree_levels { 1 ≤ subtree_levels }
    requires few_subtree_levels { subtree_levels ≤ 10 }
    requires some_levels { 1 ≤ levels }
    requires few_levels { levels ≤ 32 }
    ensures { IfOk result (λ l. l.scheme ≡ Scheme.Quad) }
{
    let mut text = String::new(alloc);
    text.push('s')?;
    Ok(Layout {
        scheme: Scheme::Quad,
        subtree_levels,
        levels,
        subtree: Template::new(text)?,
        contents: Vec::new(alloc),
    })
}

// The plan of the box from 0 to `most` of a level; None where there is no such region.
fn plan_of(layout: &Layout, level: u32, most: u32) -> Option<Plan>
    requires { layout.now.scheme ≡ Scheme.Quad }
    ensures { IfSome result (FitsLayout layout.now) }
{
    let region = Region::new(
        Scheme::Quad,
        layout.levels,
        level,
        [0, 0, 0],
        [most, most, 0],
    );
    match region {
        Ok(region) => Some(Plan {
            scheme: Scheme::Quad,
            region,
        }),
        Err(_) => None,
    }
}

// Whether the words are those of all tiles of the levels 0, 1 and 2, in their order.
fn are_all(words: &[Word]) -> bool {
    let firsts = [(0u32, 0usize, 1usize), (1, 1, 5), (2, 5, 21)];
    for (level, first, end) in firsts {
        for i in first..end {
            if words.get(i) != Some(&word_at(level, (i - first) as u64, 0)) {
                return false;
            }
        }
    }
    words.len() == 21
}

const UNUSED: Word = Word {
    high: u64::MAX,
    low: 0,
};

#[test]
fn a_walk_is_published_step_by_step(rt: HostRuntime) -> Result<(), Fail> {
    let layout = layout(rt.alloc(), 2, 3)?;
    let plan = plan_of(&layout, 2, 3).expect(&rt, "the region is one");
    let mut out = vec![in rt.alloc(); UNUSED; 21]?;
    let page = walked(rt.alloc(), &layout, plan, UNUSED, out.as_mut_slice())?;
    assert!(rt; page.steps == 18 && page.length == 21 && page.count == 21);
    assert!(rt; page.end == WalkEnd::Complete && are_all(out.as_slice()));
    Ok(())
}

#[test]
fn a_fault_ends_a_walk(rt: HostRuntime) -> Result<(), Fail> {
    let layout = layout(rt.alloc(), 2, 3)?;
    let plan = plan_of(&layout, 2, 3).expect(&rt, "the region is one");
    let root = word_at(2, 6, 0);
    let mut out = [UNUSED; 4];
    let page = walked(rt.alloc(), &layout, plan, root, &mut out)?;
    assert!(rt; page.steps == 9 && page.length == 11 && page.count == 4);
    assert!(rt; page.end == WalkEnd::Fault { root, number: 3 });
    Ok(())
}
