// What no clause says: with ample memory a walk starts, makes a step and gives a page.
ghost use Rattle.std.specs.Prelude.{◌≡◌, ◌≤◌, IfOk};
ghost use Rattle.walk_laws.specs.Plans.{FitsLayout};

use replay_core::ShownWalk;
use std::alloc::{AllocError, Global};
use std::test::Fail;
use subtree_outcome::Outcome;
use tile_coords::{Plan, Region, Scheme, WalkEnd};
use tileset_json::Layout;
use uri_template::Template;

// The tiles that a walk shows after a step of a faulty file, those of a page of it, and its end.
fn walked(
    alloc: Global,
    layout: &Layout,
    plan: Plan,
    number: u64,
) -> Result<(u64, usize, WalkEnd), AllocError>
    requires { FitsLayout layout.now plan }
{
    let mut walk = ShownWalk::start(alloc, layout, plan)?;
    let Some(_) = walk.next_key() else {
        return Ok((0, 0, WalkEnd::Partial));
    };
    let tiles = walk.step(&Outcome::Bad(number))?;
    let page = walk.page(alloc, 0, 9)?;
    Ok((tiles, page.len(), walk.end()))
}

// A layout of a quadtree with no contents.
fn layout(alloc: Global, subtree_levels: u32, levels: u32) -> Result<Layout, Fail>
    requires some_subtree_levels { 1 ≤ subtree_levels }
    requires few_subtree_levels { subtree_levels ≤ 10 }
    requires some_levels { 1 ≤ levels }
    requires few_levels { levels ≤ 32 }
    ensures { IfOk result (λ l. l.scheme ≡ Scheme.Quad) }
{
    let mut text = String::new(alloc);
    text.push('s')?;
    Ok(Layout {
        scheme: Scheme::Quad,
        subtree_levels,
        levels,
        subtree: Template::new(text)?,
        contents: Vec::new(alloc),
    })
}

// The walk of the box from 0 to `most` of a level; None where there is no such region.
fn walk_of(
    alloc: Global,
    layout: &Layout,
    level: u32,
    most: u32,
    number: u64,
) -> Result<Option<(u64, usize, WalkEnd)>, AllocError>
    requires { layout.now.scheme ≡ Scheme.Quad }
{
    match Region::new(
        Scheme::Quad,
        layout.levels,
        level,
        [0, 0, 0],
        [most, most, 0],
    ) {
        Ok(region) => {
            let plan = Plan {
                scheme: Scheme::Quad,
                region,
            };
            Ok(Some(walked(alloc, layout, plan, number)?))
        }
        Err(_) => Ok(None),
    }
}

#[test]
fn a_faulty_root_ends_a_walk(rt: HostRuntime) -> Result<(), Fail> {
    let layout = layout(rt.alloc(), 2, 3)?;
    match walk_of(rt.alloc(), &layout, 2, 3, 7)? {
        Some((0, 0, WalkEnd::Fault { number: 7, .. })) => {}
        _ => assert!(rt; false),
    }
    Ok(())
}
