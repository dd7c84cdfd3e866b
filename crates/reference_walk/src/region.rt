// The walk of a region.
ghost use Rattle.std.specs.Prelude.{◌≡◌, ◌≢◌, ◌≤◌, IfOk, IfErr, IfSome, Err, [], map};
ghost use Rattle.implicit_tiling.specs.Steps.{pairs};
ghost use Rattle.implicit_tileset.specs.Scene.{scene_of};
ghost use Rattle.scene_ports.specs.Counts.{Rose, more_by};
ghost use Rattle.subtree_outcome.specs.Fetched.{cost_of_all};
ghost use Rattle.subtree_outcome.specs.Found.{AreTilesOf, EndsWithin};
ghost use Rattle.walk_laws.specs.Plans.{FitsLayout, IsRegionOf};
ghost use Rattle.tile_word.specs.Answers.{IsAnswer};
ghost use Rattle.reference_walk.specs.Walks.{frontier_if, is_last};

use crate::found::Found;
use crate::level::walk_level;
use scene_ports::FileSource;
use std::alloc::Global;
use std::mem;
use subtree_outcome::WalkStop;
use tile_coords::{Plan, Region, WalkEnd, Word};
use tile_walk::first_roots;
use tileset_json::Layout;

/// The answer for a plan that fits the layout, read anew: `words` becomes the words of its tiles in key order, at most
/// 65,536, and the end is that of the answer, so never Partial (OGC 22-025r4, implicit tiling: availability). Each root
/// on the walk is read once for each level that its subtree gives, and none after the cut or the first fault is known.
/// An Err leaves `words` as it was.
pub fn fresh<S: FileSource>(
    alloc: Global,
    files: &mut S,
    layout: &Layout,
    plan: &Plan,
    words: &mut Vec<Word>,
) -> Result<WalkEnd, WalkStop>
    requires { FitsLayout layout.now plan.now }
    ensures answer { IfSome (S.told files.old)
        (λ all. IfOk result (IsAnswer (scene_of all layout.now) plan.now.region words.new.items)) }
    ensures found { IfOk result (λ end. AreTilesOf layout.now words.new.items) }
    ensures end { IfOk result (EndsWithin layout.now) }
    ensures over { IfOk result (λ end. end ≢ WalkEnd.Partial) }
    ensures unchanged { IfErr result (λ stop. words.new.items ≡ words.old.items) }
    ensures failed { result ≡ Err WalkStop.ReadFault → Rose (S.faults files.old) (S.faults files.new) }
    ensures sure { result ≢ Err WalkStop.ReadFault → S.faults files.new ≡ S.faults files.old }
    ensures later { S.faults files.old ≤ S.faults files.new }
    ensures fetched { IfSome (S.told files.old) (λ all. IfOk result (λ end. S.fetches files.new
        ≤ more_by (cost_of_all all layout.now (map (λ p. p.root) (pairs (scene_of all layout.now) plan.now.region)))
        (S.fetches files.old))) }
    ensures same { S.told files.new ≡ S.told files.old }
{
    let mut found = Found::new(alloc);
    let end = walk(alloc, files, layout, &plan.region, &mut found)?;
    *words = found.words;
    Ok(end)
}

// The walk of a region, level by level: the frontier is the roots on the walk whose subtrees have the level.
fn walk<S: FileSource>(
    alloc: Global,
    files: &mut S,
    layout: &Layout,
    region: &Region,
    found: &mut Found,
) -> Result<WalkEnd, WalkStop>
    requires region { IsRegionOf layout.now region.now }
    requires empty { found.old.words.items ≡ [] }
    requires none { found.old.next.items ≡ [] }
    ensures answer { IfSome (S.told files.old)
        (λ all. IfOk result (IsAnswer (scene_of all layout.now) region.now found.new.words.items)) }
    ensures found { IfOk result (λ end. AreTilesOf layout.now found.new.words.items) }
    ensures end { IfOk result (EndsWithin layout.now) }
    ensures over { IfOk result (λ end. end ≢ WalkEnd.Partial) }
    ensures failed { result ≡ Err WalkStop.ReadFault → Rose (S.faults files.old) (S.faults files.new) }
    ensures sure { result ≢ Err WalkStop.ReadFault → S.faults files.new ≡ S.faults files.old }
    ensures later { S.faults files.old ≤ S.faults files.new }
    ensures fetched { IfSome (S.told files.old) (λ all. IfOk result (λ end. S.fetches files.new
        ≤ more_by (cost_of_all all layout.now (map (λ p. p.root) (pairs (scene_of all layout.now) region.now)))
        (S.fetches files.old))) }
    ensures same { S.told files.new ≡ S.told files.old }
{
    let mut roots = first_roots(alloc, layout.scheme)?;
    for level in 0..region.level + 1 {
        match walk_level(alloc, files, layout, region, level, &roots, found)? {
            WalkEnd::Partial => {}
            end => return Ok(end),
        }
        let next = mem::replace(&mut found.next, Vec::new(alloc));
        roots = frontier(layout, level, roots, next);
    }
    Ok(WalkEnd::Complete)
}

// The frontier of the level after this one: the roots that were found, where it begins new subtrees.
fn frontier(layout: &Layout, level: u32, roots: Vec<Word>, next: Vec<Word>) -> Vec<Word>
    ensures { result.items ≡ frontier_if (is_last layout.now level) roots.items next.items }
{
    let levels = layout.subtree_levels;
    if level % levels + 1 == levels {
        next
    } else {
        roots
    }
}
