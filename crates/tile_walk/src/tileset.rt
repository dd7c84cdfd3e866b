// The check of all subtree files of a tileset.
ghost use Rattle.std.specs.Prelude.{◌≡◌, ◌≢◌, ◌+◌, ◌-◌, ◌*◌, ◌≤◌, ◌++◌, ◌∷◌, [], map, take, length, false, IfOk, IfErr};
ghost use Rattle.std.specs.Prelude.{IfSome, Err};
ghost use Rattle.std.specs.List.{All, flat_map};
ghost use Rattle.implicit_tiling.specs.Checked.{most_roots, checked};
ghost use Rattle.implicit_tiling.specs.Subtree.{IsSubtree};
ghost use Rattle.implicit_tiling.specs.Nodes.{child_words};
ghost use Rattle.implicit_tiling.specs.Code.{word_level, word_tile};
ghost use Rattle.implicit_tileset.specs.Scene.{scene_of};
ghost use Rattle.scene_ports.specs.Counts.{Rose};
ghost use Rattle.walk_laws.specs.Children.{roots_below};
ghost use Rattle.walk_laws.specs.Regions.{whole};
ghost use Rattle.subtree_outcome.specs.Fetched.{HasFetched};
ghost use Rattle.tile_walk.specs.Checks.{found_faults, Counts, IsOnWalk, IsCheck, AreFaults, HasLookedAt};
ghost use Rattle.walk_laws.specs.Plans.{FitsLayout};
ghost use Rattle.tile_word.specs.Roots.{IsRootWord, AreRoots};

use crate::first::first_roots;
use availability::Subtree;
use region_scan::child_roots;
use scene_ports::FileSource;
use std::alloc::{AllocError, Global};
use subtree_outcome::{Outcome, WalkStop, read_subtree, root_tile};
use tile_coords::{CheckEnd, FoundFault, Plan, Region, Word};
use tileset_json::Layout;

// The most roots that are looked at (this project's own).
const MOST_ROOTS: u64 = 65536;

// The most roots of a frontier that are kept: one more than are looked at shows that there are too many.
const MOST_KEPT: usize = MOST_ROOTS as usize + 1;

/// Looks at the subtree roots that are reached, in key order, up to 65,536 of them, each read once: `found` becomes the
/// faults of their files, in that order. A faulty file has no roots below it (OGC 22-025r4, implicit tiling: child
/// subtree availability). It takes the fetches of these roots. An Err leaves `found` as it was.
pub fn check_all<S: FileSource>(
    alloc: Global,
    files: &mut S,
    layout: &Layout,
    found: &mut Vec<FoundFault>,
) -> Result<CheckEnd, WalkStop>
    ensures checked { IfSome (S.told files.old)
        (λ all. IfOk result (IsCheck (scene_of all layout.now) found.new.items)) }
    ensures faults { IfOk result (λ end. AreFaults layout.now found.new.items) }
    ensures few { IfOk result (λ end. end.looked ≤ most_roots) }
    ensures unchanged { IfErr result (λ stop. found.new.items ≡ found.old.items) }
    ensures failed { result ≡ Err WalkStop.ReadFault → Rose (S.faults files.old) (S.faults files.new) }
    ensures sure { result ≢ Err WalkStop.ReadFault → S.faults files.new ≡ S.faults files.old }
    ensures later { S.faults files.old ≤ S.faults files.new }
    ensures fetched { IfOk result (λ end. HasLookedAt layout.now (S.told files.old) end.looked
        (S.fetches files.old) (S.fetches files.new)) }
    ensures same { S.told files.new ≡ S.told files.old }
{
    let plan = whole_plan(layout);
    let mut faults = Vec::new(alloc);
    let end = check(alloc, files, layout, &plan.region, &mut faults)?;
    *found = faults;
    Ok(end)
}

/// The plan of the region of all tiles.
pub fn whole_plan(layout: &Layout) -> Plan
    ensures fits { FitsLayout layout.now result }
    ensures region { result.region ≡ whole layout.now.scheme layout.now.levels }
{
    let level = layout.levels - 1;
    let last = (1u32 << level) - 1;
    let hi = [last, last, layout.scheme.depth(last)];
    Plan {
        scheme: layout.scheme,
        region: Region {
            level,
            lo: [0, 0, 0],
            hi,
        },
    }
}

// The roots that are looked at in one turn.
#[derive(Drop)]
struct Frontier {
    // How many subtrees each of them stands below the root.
    turn: u32,
    // How many roots were looked at before.
    looked: u64,
    roots: Vec<Word>,
}

// The check, frontier by frontier, over the region of all tiles: each turn goes down by one subtree.
fn check<S: FileSource>(
    alloc: Global,
    files: &mut S,
    layout: &Layout,
    region: &Region,
    found: &mut Vec<FoundFault>,
) -> Result<CheckEnd, WalkStop>
    requires region { region.now ≡ whole layout.now.scheme layout.now.levels }
    requires empty { found.old.items ≡ [] }
    ensures checked { IfSome (S.told files.old)
        (λ all. IfOk result (IsCheck (scene_of all layout.now) found.new.items)) }
    ensures faults { IfOk result (λ end. AreFaults layout.now found.new.items) }
    ensures few { IfOk result (λ end. end.looked ≤ most_roots) }
    ensures failed { result ≡ Err WalkStop.ReadFault → Rose (S.faults files.old) (S.faults files.new) }
    ensures sure { result ≢ Err WalkStop.ReadFault → S.faults files.new ≡ S.faults files.old }
    ensures later { S.faults files.old ≤ S.faults files.new }
    ensures fetched { IfOk result (λ end. HasLookedAt layout.now (S.told files.old) end.looked
        (S.fetches files.old) (S.fetches files.new)) }
    ensures same { S.told files.new ≡ S.told files.old }
{
    let roots = first_roots(alloc, layout.scheme)?;
    let mut frontier = Frontier {
        turn: 0,
        looked: 0,
        roots,
    };
    for turn in 0..layout.levels {
        let mut next = Vec::new(alloc);
        let end = check_roots(alloc, files, layout, region, &frontier, found, &mut next)?;
        if end.more {
            return Ok(end);
        }
        frontier = Frontier {
            turn: turn + 1,
            looked: end.looked,
            roots: next,
        };
    }
    Ok(CheckEnd {
        looked: frontier.looked,
        more: false,
    })
}

// Looks at the roots of a frontier, as far as they are not too many.
fn check_roots<S: FileSource>(
    alloc: Global,
    files: &mut S,
    layout: &Layout,
    region: &Region,
    frontier: &Frontier,
    found: &mut Vec<FoundFault>,
    next: &mut Vec<Word>,
) -> Result<CheckEnd, WalkStop>
    requires roots { AreRoots layout.now (frontier.now.turn * layout.now.subtree_levels) frontier.now.roots.items }
    requires next { AreRoots layout.now
        (frontier.now.turn * layout.now.subtree_levels + layout.now.subtree_levels) next.old.items }
    requires kept { length next.old.items ≤ most_roots + 1 }
    requires faults { AreFaults layout.now found.old.items }
    requires few { frontier.now.looked ≤ most_roots }
    requires on_walk { IfSome (S.told files.old)
        (λ all. All (IsOnWalk (scene_of all layout.now) region.now) frontier.now.roots.items) }
    ensures found { IfSome (S.told files.old)
        (λ all. IfOk result (λ end. found.new.items ≡ found.old.items ++ found_faults (scene_of all layout.now)
        (take (end.looked - frontier.now.looked) frontier.now.roots.items))) }
    ensures roots { IfSome (S.told files.old) (λ all. IfOk result (λ end. end.more ≡ false
        → map (word_tile layout.now.scheme) next.new.items
        ≡ take (most_roots + 1) (map (word_tile layout.now.scheme) next.old.items
        ++ flat_map (λ w. roots_below (scene_of all layout.now) region.now (word_tile layout.now.scheme w))
        frontier.now.roots.items))) }
    ensures next { IfOk result
        (λ end. AreRoots layout.now (frontier.now.turn * layout.now.subtree_levels + layout.now.subtree_levels)
        next.new.items) }
    ensures faults { IfOk result (λ end. AreFaults layout.now found.new.items) }
    ensures counted { IfOk result (Counts frontier.now.looked (length frontier.now.roots.items)) }
    ensures failed { result ≡ Err WalkStop.ReadFault → Rose (S.faults files.old) (S.faults files.new) }
    ensures sure { result ≢ Err WalkStop.ReadFault → S.faults files.new ≡ S.faults files.old }
    ensures later { S.faults files.old ≤ S.faults files.new }
    ensures fetched { IfOk result (λ end. HasFetched layout.now (S.told files.old)
        (map (word_tile layout.now.scheme) (take (end.looked - frontier.now.looked) frontier.now.roots.items))
        (S.fetches files.old) (S.fetches files.new)) }
    ensures same { S.told files.new ≡ S.told files.old }
{
    let mut count = frontier.looked;
    for root in &frontier.roots {
        if count == MOST_ROOTS {
            return Ok(CheckEnd {
                looked: count,
                more: true,
            });
        }
        check_root(alloc, files, layout, region, *root, found, next)?;
        count += 1;
    }
    Ok(CheckEnd {
        looked: count,
        more: false,
    })
}

// Looks at one root: its fault is noted, or its child roots are, as far as they are kept.
fn check_root<S: FileSource>(
    alloc: Global,
    files: &mut S,
    layout: &Layout,
    region: &Region,
    root: Word,
    found: &mut Vec<FoundFault>,
    next: &mut Vec<Word>,
) -> Result<(), WalkStop>
    requires root { IsRootWord layout.now (word_level root) root }
    requires next { AreRoots layout.now (word_level root + layout.now.subtree_levels) next.old.items }
    requires kept { length next.old.items ≤ most_roots + 1 }
    requires faults { AreFaults layout.now found.old.items }
    requires on_walk { IfSome (S.told files.old) (λ all. IsOnWalk (scene_of all layout.now) region.now root) }
    ensures found { IfSome (S.told files.old)
        (λ all. IfOk result (λ done. found.new.items ≡ found.old.items ++ found_faults (scene_of all layout.now)
        (root ∷ []))) }
    ensures roots { IfSome (S.told files.old)
        (λ all. IfOk result (λ done. map (word_tile layout.now.scheme) next.new.items
        ≡ take (most_roots + 1) (map (word_tile layout.now.scheme) next.old.items
        ++ roots_below (scene_of all layout.now) region.now (word_tile layout.now.scheme root)))) }
    ensures next { IfOk result
        (λ done. AreRoots layout.now (word_level root + layout.now.subtree_levels) next.new.items) }
    ensures kept { IfOk result (λ done. length next.new.items ≤ most_roots + 1) }
    ensures faults { IfOk result (λ done. AreFaults layout.now found.new.items) }
    ensures failed { result ≡ Err WalkStop.ReadFault → Rose (S.faults files.old) (S.faults files.new) }
    ensures sure { result ≢ Err WalkStop.ReadFault → S.faults files.new ≡ S.faults files.old }
    ensures later { S.faults files.old ≤ S.faults files.new }
    ensures fetched { IfOk result (λ done. HasFetched layout.now (S.told files.old)
        (word_tile layout.now.scheme root ∷ []) (S.fetches files.old) (S.fetches files.new)) }
    ensures same { S.told files.new ≡ S.told files.old }
{
    let tile = root_tile(layout, root);
    match read_subtree(alloc, files, layout, tile)? {
        Outcome::Bad(number) => {
            note(found, FoundFault { root, number })?;
            Ok(())
        }
        Outcome::Good(subtree) => {
            append_roots(&subtree, region, next)?;
            Ok(())
        }
    }
}

// Notes a fault.
fn note(found: &mut Vec<FoundFault>, fault: FoundFault) -> Result<(), AllocError>
    ensures { IfOk result (λ done. found.new.items ≡ found.old.items ++ fault ∷ []) }
{
    found.push(fault)?;
    Ok(())
}

// Appends the child roots of a subtree, as far as they are kept.
fn append_roots(subtree: &Subtree, region: &Region, next: &mut Vec<Word>) -> Result<(), AllocError>
    requires kept { length next.old.items ≤ most_roots + 1 }
    ensures within_limits { IsSubtree subtree.now }
    ensures appended { IfOk result (λ done. next.new.items
        ≡ take (most_roots + 1) (next.old.items ++ child_words subtree.now region.now)) }
{
    let _levels = subtree.levels;
    if next.len() == MOST_KEPT {
        return Ok(());
    }
    child_roots(subtree, region, next)?;
    next.truncate(MOST_KEPT);
    Ok(())
}
