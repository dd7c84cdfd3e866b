// One level of a walk.
ghost use Rattle.std.specs.Prelude.{◌≡◌, ◌≢◌, ◌+◌, ◌*◌, ◌≤◌, ◌++◌, map, length, true, IfOk, IfSome, Ok, Err};
ghost use Rattle.std.specs.List.{All, flat_map};
ghost use Rattle.implicit_tiling.specs.Code.{word_tile};
ghost use Rattle.implicit_tiling.specs.Steps.{root_level};
ghost use Rattle.implicit_tileset.specs.Scene.{scene_of};
ghost use Rattle.scene_ports.specs.Counts.{Rose, more_by};
ghost use Rattle.subtree_outcome.specs.Fetched.{cost_of_all, most_fetches};
ghost use Rattle.subtree_outcome.specs.Found.{AreTilesOf, EndsWithin};
ghost use Rattle.tile_word.specs.Roots.{AreRoots};
ghost use Rattle.reference_walk.specs.Walks.{Walks, word_pair, next_roots, IsWalked};

use crate::found::Found;
use crate::step::step;
use scene_ports::FileSource;
use std::alloc::Global;
use subtree_outcome::WalkStop;
use tile_coords::{Region, WalkEnd, Word};
use tileset_json::Layout;

/// The steps of one level of a walk, root by root.
pub(crate) fn walk_level<S: FileSource>(
    alloc: Global,
    files: &mut S,
    layout: &Layout,
    region: &Region,
    level: u32,
    roots: &[Word],
    found: &mut Found,
) -> Result<WalkEnd, WalkStop>
    requires roots { AreRoots layout.now (root_level layout.now level) roots.now }
    requires found { AreTilesOf layout.now found.old.words.items }
    requires next { AreRoots layout.now (level + 1) found.old.next.items }
    requires on_walk { IfSome (S.told files.old)
        (λ all. All (IsWalked (scene_of all layout.now) region.now level) roots.now) }
    ensures walks { IfSome (S.told files.old)
        (λ all. IfOk result (Walks (scene_of all layout.now) region.now
        (map (word_pair layout.now.scheme level) roots.now) found.old.words.items found.new.words.items)) }
    ensures roots { IfSome (S.told files.old) (λ all. IfOk result (λ end. end ≡ WalkEnd.Partial
        → map (word_tile layout.now.scheme) found.new.next.items
        ≡ map (word_tile layout.now.scheme) found.old.next.items
        ++ flat_map (λ w. next_roots (scene_of all layout.now) region.now level (word_tile layout.now.scheme w))
        roots.now)) }
    ensures found { IfOk result (λ end. AreTilesOf layout.now found.new.words.items) }
    ensures next { IfOk result (λ end. AreRoots layout.now (level + 1) found.new.next.items) }
    ensures end { IfOk result (EndsWithin layout.now) }
    ensures failed { result ≡ Err WalkStop.ReadFault → Rose (S.faults files.old) (S.faults files.new) }
    ensures sure { result ≢ Err WalkStop.ReadFault → S.faults files.new ≡ S.faults files.old }
    ensures later { S.faults files.old ≤ S.faults files.new }
    ensures fetched { IfSome (S.told files.old) (λ all. IfOk result (λ end. S.fetches files.new
        ≤ more_by (cost_of_all all layout.now (map (word_tile layout.now.scheme) roots.now)) (S.fetches files.old))) }
    ensures few { IfOk result (λ end. S.fetches files.new
        ≤ more_by (most_fetches layout.now * length roots.now) (S.fetches files.old)) }
    ensures same { S.told files.new ≡ S.told files.old }
{
    for root in roots {
        match step(alloc, files, layout, region, level, *root, found)? {
            WalkEnd::Partial => {}
            end => return Ok(end),
        }
    }
    Ok(WalkEnd::Partial)
}
