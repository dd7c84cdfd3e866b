// One local level of one subtree.
ghost use Rattle.std.specs.Prelude.{◌≡◌, ◌≢◌, ◌+◌, ◌%◌, ◌<◌, ◌≤◌, ◌++◌, ◌∷◌, [], map, true, IfOk, IfSome, Ok, Err, length};
ghost use Rattle.implicit_tiling.specs.Answer.{most_tiles};
ghost use Rattle.implicit_tiling.specs.Code.{word_tile as word_tile_of};
ghost use Rattle.implicit_tiling.specs.Subtree.{IsSubtree};
ghost use Rattle.implicit_tiling.specs.Steps.{root_level};
ghost use Rattle.implicit_tileset.specs.Scene.{scene_of};
ghost use Rattle.scene_ports.specs.Counts.{Rose};
ghost use Rattle.subtree_outcome.specs.Fetched.{HasFetched};
ghost use Rattle.subtree_outcome.specs.Found.{AreTilesOf, EndsWithin};
ghost use Rattle.reference_walk.specs.Appended.{Appends};
ghost use Rattle.tile_word.specs.Roots.{IsRootWord, AreRoots};
ghost use Rattle.reference_walk.specs.Walks.{Walks, word_pair, next_roots, IsWalked};

use crate::found::Found;
use availability::Subtree;
use region_scan::{child_roots, level_tiles};
use scene_ports::FileSource;
use std::alloc::{AllocError, Global};
use subtree_outcome::{Outcome, WalkStop, read_subtree, root_tile};
use tile_coords::{Region, WalkEnd, Word};
use tileset_json::Layout;

// The most tiles of an answer (this project's own).
const MOST_TILES: usize = 65536;

/// One step of a walk: reads the subtree of a root, and appends the words of its tiles of one level of the tileset.
/// In the last level of the subtree it also appends its child roots to the next ones. The walk goes on where the end
/// is Partial. An Err, and any other end, leave any next roots.
pub(crate) fn step<S: FileSource>(
    alloc: Global,
    files: &mut S,
    layout: &Layout,
    region: &Region,
    level: u32,
    root: Word,
    found: &mut Found,
) -> Result<WalkEnd, WalkStop>
    requires root { IsRootWord layout.now (root_level layout.now level) root }
    requires found { AreTilesOf layout.now found.old.words.items }
    requires next { AreRoots layout.now (level + 1) found.old.next.items }
    requires on_walk { IfSome (S.told files.old) (λ all. IsWalked (scene_of all layout.now) region.now level root) }
    ensures walks { IfSome (S.told files.old)
        (λ all. IfOk result (Walks (scene_of all layout.now) region.now
        (word_pair layout.now.scheme level root ∷ []) found.old.words.items found.new.words.items)) }
    ensures roots { IfSome (S.told files.old) (λ all. IfOk result (λ end. end ≡ WalkEnd.Partial
        → map (word_tile_of layout.now.scheme) found.new.next.items
        ≡ map (word_tile_of layout.now.scheme) found.old.next.items
        ++ next_roots (scene_of all layout.now) region.now level (word_tile_of layout.now.scheme root))) }
    ensures found { IfOk result (λ end. AreTilesOf layout.now found.new.words.items) }
    ensures next { IfOk result (λ end. AreRoots layout.now (level + 1) found.new.next.items) }
    ensures end { IfOk result (EndsWithin layout.now) }
    ensures failed { result ≡ Err WalkStop.ReadFault → Rose (S.faults files.old) (S.faults files.new) }
    ensures sure { result ≢ Err WalkStop.ReadFault → S.faults files.new ≡ S.faults files.old }
    ensures later { S.faults files.old ≤ S.faults files.new }
    ensures fetched { IfOk result (λ end. HasFetched layout.now (S.told files.old)
        (word_tile_of layout.now.scheme root ∷ []) (S.fetches files.old) (S.fetches files.new)) }
    ensures same { S.told files.new ≡ S.told files.old }
{
    let tile = root_tile(layout, root);
    match read_subtree(alloc, files, layout, tile)? {
        Outcome::Bad(number) => Ok(WalkEnd::Fault { root, number }),
        Outcome::Good(subtree) => {
            let local = level % layout.subtree_levels;
            let end = append(&subtree, region, local, found)?;
            Ok(end)
        }
    }
}

// Appends the words of a local level's tiles in the region, as far as an answer holds them, and in the last level the
// child roots.
fn append(
    subtree: &Subtree,
    region: &Region,
    local: u32,
    found: &mut Found,
) -> Result<WalkEnd, AllocError>
    requires local { local < subtree.now.levels }
    requires few { length found.old.words.items ≤ most_tiles }
    ensures within_limits { IsSubtree subtree.now }
    ensures appended { IfOk result
        (Appends subtree.now region.now local found.old.words.items found.new.words.items found.old.next.items
        found.new.next.items) }
{
    let last = subtree.levels - 1;
    let room = MOST_TILES - found.words.len();
    if level_tiles(subtree, local, region, room, &mut found.words)? {
        return Ok(WalkEnd::TooMany);
    }
    if local < last {
        return Ok(WalkEnd::Partial);
    }
    child_roots(subtree, region, &mut found.next)?;
    Ok(WalkEnd::Partial)
}
