// The walk of a region over frames.
ghost use Rattle.std.specs.Prelude.{ℕ, ◌≡◌, ◌≢◌, ◌≤◌, List, [], length, IfOk, IfErr, IfSome, Err};
ghost use Rattle.implicit_tiling.specs.Steps.{steps};
ghost use Rattle.implicit_tileset.specs.Scene.{scene_of};
ghost use Rattle.frame_pool.specs.Frames.{most_frames};
ghost use Rattle.scene_ports.specs.Counts.{Rose};
ghost use Rattle.subtree_outcome.specs.Found.{AreTilesOf, EndsWithin};
ghost use Rattle.region_cursor.specs.Cursor.{IsWalkOf};
ghost use Rattle.region_cursor.specs.Moves.{begun};
ghost use Rattle.region_cursor.specs.Walked.{IsAt};
ghost use Rattle.walk_laws.specs.Plans.{FitsLayout, IsRegionOf};
ghost use Rattle.tile_word.specs.Answers.{IsAnswer};
ghost use Rattle.framed_walk.specs.Frames.{AreAtRest};
ghost use Rattle.framed_walk.specs.Reads.{HasRead, IsReadOver, step_keys};

use crate::frames::hold;
use frame_pool::Pool;
use region_cursor::CursorState;
use scene_ports::FileSource;
use std::alloc::Global;
use subtree_outcome::{Outcome, WalkStop};
use tile_coords::{Plan, WalkEnd, Word};
use tileset_json::Layout;

/// The answer for a plan that fits the layout, over this many frames (1 to 1,024): `words` becomes the words of its
/// tiles in key order, at most 65,536, and the end is that of the answer, so never Partial (OGC 22-025r4, implicit
/// tiling: availability). Each root on the walk is read, once for each level that its subtree gives where no frame
/// holds it any more; a file that has a fault when it is read again ends the walk with it. An Err leaves `words` as
/// it was.
pub fn framed<S: FileSource>(
    alloc: Global,
    files: &mut S,
    layout: &Layout,
    plan: &Plan,
    frames: usize,
    words: &mut Vec<Word>,
) -> Result<WalkEnd, WalkStop>
    requires fits { FitsLayout layout.now plan.now }
    requires frames { (1 ≤ frames) × (frames ≤ most_frames) }
    ensures answer { IfSome (S.told files.old)
        (λ all. IfOk result (IsAnswer (scene_of all layout.now) plan.now.region words.new.items)) }
    ensures found { IfOk result (λ end. AreTilesOf layout.now words.new.items) }
    ensures end { IfOk result (EndsWithin layout.now) }
    ensures over { IfOk result (λ end. end ≢ WalkEnd.Partial) }
    ensures unchanged { IfErr result (λ stop. words.new.items ≡ words.old.items) }
    ensures failed { result ≡ Err WalkStop.ReadFault → Rose (S.faults files.old) (S.faults files.new) }
    ensures sure { result ≢ Err WalkStop.ReadFault → S.faults files.new ≡ S.faults files.old }
    ensures later { S.faults files.old ≤ S.faults files.new }
    ensures fetched { IfOk result (λ end. IsReadOver frames layout.now (S.told files.old) plan.now.region
        (S.fetches files.old) (S.fetches files.new)) }
    ensures same { S.told files.new ≡ S.told files.old }
{
    let mut pool = Pool::new(alloc, frames)?;
    let mut cursor = CursorState::start(alloc, layout, *plan)?;
    let mut found = Vec::new(alloc);
    let end = walk(alloc, files, layout, &mut pool, &mut cursor, &mut found)?;
    *words = found;
    Ok(end)
}

// The walk from its first step to its last one.
fn walk<S: FileSource>(
    alloc: Global,
    files: &mut S,
    layout: &Layout,
    pool: &mut Pool<Word, Outcome>,
    cursor: &mut CursorState,
    words: &mut Vec<Word>,
) -> Result<WalkEnd, WalkStop>
    requires rest { AreAtRest layout.now (S.told files.old) pool.old }
    requires of_layout { IsWalkOf layout.now cursor.old.region cursor.old }
    requires at { IfSome (S.told files.old) (λ all. IsAt (scene_of all layout.now) cursor.old.region 0 cursor.old) }
    requires begun { cursor.old ≡ begun layout.now cursor.old.region }
    requires region { IsRegionOf layout.now cursor.old.region }
    requires empty { words.old.items ≡ [] }
    ensures answer { IfSome (S.told files.old)
        (λ all. IfOk result (IsAnswer (scene_of all layout.now) cursor.old.region words.new.items)) }
    ensures found { IfOk result (λ end. AreTilesOf layout.now words.new.items) }
    ensures end { IfOk result (EndsWithin layout.now) }
    ensures over { IfOk result (λ end. end ≢ WalkEnd.Partial) }
    ensures failed { result ≡ Err WalkStop.ReadFault → Rose (S.faults files.old) (S.faults files.new) }
    ensures sure { result ≢ Err WalkStop.ReadFault → S.faults files.new ≡ S.faults files.old }
    ensures later { S.faults files.old ≤ S.faults files.new }
    ensures fetched { IfOk result (λ end. (keys : List ℕ)
        × HasRead layout.now (S.told files.old) pool.old keys pool.new (S.fetches files.old) (S.fetches files.new)
        × IfSome (S.told files.old) (λ all. keys ≡ step_keys (scene_of all layout.now) cursor.old.region
        (length (steps (scene_of all layout.now) cursor.old.region)))) }
    ensures same { S.told files.new ≡ S.told files.old }
{
    let mut end = WalkEnd::Partial;
    let mut next = cursor.next_key();
    let mut step_words = Vec::new(alloc);
    while let Some(key) = next {
        let frame = hold(alloc, files, layout, pool, key)?;
        end = cursor.step(pool.look(frame), &mut step_words)?;
        pool.unpin(frame);
        words.extend_from_slice(&step_words)?;
        next = cursor.next_key();
    }
    Ok(end)
}
