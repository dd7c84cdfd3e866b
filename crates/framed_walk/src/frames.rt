// The outcomes that frames hold.
ghost use Rattle.std.specs.Prelude.{◌≡◌, ◌≢◌, ◌≤◌, ◌∷◌, [], IfOk, IfErr, Err};
ghost use Rattle.implicit_tiling.specs.Code.{word_level, word_tile};
ghost use Rattle.scene_ports.specs.Counts.{Rose};
ghost use Rattle.tile_word.specs.Roots.{IsRootWord};
ghost use Rattle.subtree_outcome.specs.Outcomes.{IsOutcomeOf};
ghost use Rattle.subtree_outcome.specs.Fetched.{HasFetched};
ghost use Rattle.framed_walk.specs.Frames.{AreAtRest, IsHeld};
ghost use Rattle.framed_walk.specs.Reads.{IsInTurn};

use frame_pool::{Asked, Pool};
use scene_ports::FileSource;
use std::alloc::Global;
use subtree_outcome::{Outcome, WalkStop, read_subtree, root_tile};
use tile_coords::Word;
use tileset_json::Layout;

// The frame with the outcome of a key, which has one pin until the turn ends. The outcome is read where no frame
// holds it. An Err leaves no frame in use.
pub(crate) fn hold<S: FileSource>(
    alloc: Global,
    files: &mut S,
    layout: &Layout,
    pool: &mut Pool<Word, Outcome>,
    key: Word,
) -> Result<u32, WalkStop>
    requires key { IsRootWord layout.now (word_level key) key }
    requires rest { AreAtRest layout.now (S.told files.old) pool.old }
    ensures held { IfOk result (λ frame. IsHeld layout.now (S.told files.old) key frame pool.new) }
    ensures rest { IfErr result (λ stop. AreAtRest layout.now (S.told files.old) pool.new) }
    ensures failed { result ≡ Err WalkStop.ReadFault → Rose (S.faults files.old) (S.faults files.new) }
    ensures sure { result ≢ Err WalkStop.ReadFault → S.faults files.new ≡ S.faults files.old }
    ensures later { S.faults files.old ≤ S.faults files.new }
    ensures turn { IfOk result
        (λ frame. IsInTurn layout.now (S.told files.old) key frame pool.old pool.new
        (S.fetches files.old) (S.fetches files.new)) }
    ensures same { S.told files.new ≡ S.told files.old }
{
    match pool.ask(key) {
        Asked::Hit(frame) => Ok(frame),
        Asked::Granted(frame) => match read(alloc, files, layout, key) {
            Ok(outcome) => {
                pool.settle(frame, Some(outcome));
                Ok(frame)
            }
            Err(stop) => {
                pool.settle(frame, None);
                Err(stop)
            }
        },
        Asked::Loading => unreachable!(),
        Asked::Busy => unreachable!(),
    }
}

// The outcome of a key.
fn read<S: FileSource>(
    alloc: Global,
    files: &mut S,
    layout: &Layout,
    key: Word,
) -> Result<Outcome, WalkStop>
    requires { IsRootWord layout.now (word_level key) key }
    ensures outcome { IfOk result (IsOutcomeOf layout.now (S.told files.old) key) }
    ensures failed { result ≡ Err WalkStop.ReadFault → Rose (S.faults files.old) (S.faults files.new) }
    ensures sure { result ≢ Err WalkStop.ReadFault → S.faults files.new ≡ S.faults files.old }
    ensures later { S.faults files.old ≤ S.faults files.new }
    ensures fetched { IfOk result (λ found. HasFetched layout.now (S.told files.old)
        (word_tile layout.now.scheme key ∷ []) (S.fetches files.old) (S.fetches files.new)) }
    ensures same { S.told files.new ≡ S.told files.old }
{
    read_subtree(alloc, files, layout, root_tile(layout, key))
}
