// A pass that has the outcome of a root pinned.
ghost use Rattle.std.specs.Prelude.{◌≡◌, ◌≢◌, ◌≤◌, ◌∷◌, [], nat_eq, IfOk, IfErr, Err};
ghost use Rattle.std.specs.Arc.{arc_value};
ghost use Rattle.implicit_tiling.specs.Code.{word_level, word_tile};
ghost use Rattle.scene_ports.specs.Counts.{Rose, more_by};
ghost use Rattle.shared_pool.specs.Books.{entered};
ghost use Rattle.shared_pool.specs.Fits.{IsIdle};
ghost use Rattle.shared_pool.specs.declared.entry.Entry.TheVariants.{Ended};
ghost use Rattle.shared_pool.specs.Seen.{HasMissed};
ghost use Rattle.subtree_outcome.specs.Fetched.{HasFetched, most_fetches};
ghost use Rattle.subtree_outcome.specs.Outcomes.{IsOutcomeOf};
ghost use Rattle.tile_word.specs.Roots.{IsRootWord};
ghost use Rattle.scene_frames.specs.Held.{IsOfScene, Loads, Pins, HasEnded, IsHeldBy, IsStoppedBy};

use crate::rule::Outcomes;
use scene_ports::FileSource;
use shared_pool::{Pinned, PoolPass};
use std::alloc::{AllocError, Global};
use std::sync::{Arc, Wait};
use subtree_outcome::{Outcome, WalkStop, read_subtree, root_tile};
use tile_coords::Word;
use tileset_json::Layout;

/// Why a pass holds no outcome.
#[derive(Clone, Copy, Debug, PartialEq, Eq)]
pub enum HoldStop {
    /// The source failed, and has counted a fault.
    ReadFault,
    /// Every frame is pinned, and none has the root.
    Busy,
    /// There was no memory.
    Memory,
}

impl From<WalkStop> for HoldStop {
    ghost use Rattle.std.specs.Prelude.{◌≡◌};
    ghost use Rattle.scene_frames.specs.Held.{hold_stop};

    ghost from_gives = { λ from stop. stop ≡ hold_stop from };

    fn from(stop: WalkStop) -> HoldStop {
        match stop {
            WalkStop::ReadFault => HoldStop::ReadFault,
            WalkStop::Memory => HoldStop::Memory,
        }
    }
}

/// Pins the outcome of the root of a word. Where no frame has it, this pass is granted one and reads the root's file,
/// with the files of its buffers; where another pass reads it, this one waits for it. After an Err the pass pins and
/// loads nothing, and a frame that it was granted is empty.
pub fn hold<S: FileSource>(
    rt: &impl Wait,
    alloc: Global,
    pass: &mut PoolPass<Outcomes>,
    files: &mut S,
    layout: &Layout,
    key: Word,
) -> Result<Arc<Outcome, Global>, HoldStop>
    requires idle { IsIdle pass.old.note }
    requires scene { IsOfScene layout.now (S.told files.old) pass.old.tag }
    requires key { IsRootWord layout.now (word_level key) key }
    ensures outcome { IfOk result (λ found. IsOutcomeOf layout.now (S.told files.old) key (arc_value found)) }
    ensures pins { IfOk result (λ found. Pins key (arc_value found) pass.new.note) }
    ensures held { IfOk result (λ found. IsHeldBy layout.now (S.told files.old) pass.old.number key
        pass.old.note pass.new.note (S.fetches files.old) (S.fetches files.new)) }
    ensures idle { IfErr result (λ stop. IsIdle pass.new.note) }
    ensures stopped { IfErr result (λ stop. IsStoppedBy layout.now pass.old.number key pass.old.note pass.new.note
        (S.fetches files.old) (S.fetches files.new)) }
    ensures busy { result ≡ Err HoldStop.Busy → HasMissed nat_eq key pass.old.tag pass.old.note pass.new.last
        pass.new.gave pass.new.note }
    ensures failed { result ≡ Err HoldStop.ReadFault → Rose (S.faults files.old) (S.faults files.new)
        × HasEnded pass.old.number key pass.old.tag pass.new.last pass.new.gave }
    ensures busies { result ≢ Err HoldStop.Busy → pass.new.note.busies ≡ pass.old.note.busies }
    ensures sure { result ≢ Err HoldStop.ReadFault → S.faults files.new ≡ S.faults files.old }
    ensures later { S.faults files.old ≤ S.faults files.new }
    ensures told { S.told files.new ≡ S.told files.old }
    ensures same { pass.new ≡ record pass.old { note = pass.new.note; last = pass.new.last; gave = pass.new.gave } }
{
    match pass.pin(rt, key) {
        Pinned::Hit(found) => Ok(found),
        Pinned::Granted => load(rt, alloc, pass, files, layout, key),
        Pinned::Busy => Err(HoldStop::Busy),
        Pinned::Memory => Err(HoldStop::Memory),
    }
}

// Reads the outcome into the frame that the pass was granted.
fn load<S: FileSource>(
    rt: &impl Wait,
    alloc: Global,
    pass: &mut PoolPass<Outcomes>,
    files: &mut S,
    layout: &Layout,
    key: Word,
) -> Result<Arc<Outcome, Global>, HoldStop>
    requires loads { Loads key pass.old.note }
    requires scene { IsOfScene layout.now (S.told files.old) pass.old.tag }
    requires key { IsRootWord layout.now (word_level key) key }
    ensures outcome { IfOk result (λ found. IsOutcomeOf layout.now (S.told files.old) key (arc_value found)) }
    ensures pins { IfOk result (λ found. Pins key (arc_value found) pass.new.note) }
    ensures granted { IfOk result (λ found. (pass.new.note.granted ≡ pass.old.note.granted)
        × HasFetched layout.now (S.told files.old) (word_tile layout.now.scheme key ∷ [])
        (S.fetches files.old) (S.fetches files.new)) }
    ensures idle { IfErr result (λ stop. IsIdle pass.new.note) }
    ensures ended { IfErr result (λ stop. (pass.new.note.granted ≡ entered (Ended pass.old.number key)
        pass.old.note.granted) × HasEnded pass.old.number key pass.old.tag pass.new.last pass.new.gave) }
    ensures at_most { S.fetches files.new ≤ more_by (most_fetches layout.now) (S.fetches files.old) }
    ensures not_busy { result ≢ Err HoldStop.Busy }
    ensures busies { pass.new.note.busies ≡ pass.old.note.busies }
    ensures failed { result ≡ Err HoldStop.ReadFault → Rose (S.faults files.old) (S.faults files.new) }
    ensures sure { result ≢ Err HoldStop.ReadFault → S.faults files.new ≡ S.faults files.old }
    ensures later { S.faults files.old ≤ S.faults files.new }
    ensures told { S.told files.new ≡ S.told files.old }
    ensures same { pass.new ≡ record pass.old { note = pass.new.note; last = pass.new.last; gave = pass.new.gave } }
{
    match read(alloc, files, layout, key) {
        Ok((kept, lent)) => {
            pass.settle(rt, Some(kept));
            Ok(lent)
        }
        Err(stop) => {
            pass.settle(rt, None);
            Err(stop.into())
        }
    }
}

// The outcome of a root's word, in two shares.
fn read<S: FileSource>(
    alloc: Global,
    files: &mut S,
    layout: &Layout,
    key: Word,
) -> Result<(Arc<Outcome, Global>, Arc<Outcome, Global>), WalkStop>
    requires { IsRootWord layout.now (word_level key) key }
    ensures one { IfOk result (λ both. arc_value both.0 ≡ arc_value both.1) }
    ensures outcome { IfOk result (λ both. IsOutcomeOf layout.now (S.told files.old) key (arc_value both.1)) }
    ensures failed { result ≡ Err WalkStop.ReadFault → Rose (S.faults files.old) (S.faults files.new) }
    ensures sure { result ≢ Err WalkStop.ReadFault → S.faults files.new ≡ S.faults files.old }
    ensures later { S.faults files.old ≤ S.faults files.new }
    ensures fetched { IfOk result (λ both. HasFetched layout.now (S.told files.old)
        (word_tile layout.now.scheme key ∷ []) (S.fetches files.old) (S.fetches files.new)) }
    ensures at_most { S.fetches files.new ≤ more_by (most_fetches layout.now) (S.fetches files.old) }
    ensures told { S.told files.new ≡ S.told files.old }
{
    let outcome = read_subtree(alloc, files, layout, root_tile(layout, key))?;
    Ok(shared(alloc, outcome)?)
}

fn shared<T: Drop>(alloc: Global, value: T) -> Result<(Arc<T, Global>, Arc<T, Global>), AllocError>
    ensures { IfOk result (λ both. (arc_value both.0 ≡ value) × (arc_value both.1 ≡ value)) }
{
    let one = Arc::new(alloc, value)?;
    let other = Arc::try_clone(&one)?;
    Ok((one, other))
}
