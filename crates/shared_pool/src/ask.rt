// One look at the pool for a key, and the looks of a pass that waits for another one's loading.
ghost use Rattle.std.specs.Prelude.{◌≡◌, ◌≤◌, ◌<◌, None};
ghost use Rattle.frame_pool.specs.declared.frame.Asked.TheVariants.{Hit as hit};
ghost use Rattle.frame_pool.specs.Moves.{IsAskAnswer};
ghost use Rattle.shared_pool.specs.Books.{occurs};
ghost use Rattle.shared_pool.specs.Fits.{HasNumber, IsIdle};
ghost use Rattle.shared_pool.specs.Seen.{HasAsked, HasLooked, HasOut};

use crate::answer::Asking;
use crate::changes::{forgo, granted, hit, keep, miss};
use crate::rule::{PoolRule, Pooled};
use crate::shared::Shared;
use frame_pool::Asked;
use std::hint::spin_loop;
use std::sync::{Arc, Wait};
use std::thread;
use turn_lock::{Seat, TurnLock};

// How long a pass waits before it looks again for a key that another pass loads.
const SPINS: u32 = 100;

/// Looks at the pool until there is an answer. The turn is had for the time of a look alone.
pub(crate) fn ask<R: PoolRule>(
    lock: &TurnLock<Pooled<R>>,
    rt: &impl Wait,
    seat: &mut Seat<Pooled<R>>,
    number: usize,
    key: R::Key,
) -> Asking<R::Item>
    requires own { seat.old.table ≡ lock.now }
    requires nothing_out { seat.old.out ≡ None }
    requires passes { seat.old.tag.passes ≤ 64 }
    requires idle { IsIdle seat.old.note }
    requires number { 0 < occurs number seat.old.note.granted }
    ensures same { seat.new
        ≡ record seat.old {
          tries = seat.new.tries;
          note = seat.new.note;
          last = seat.new.last;
          gave =
              seat.new.gave;
        } }
    ensures answer { HasAsked R.Key.eq R.fits number key seat.old.tag seat.old.note seat.new.last seat.new.gave
        seat.new.note result }
{
    for _ in rt.forever() {
        if let Some(answer) = look(lock, rt, seat, number, key) {
            return answer;
        }
        wait_briefly();
    }
    unreachable!()
}

// Lets the pass that loads the key go on.
fn wait_briefly() {
    for _ in 0..SPINS {
        spin_loop();
    }
    thread::yield_now();
}

// One look. None means that another pass loads the key.
fn look<R: PoolRule>(
    lock: &TurnLock<Pooled<R>>,
    rt: &impl Wait,
    seat: &mut Seat<Pooled<R>>,
    number: usize,
    key: R::Key,
) -> Option<Asking<R::Item>>
    requires own { seat.old.table ≡ lock.now }
    requires nothing_out { seat.old.out ≡ None }
    requires passes { seat.old.tag.passes ≤ 64 }
    requires idle { IsIdle seat.old.note }
    requires number { 0 < occurs number seat.old.note.granted }
    ensures same { seat.new
        ≡ record seat.old {
          tries = seat.new.tries;
          note = seat.new.note;
          last = seat.new.last;
          gave =
              seat.new.gave;
        } }
    ensures answer { HasLooked R.Key.eq R.fits number key seat.old.tag seat.old.note seat.new.last seat.new.gave
        seat.new.note result }
{
    let shared = lock.take(rt, seat);
    match shared.pool.find(key) {
        Some(frame) => Some(pin_found(lock, seat, shared, key, frame)),
        None => ask_for(lock, seat, shared, number, key),
    }
}

// The frame is ready with the key. Its value is shared first, so that the pool is as it was where there is no memory.
fn pin_found<R: PoolRule>(
    lock: &TurnLock<Pooled<R>>,
    seat: &mut Seat<Pooled<R>>,
    shared: Shared<R::Key, R::Item>,
    key: R::Key,
    frame: u32,
) -> Asking<R::Item>
    requires own { seat.old.table ≡ lock.now }
    requires out { HasOut R.Key.eq R.fits seat.old shared }
    requires idle { IsIdle seat.old.note × HasNumber seat.old.note }
    requires answer { IsAskAnswer R.Key.eq key shared.pool (hit frame) }
    ensures same { seat.new ≡ record seat.old { note = seat.new.note; out = None; gave = seat.new.gave } }
    ensures answer { (number : _)
        → HasAsked R.Key.eq R.fits number key seat.old.tag seat.old.note seat.old.last seat.new.gave seat.new.note
        result }
{
    let Ok(copy) = Arc::try_clone(shared.pool.look(frame)) else {
        forgo(lock, seat, shared, key, frame);
        return Asking::Memory;
    };
    hit(lock, seat, shared, key, frame, &copy);
    Asking::Hit(frame, copy)
}

// No frame is ready with the key.
fn ask_for<R: PoolRule>(
    lock: &TurnLock<Pooled<R>>,
    seat: &mut Seat<Pooled<R>>,
    mut shared: Shared<R::Key, R::Item>,
    number: usize,
    key: R::Key,
) -> Option<Asking<R::Item>>
    requires own { seat.old.table ≡ lock.now }
    requires out { HasOut R.Key.eq R.fits seat.old shared }
    requires idle { IsIdle seat.old.note }
    requires number { 0 < occurs number seat.old.note.granted }
    requires none { (f : _) → ¬ IsAskAnswer R.Key.eq key shared.pool (hit f) }
    ensures same { seat.new ≡ record seat.old { note = seat.new.note; out = None; gave = seat.new.gave } }
    ensures answer { HasLooked R.Key.eq R.fits number key seat.old.tag seat.old.note seat.old.last seat.new.gave
        seat.new.note result }
{
    match shared.pool.ask(key) {
        Asked::Hit(_) => unreachable!(),
        Asked::Granted(frame) => {
            granted(lock, seat, shared, number, key, frame);
            Some(Asking::Granted(frame))
        }
        Asked::Loading => {
            keep(lock, seat, shared);
            None
        }
        Asked::Busy => {
            miss(lock, seat, shared, key);
            Some(Asking::Busy)
        }
    }
}
