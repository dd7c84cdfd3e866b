// The kinds of change, each of which gives the pool back. One function is one kind, since it states the note.
ghost use Rattle.std.specs.Prelude.{◌≡◌, ℕ, ◌<◌, None, Some, slice_get};
ghost use Rattle.std.specs.Arc.{arc_value};
ghost use Rattle.frame_pool.specs.declared.frame.Asked.TheVariants.{Hit as hit, Granted as grant, Busy as busy};
ghost use Rattle.frame_pool.specs.Moves.{IsAskAnswer, after_ask};
ghost use Rattle.shared_pool.specs.declared.entry.Entry.TheVariants.{Ended};
ghost use Rattle.shared_pool.specs.Fits.{HasNumber, IsIdle, Permits, with_load, with_pin};
ghost use Rattle.shared_pool.specs.Books.{occurs};
ghost use Rattle.shared_pool.specs.Seen.{HasOut, HasHit, HasGrant, HasMissed, HasForgone, HasKept};
ghost use Rattle.shared_pool.specs.Seen.{HasSettled, HasFreed, pin_at};
ghost use Rattle.shared_pool.specs.Seen.{note_of_grant, log_of_grant, log_of_end};

use crate::entry::Entry;
use crate::note::Note;
use crate::rule::{PoolRule, Pooled};
use crate::shared::Shared;
use contract_tokens::{Log, Tells};
use std::alloc::Global;
use std::collections::LinkedList;
use std::marker::Brand;
use std::sync::Arc;
use turn_lock::{Notes, Seat, TurnLock};

impl<K, T> Notes<Note<K, T>> for Brand {
    ghost use Rattle.shared_pool.specs.Fits.{nothing};

    ghost note = { nothing };
}

// The pool is given back as it was taken.
pub(crate) fn keep<R: PoolRule>(
    lock: &TurnLock<Pooled<R>>,
    seat: &mut Seat<Pooled<R>>,
    shared: Shared<R::Key, R::Item>,
)
    requires own { seat.old.table ≡ lock.now }
    requires out { HasOut R.Key.eq R.fits seat.old shared }
    ensures same { seat.new ≡ record seat.old { note = seat.new.note; out = None; gave = seat.new.gave } }
    ensures kept { HasKept seat.old.tag seat.old.note seat.old.last seat.new.gave seat.new.note }
{
    lock.give::<Brand>(seat, shared);
}

// The pool is given back as it was taken, since every frame is pinned.
pub(crate) fn miss<R: PoolRule>(
    lock: &TurnLock<Pooled<R>>,
    seat: &mut Seat<Pooled<R>>,
    shared: Shared<R::Key, R::Item>,
    key: R::Key,
)
    requires own { seat.old.table ≡ lock.now }
    requires out { HasOut R.Key.eq R.fits seat.old shared }
    requires idle { IsIdle seat.old.note × HasNumber seat.old.note }
    requires answer { IsAskAnswer R.Key.eq key shared.pool busy }
    ensures same { seat.new ≡ record seat.old { note = seat.new.note; out = None; gave = seat.new.gave } }
    ensures missed { HasMissed R.Key.eq key seat.old.tag seat.old.note seat.old.last seat.new.gave seat.new.note }
{
    let _ = key;
    lock.give::<Brand>(seat, shared);
}

// The pool is given back as it was taken, though the frame is ready with the key.
pub(crate) fn forgo<R: PoolRule>(
    lock: &TurnLock<Pooled<R>>,
    seat: &mut Seat<Pooled<R>>,
    shared: Shared<R::Key, R::Item>,
    key: R::Key,
    frame: u32,
)
    requires own { seat.old.table ≡ lock.now }
    requires out { HasOut R.Key.eq R.fits seat.old shared }
    requires answer { IsAskAnswer R.Key.eq key shared.pool (hit frame) }
    ensures same { seat.new ≡ record seat.old { note = seat.new.note; out = None; gave = seat.new.gave } }
    ensures forgone { HasForgone R.Key.eq key seat.old.tag seat.old.note seat.old.last seat.new.gave seat.new.note }
{
    let _ = key;
    let _ = frame;
    lock.give::<Brand>(seat, shared);
}

// The pool is given back, and the seat has a pin of the frame.
fn give_pinned<R: PoolRule, J: Notes<Note<R::Key, R::Item>>>(
    lock: &TurnLock<Pooled<R>>,
    seat: &mut Seat<Pooled<R>>,
    shared: Shared<R::Key, R::Item>,
    frame: u32,
)
    requires own { seat.old.table ≡ lock.now }
    requires stated { J.note ≡ with_pin seat.old.note (pin_at shared.pool frame) }
    requires permitted { (x : _) × (seat.old.out ≡ Some x)
        × Permits R.Key.eq R.fits seat.old.tag seat.old.note x
        (with_pin seat.old.note (pin_at shared.pool frame)) shared }
    ensures { seat.new ≡ record seat.old {
      note = with_pin seat.old.note
          (pin_at shared.pool frame);
      out = None;
      gave = Some shared;
    } }
{
    let _ = frame;
    lock.give::<J>(seat, shared);
}

// The frame that has the key gets one pin more.
pub(crate) fn hit<R: PoolRule>(
    lock: &TurnLock<Pooled<R>>,
    seat: &mut Seat<Pooled<R>>,
    mut shared: Shared<R::Key, R::Item>,
    key: R::Key,
    frame: u32,
    copy: &Arc<R::Item, Global>,
)
    requires own { seat.old.table ≡ lock.now }
    requires out { HasOut R.Key.eq R.fits seat.old shared }
    requires idle { IsIdle seat.old.note × HasNumber seat.old.note }
    requires answer { IsAskAnswer R.Key.eq key shared.pool (hit frame) }
    requires value { (a : _) × (slice_get shared.pool.values frame ≡ Some (Some a))
        × (arc_value copy.now ≡ arc_value a) }
    ensures same { seat.new ≡ record seat.old { note = seat.new.note; out = None; gave = seat.new.gave } }
    ensures made { HasHit R.Key.eq R.fits key seat.old.tag seat.old.note seat.old.last seat.new.gave seat.new.note
        frame copy.now }
{
    let _ = copy;
    let _asked = shared.pool.ask(key);
    give_pinned::<R, Brand>(lock, seat, shared, frame);
}

// The log with the entry of a grant behind it, as `W` tells it.
fn log_with_grant<R: PoolRule, W: Tells<LinkedList<Entry<R::Key>>>>(
    seat: &Seat<Pooled<R>>,
    number: usize,
    key: R::Key,
    frame: u32,
) -> Log<Entry<R::Key>>
    requires { W.told ≡ log_of_grant number key frame seat.now.out }
    ensures { result ≡ log_of_grant number key frame seat.now.out }
{
    let _ = seat;
    let _ = number;
    let _ = key;
    let _ = frame;
    Log::of::<W>()
}

// The pool is given back, and the seat loads the frame.
fn give_granted<R: PoolRule, J: Notes<Note<R::Key, R::Item>>>(
    lock: &TurnLock<Pooled<R>>,
    seat: &mut Seat<Pooled<R>>,
    shared: Shared<R::Key, R::Item>,
    number: usize,
    key: R::Key,
    frame: u32,
)
    requires own { seat.old.table ≡ lock.now }
    requires stated { J.note ≡ note_of_grant seat.old.note number key frame seat.old.out }
    requires permitted { (x : _) × (seat.old.out ≡ Some x)
        × Permits R.Key.eq R.fits seat.old.tag seat.old.note x
        (note_of_grant seat.old.note number key frame seat.old.out) shared }
    ensures { seat.new ≡ record seat.old {
      note = note_of_grant seat.old.note number key frame seat.old.out;
      out =
          None;
      gave = Some shared;
    } }
{
    let _ = number;
    let _ = key;
    let _ = frame;
    lock.give::<J>(seat, shared);
}

// The pool has granted the frame for the key, to the pass of the number.
pub(crate) fn granted<R: PoolRule>(
    lock: &TurnLock<Pooled<R>>,
    seat: &mut Seat<Pooled<R>>,
    shared: Shared<R::Key, R::Item>,
    number: usize,
    key: R::Key,
    frame: u32,
)
    requires own { seat.old.table ≡ lock.now }
    requires idle { IsIdle seat.old.note × (0 < occurs number seat.old.note.granted) }
    requires asked { (x : _) × HasOut R.Key.eq R.fits seat.old x × IsAskAnswer R.Key.eq key x.pool (grant frame)
        × (shared.pool ≡ after_ask key x.pool (grant frame)) }
    ensures same { seat.new ≡ record seat.old { note = seat.new.note; out = None; gave = seat.new.gave } }
    ensures made { HasGrant R.Key.eq number key seat.old.tag seat.old.note seat.old.last seat.new.gave seat.new.note
        frame }
{
    let Shared { pool, log: _ } = shared;
    let log = log_with_grant::<R, Brand>(seat, number, key, frame);
    give_granted::<R, Brand>(lock, seat, Shared { pool, log }, number, key, frame);
}

// The loading of the frame has brought the value of its key.
pub(crate) fn fill<R: PoolRule>(
    lock: &TurnLock<Pooled<R>>,
    seat: &mut Seat<Pooled<R>>,
    mut shared: Shared<R::Key, R::Item>,
    key: R::Key,
    frame: u32,
    value: Arc<R::Item, Global>,
)
    requires own { seat.old.table ≡ lock.now }
    requires out { HasOut R.Key.eq R.fits seat.old shared }
    requires loads { seat.old.note.loading ≡ Some (record { frame = frame; key = key }) }
    requires fits { R.fits seat.old.tag.own key (arc_value value) }
    ensures same { seat.new ≡ record seat.old { note = seat.new.note; out = None; gave = seat.new.gave } }
    ensures made { (number : ℕ)
        → HasSettled number seat.old.tag seat.old.note seat.old.last seat.new.gave seat.new.note (Some value) }
{
    let _ = key;
    shared.pool.settle(frame, Some(value));
    give_pinned::<R, Brand>(lock, seat, shared, frame);
}

// The log with the entry of a loading's end behind it, as `W` tells it.
fn log_with_end<R: PoolRule, W: Tells<LinkedList<Entry<R::Key>>>>(
    seat: &Seat<Pooled<R>>,
    number: usize,
    key: R::Key,
) -> Log<Entry<R::Key>>
    requires { W.told ≡ log_of_end number key seat.now.out }
    ensures { result ≡ log_of_end number key seat.now.out }
{
    let _ = seat;
    let _ = number;
    let _ = key;
    Log::of::<W>()
}

// The pool is given back, and the seat loads nothing more.
fn give_ended<R: PoolRule, J: Notes<Note<R::Key, R::Item>>>(
    lock: &TurnLock<Pooled<R>>,
    seat: &mut Seat<Pooled<R>>,
    shared: Shared<R::Key, R::Item>,
    number: usize,
    key: R::Key,
)
    requires own { seat.old.table ≡ lock.now }
    requires stated { J.note ≡ with_load seat.old.note None (Ended number key) }
    requires permitted { (x : _) × (seat.old.out ≡ Some x)
        × Permits R.Key.eq R.fits seat.old.tag seat.old.note x (with_load seat.old.note None
        (Ended number key)) shared }
    ensures { seat.new ≡ record seat.old {
      note = with_load seat.old.note None
          (Ended number key);
      out = None;
      gave = Some shared;
    } }
{
    let _ = number;
    let _ = key;
    lock.give::<J>(seat, shared);
}

// The loading of the frame has ended without a value.
pub(crate) fn fail<R: PoolRule>(
    lock: &TurnLock<Pooled<R>>,
    seat: &mut Seat<Pooled<R>>,
    shared: Shared<R::Key, R::Item>,
    number: usize,
    key: R::Key,
    frame: u32,
)
    requires own { seat.old.table ≡ lock.now }
    requires out { HasOut R.Key.eq R.fits seat.old shared }
    requires number { 0 < occurs number seat.old.note.granted }
    requires loads { seat.old.note.loading ≡ Some (record { frame = frame; key = key }) }
    ensures same { seat.new ≡ record seat.old { note = seat.new.note; out = None; gave = seat.new.gave } }
    ensures made { HasSettled number seat.old.tag seat.old.note seat.old.last seat.new.gave seat.new.note None }
{
    let Shared { mut pool, log: _ } = shared;
    pool.settle(frame, None);
    let log = log_with_end::<R, Brand>(seat, number, key);
    give_ended::<R, Brand>(lock, seat, Shared { pool, log }, number, key);
}

// The pin of the frame ends.
pub(crate) fn free<R: PoolRule>(
    lock: &TurnLock<Pooled<R>>,
    seat: &mut Seat<Pooled<R>>,
    mut shared: Shared<R::Key, R::Item>,
    frame: u32,
)
    requires own { seat.old.table ≡ lock.now }
    requires out { HasOut R.Key.eq R.fits seat.old shared }
    requires pins { (p : _) × (seat.old.note.pin ≡ Some p) × (p.frame ≡ frame) }
    ensures same { seat.new ≡ record seat.old { note = seat.new.note; out = None; gave = seat.new.gave } }
    ensures made { HasFreed seat.old.tag seat.old.note seat.old.last seat.new.gave seat.new.note }
{
    shared.pool.unpin(frame);
    lock.give::<Brand>(seat, shared);
}
