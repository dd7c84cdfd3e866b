// The host of a pool, which hands out its passes.
ghost use Rattle.std.specs.Prelude.{◌≡◌, ℕ, ◌+◌, ◌≤◌, [], ◌∷◌, ◌++◌, length, vec_len, slice_get, None, Some, IfOk};
ghost use Rattle.std.specs.Prelude.{IfSome, IfNone};
ghost use Rattle.std.specs.Arc.{arc_value};
ghost use Rattle.turn_lock.specs.Seats.{fresh as fresh_seat};
ghost use Rattle.frame_pool.specs.Frames.{empty_frames};
ghost use Rattle.shared_pool.specs.Books.{HasFewKeys, IsFetchedOnce, all_entries};
ghost use Rattle.shared_pool.specs.Fits.{IsIdle, added};
ghost use Rattle.shared_pool.specs.Seen.{HasKept, first_note, handed_out, one_number, other_numbers};

use crate::answer::Held;
use crate::changes::keep;
use crate::note::Note;
use crate::pass::PoolPass;
use crate::rule::{PoolRule, Pooled};
use crate::shared::{PoolTag, Shared};
use contract_tokens::{Log, Tells};
use frame_pool::Pool;
use std::alloc::{AllocError, Global};
use std::marker::{Brand, Model, PhantomData};
use std::sync::{Arc, Wait};
use turn_lock::{Divides as Halves, Opens, Seat, TurnLock};

// The numbers that a pool is made with.
trait Sizes {
    ghost passes: { ℕ };

    ghost frames: { ℕ };
}

impl Sizes for Brand {
    ghost passes = { 0 };

    ghost frames = { 0 };
}

// What is stated of the first seat: the tag that `J` tells, with the numbers of `L`.
struct Opening<J, L> {
    stated: PhantomData<(J, L)>,
}

impl<G, K, T, J: Tells<G>, L: Sizes> Opens<PoolTag<G>, Note<K, T>> for Opening<J, L> {
    ghost use Rattle.shared_pool.specs.Seen.{first_note};

    ghost tag = { record { frames = L.frames; passes = L.passes; own = J.told } };

    ghost note = { first_note L.passes };
}

impl<K, T> Halves<Note<K, T>> for Brand {
    ghost use Rattle.shared_pool.specs.Fits.{nothing};

    ghost left = { nothing };

    ghost right = { nothing };
}

/// The host of a pool. Contracts see how many passes it has handed out and its note, which has the numbers of the
/// passes that aren't handed out and of those that came back, and the pool that it took and gave last.
#[derive(Drop)]
pub struct Host<R: PoolRule> {
    lock: Arc<TurnLock<Pooled<R>>, Global>,
    seat: Seat<Pooled<R>>,
    // One for each pass that isn't handed out.
    locks: Vec<Arc<TurnLock<Pooled<R>>, Global>>,
    next: usize,
}

impl<R: PoolRule> Model for Host<R> {
    ghost use Rattle.std.specs.Prelude.{◌≡◌, ℕ, vec_len, slice_get, Some};
    ghost use Rattle.std.specs.Arc.{arc_value};
    ghost use Rattle.shared_pool.specs.Seen.{HostSeen, IsHost};

    ghost Value = { HostSeen R.Tag R.Key R.Item };

    ghost view = { λ h. record {
      table = h.seat.table;
      tag = h.seat.tag;
      next = h.next;
      note = h.seat.note;
      last =
          h.seat.last;
      gave = h.seat.gave;
    } };

    ghost invariant = { λ h. IsHost h.seat (arc_value h.lock) h.next (vec_len h.locks)
        × ((j : ℕ) (l : _) → slice_get h.locks.items j ≡ Some l → arc_value l ≡ arc_value h.lock) };
}

impl<R: PoolRule> Host<R> {
    /// A pool of empty frames, with as many passes as may be handed out. All memory that the passes need is taken
    /// here, but what a hit needs. The rule's own tag is told by `J`. An error is want of memory.
    pub fn start<J: Tells<R::Tag>>(
        alloc: Global,
        passes: usize,
        frames: usize,
    ) -> Result<Host<R>, AllocError>
        requires passes { (1 ≤ passes) × (passes ≤ 64) }
        requires frames { (1 ≤ frames) × (frames ≤ 1024) }
        ensures { IfOk result (λ h. (h.tag ≡ record { frames = frames; passes = passes; own = J.told }) × (h.next ≡ 0)
            × (h.note ≡ first_note passes)) }
    {
        let pool = Pool::new(alloc, frames)?;
        let shared = Shared {
            pool,
            log: Log::empty(),
        };
        let (lock, seat) = open::<R, J, Brand>(alloc, shared, passes, frames)?;
        let lock = Arc::new(alloc, lock)?;
        let locks = shares(alloc, &lock, passes)?;
        Ok(Host {
            lock,
            seat,
            locks,
            next: 0,
        })
    }

    /// The pass of the next number. None where all passes were handed out. No memory is taken.
    pub fn pass(&mut self) -> Option<PoolPass<R>>
        ensures none { IfNone result ((self.old.next ≡ self.old.tag.passes) × (self.new ≡ self.old)) }
        ensures pass { IfSome result (λ p. (p ≡ handed_out self.old) × (self.old.next + 1 ≤ self.old.tag.passes)) }
        ensures left { IfSome result
            (λ p. self.new ≡ record self.old { next = self.old.next + 1; note = other_numbers self.old.note }) }
        ensures number { IfSome result
            (λ p. self.old.note.granted ≡ record { pass = self.old.next; entries = [] } ∷ self.new.note.granted) }
    {
        let lock = self.locks.pop()?;
        let number = self.next;
        let seat = cut(&self.lock, &mut self.seat);
        self.next = number + 1;
        Some(PoolPass {
            lock,
            seat,
            number,
            held: Held::Nothing,
        })
    }

    /// Takes a pass back, with its number and grants.
    pub fn rejoin(&mut self, pass: PoolPass<R>)
        requires own { pass.table ≡ self.old.table }
        requires idle { IsIdle pass.note }
        ensures note { self.new ≡ record self.old { note = added self.old.note pass.note } }
        ensures back { length self.new.note.granted ≡ length self.old.note.granted + 1 }
    {
        let PoolPass {
            lock: _,
            seat,
            number: _,
            held: _,
        } = pass;
        self.lock.join(&mut self.seat, seat);
    }

    /// Takes the pool once, with every pass that was handed out rejoined. Where no more keys were granted than there
    /// are frames, each key was granted at most once more than its loadings ended without a value. No memory is taken.
    pub fn audit(&mut self, rt: &impl Wait)
        requires { length self.old.note.granted ≡ self.old.tag.passes }
        ensures same { self.new ≡ record self.old { last = self.new.last; gave = self.new.gave } }
        ensures kept { HasKept self.old.tag self.old.note self.new.last self.new.gave self.new.note }
        ensures fetched { HasFewKeys R.Key.eq self.old.tag.frames (all_entries self.old.note.granted)
            → IsFetchedOnce R.Key.eq (all_entries self.old.note.granted) }
    {
        let shared = self.lock.take(rt, &mut self.seat);
        keep(&self.lock, &mut self.seat, shared);
    }
}

// A lock over the empty pool, with the host's seat.
fn open<R: PoolRule, J: Tells<R::Tag>, L: Sizes>(
    alloc: Global,
    shared: Shared<R::Key, R::Item>,
    passes: usize,
    frames: usize,
) -> Result<(TurnLock<Pooled<R>>, Seat<Pooled<R>>), AllocError>
    requires stated { (L.passes ≡ passes) × (L.frames ≡ frames) }
    requires empty { (shared.pool ≡ empty_frames frames) × (shared.log ≡ []) }
    ensures { IfOk result (λ r. r.1 ≡ fresh_seat r.0 (record { frames = frames; passes = passes; own = J.told })
        (first_note passes)) }
{
    let _ = passes;
    let _ = frames;
    TurnLock::<Pooled<R>>::new::<Opening<J, L>>(alloc, shared)
}

// The lock, so many times.
fn shares<T: Drop>(
    alloc: Global,
    lock: &Arc<T, Global>,
    count: usize,
) -> Result<Vec<Arc<T, Global>>, AllocError>
    ensures { IfOk result (λ locks. (vec_len locks ≡ count) × ((j : ℕ) (l : _) → slice_get locks.items j ≡ Some l
        → arc_value l ≡ arc_value lock.now)) }
{
    let mut locks = Vec::with_capacity(alloc, count)?;
    for _ in 0..count {
        locks.push(Arc::try_clone(lock)?)?;
    }
    Ok(locks)
}

// The first number of the seat's note goes to a new seat.
fn cut<R: PoolRule>(lock: &TurnLock<Pooled<R>>, seat: &mut Seat<Pooled<R>>) -> Seat<Pooled<R>>
    requires own { seat.old.table ≡ lock.now }
    requires idle { IsIdle seat.old.note }
    ensures left { seat.new ≡ record seat.old { note = other_numbers seat.old.note } }
    ensures right { result ≡ fresh_seat seat.old.table seat.old.tag (one_number seat.old.note) }
{
    lock.split::<Brand>(seat)
}
