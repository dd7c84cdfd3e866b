// What no clause says: that the value comes round, and that locks and seats may go to other threads. A struct that is
// generic over a rule of its own has a lock and a seat in its fields.
ghost use Rattle.std.specs.Prelude.{◌≡◌, ◌≤◌, None, IfOk, IfSome};
ghost use Rattle.std.specs.Arc.{arc_value};

use std::alloc::{AllocError, Global};
use std::marker::PhantomData;
use std::sync::{Arc, Wait};
use std::test::Fail;
use std::thread::{Threads, join};
use turn_lock::{Divides, Notes, Opens, Seat, TurnLock, TurnRule};

const ROUNDS: u32 = 10_000;

const MOST: u64 = 20_000;

// Which items may lie in the lock.
trait Fitting {
    type Item: Drop;

    ghost fits: { Self.Item → Type 0 };
}

// The rule: the item fits, whatever the notes are.
struct Fits<R> {
    rule: PhantomData<R>,
}

impl<R: Fitting> TurnRule for Fits<R> {
    type Tag = ();

    type Note = ();

    type Value = R::Item;

    ghost fits = { λ tag notes x. R.fits x };

    ghost permits = { λ tag n x m y. R.fits y };

    ghost divides = { λ tag n left right. Unit {0} };

    ghost is_empty = { λ n. Unit {0} };

    ghost added = { λ n m. tt };

    ghost spent = { tt };

    ghost spent_tag = { tt };

    ghost still_divided = { λ tag notes x i n left right fit at divided. fit };

    ghost still_changed = { λ tag notes x i n m y fit at permitted. permitted };

    ghost still_added = { λ tag notes x i j n m fit at there apart empty. fit };
}

// The notes say nothing.
struct Nothing;

impl Opens<(), ()> for Nothing {
    ghost tag = { tt };

    ghost note = { tt };
}

impl Notes<()> for Nothing {
    ghost note = { tt };
}

impl Divides<()> for Nothing {
    ghost left = { tt };

    ghost right = { tt };
}

// One holder of a shared item.
#[derive(Drop)]
struct Holder<R: Fitting> {
    lock: Arc<TurnLock<Fits<R>>, Global>,
    seat: Seat<Fits<R>>,
    ghost own: { seat.table ≡ arc_value lock },
    ghost idle: { seat.out ≡ None },
}

impl<R: Fitting> Holder<R> {
    fn new(alloc: Global, item: R::Item) -> Result<Holder<R>, AllocError>
        requires { R.fits item }
    {
        let (lock, seat) = TurnLock::<Fits<R>>::new::<Nothing>(alloc, item)?;
        let lock = Arc::new(alloc, lock)?;
        Ok(Holder { lock, seat })
    }

    fn another(&mut self) -> Result<Holder<R>, AllocError> {
        let lock = Arc::try_clone(&self.lock)?;
        let seat = self.lock.split::<Nothing>(&mut self.seat);
        Ok(Holder { lock, seat })
    }

    fn swap<W: Wait>(&mut self, rt: &W, item: R::Item) -> R::Item
        requires { R.fits item }
        ensures { R.fits result }
    {
        let old = self.lock.take(rt, &mut self.seat);
        self.lock.give::<Nothing>(&mut self.seat, item);
        old
    }
}

// Numbers up to a bound.
struct Below;

impl Fitting for Below {
    type Item = u64;

    ghost fits = { λ n. n ≤ 20000 };
}

impl Holder<Below> {
    fn add<W: Wait>(&mut self, rt: &W, rounds: u32) {
        for _ in 0..rounds {
            let count = self.lock.take(rt, &mut self.seat);
            let more = if count < MOST { count + 1 } else { count };
            self.lock.give::<Nothing>(&mut self.seat, more);
        }
    }
}

fn added<W: Wait>(rt: &W, mut holder: Holder<Below>) -> Holder<Below> {
    holder.add(rt, ROUNDS);
    holder
}

fn added_by_two<R: Threads + Wait + Sync>(
    rt: &R,
    one: Holder<Below>,
    other: Holder<Below>,
) -> (Holder<Below>, Holder<Below>) {
    join(rt, move || added(rt, one), move || added(rt, other))
}

#[test]
fn two_threads_count_to_the_sum(rt: HostRuntime) -> Result<(), Fail> {
    let mut one = Holder::<Below>::new(rt.alloc(), 0)?;
    let other = one.another()?;
    let (mut one, mut other) = added_by_two(&rt, one, other);
    assert!(rt; one.swap(&rt, 7) == MOST);
    assert!(rt; other.swap(&rt, 8) == 7);
    Ok(())
}

#[test]
fn the_value_comes_round(rt: HostRuntime) -> Result<(), Fail> {
    let (lock, mut one) = TurnLock::<Fits<Below>>::new::<Nothing>(rt.alloc(), 5)?;
    let mut other = lock.split::<Nothing>(&mut one);
    assert!(rt; lock.take(&rt, &mut one) == 5);
    assert!(rt; lock.try_take(&mut other).is_none());
    lock.give::<Nothing>(&mut one, 6);
    let found = lock.try_take(&mut other).expect(&rt, "the turn is free");
    assert!(rt; found == 6);
    assert!(rt; lock.try_take(&mut one).is_none());
    lock.give::<Nothing>(&mut other, 7);
    lock.join(&mut one, other);
    assert!(rt; lock.try_take(&mut one) == Some(7));
    Ok(())
}

fn sends<T: Send>(_: &T) {}

fn shares<T: Sync>(_: &T) {}

#[test]
fn locks_and_seats_cross_threads(rt: HostRuntime) -> Result<(), Fail> {
    let (lock, seat) = TurnLock::<Fits<Below>>::new::<Nothing>(rt.alloc(), 5)?;
    sends(&seat);
    sends(&lock);
    shares(&lock);
    let shared = Arc::new(rt.alloc(), lock)?;
    sends(&shared);
    shares(&shared);
    Ok(())
}
