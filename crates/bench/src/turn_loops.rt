// A counter that is taken and given back, by one thread and by four.
ghost use Rattle.std.specs.Prelude.{◌≡◌, None};
ghost use Rattle.std.specs.Arc.{arc_value};

use crate::report;
use std::alloc::{AllocError, Global};
use std::io;
use std::rt::Clock;
use std::sync::{Arc, Wait};
use std::thread::{Threads, join};
use std::time::Instant;
use turn_lock::{Divides, Notes, Opens, Seat, TurnLock, TurnRule};

const TURNS: u64 = 8_000_000;

// Every number fits, and notes say nothing.
struct Counts;

impl TurnRule for Counts {
    type Tag = ();

    type Note = ();

    type Value = u64;

    ghost fits = { λ tag notes x. Unit {0} };

    ghost permits = { λ tag n x m y. Unit {0} };

    ghost divides = { λ tag n left right. Unit {0} };

    ghost is_empty = { λ n. Unit {0} };

    ghost added = { λ n m. tt };

    ghost spent = { tt };

    ghost spent_tag = { tt };

    ghost still_divided = { λ tag notes x i n left right fit at divided. tt };

    ghost still_changed = { λ tag notes x i n m y fit at permitted. tt };

    ghost still_added = { λ tag notes x i j n m fit at there apart empty. tt };
}

struct Nothing;

impl Opens<(), ()> for Nothing {
    ghost tag = { tt };

    ghost note = { tt };
}

impl Notes<()> for Nothing {
    ghost note = { tt };
}

impl Divides<()> for Nothing {
    ghost left = { tt };

    ghost right = { tt };
}

// A seat at the counter.
#[derive(Drop)]
struct Counter {
    lock: Arc<TurnLock<Counts>, Global>,
    seat: Seat<Counts>,
    ghost own: { seat.table ≡ arc_value lock },
    ghost idle: { seat.out ≡ None },
}

impl Counter {
    fn new(alloc: Global) -> Result<Counter, AllocError> {
        let (lock, seat) = TurnLock::<Counts>::new::<Nothing>(alloc, 0)?;
        let lock = Arc::new(alloc, lock)?;
        Ok(Counter { lock, seat })
    }

    fn another(&mut self) -> Result<Counter, AllocError> {
        let lock = Arc::try_clone(&self.lock)?;
        let seat = self.lock.split::<Nothing>(&mut self.seat);
        Ok(Counter { lock, seat })
    }

    // The counter after so many turns of this seat.
    fn count(&mut self, rt: &impl Wait, turns: u64) -> u64 {
        let mut last = 0;
        for _ in 0..turns {
            last = self.lock.take(rt, &mut self.seat).wrapping_add(1);
            self.lock.give::<Nothing>(&mut self.seat, last);
        }
        last
    }
}

/// Times turns by one thread, and as many by four.
pub fn run<R: Print + Eprint + Clock + Threads + Wait + Sync>(
    rt: &R,
    alloc: Global,
) -> io::Result<()> {
    let mut one = Counter::new(alloc)?;
    let start = Instant::now(rt)?;
    let sum = one.count(rt, TURNS);
    report(rt, "turns1", sum, start.elapsed(rt)?)?;
    let mut first = Counter::new(alloc)?;
    let others = (first.another()?, first.another()?, first.another()?);
    let last = first.another()?;
    let start = Instant::now(rt)?;
    let sum = by_four(rt, (first, others.0), (others.1, others.2), last);
    report(rt, "turns4", sum, start.elapsed(rt)?)
}

// The counter after a quarter of the turns by each of four threads, and one turn more.
fn by_four<R: Threads + Wait + Sync>(
    rt: &R,
    some: (Counter, Counter),
    others: (Counter, Counter),
    mut last: Counter,
) -> u64 {
    join(rt, move || by_two(rt, some), move || by_two(rt, others));
    last.count(rt, 1)
}

fn by_two<R: Threads + Wait + Sync>(rt: &R, counters: (Counter, Counter)) {
    let (one, other) = counters;
    join(rt, move || quarter(rt, one), move || quarter(rt, other));
}

fn quarter(rt: &impl Wait, mut counter: Counter) {
    counter.count(rt, TURNS / 4);
}
