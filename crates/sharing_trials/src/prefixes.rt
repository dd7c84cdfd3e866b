// What no clause says: that words and work come round, that a page taken beside a thread that publishes is a front of
// the course, and that prefixes and seats may go to other threads.
ghost use Rattle.std.specs.Prelude.{◌≡◌, ℕ, ◌+◌, ◌*◌, ◌^◌, ◌<◌, ◌≤◌, true, false, length, slice_index, IfOk};
ghost use Rattle.std.specs.Arc.{arc_value};
ghost use Rattle.published_prefix.specs.Heads.{FitsFaultWord};
ghost use Rattle.sharing_trials.specs.Samples.{any_begins, IsNumberedHead};
ghost use Rattle.sharing_trials.specs.Samples.{numbered_steps_are_few, numbered_faults_fit, numbered_begins};
ghost use Rattle.tile_coords.specs.declared.walk_end.WalkEnd.TheVariants.{Partial, Complete};

use contract_tokens::Tells;
use published_prefix::{Course, Prefix, PrefixSeat};
use std::alloc::{AllocError, Global};
use std::sync::{Arc, Wait};
use std::test::Fail;
use std::thread::{Threads, join, yield_now};
use tile_coords::{WalkEnd, Word};

// The words of a quadtree of three levels, all tiles of which are there, up to level 1. The subtrees have two levels,
// and there are no contents. The higher number of a word is the level times 2^16, the lower one the tile's Morton
// index. A walk of all tiles gives the root by its first step, and the root's children by its second.
const ROOT: [Word; 1] = [Word { high: 0, low: 0 }];

const CHILDREN: [Word; 4] = [
    Word {
        high: 65_536,
        low: 0,
    },
    Word {
        high: 65_536,
        low: 1,
    },
    Word {
        high: 65_536,
        low: 2,
    },
    Word {
        high: 65_536,
        low: 3,
    },
];

const FAULT: WalkEnd = WalkEnd::Fault {
    root: Word {
        high: 131_072,
        low: 6,
    },
    number: 14,
};

const TILES: usize = 21;

const UNUSED: Word = Word { high: 9, low: 9 };

// How far a walk is.
#[derive(Clone, Copy, Drop)]
struct Paused {
    steps: u64,
    count: usize,
    ended: bool,
}

// A walk of which nothing is known but that it gives 21 tiles at most.
struct AnyWalk;

impl Course for AnyWalk {
    type Tag = ();

    type Work = Paused;

    ghost word_at = { λ tag place word. Unit {0} };

    ghost is_head = { λ tag steps count end. (steps < 2 ^ 45) × (count ≤ 21) × FitsFaultWord end };

    ghost fits = { λ tag steps count end work. (work.steps ≡ steps) × (work.count ≡ count)
        × (work.ended ≡ false → end ≡ Partial) };

    ghost few_steps = { λ tag steps count end head. head.0 };

    ghost fault_fits = { λ tag steps count end head. head.2 };

    ghost begins = { λ tag. any_begins };
}

// The tag says nothing.
struct Nothing;

impl Tells<()> for Nothing {
    ghost told = { tt };
}

// Publishes the next step, if the walk goes on.
fn make_step(
    prefix: &Prefix<AnyWalk>,
    seat: &mut PrefixSeat<AnyWalk>,
    work: Paused,
    words: &[Word],
    end: WalkEnd,
) -> bool
    requires own { seat.old.table ≡ prefix.now }
    requires out { seat.old.has_work ≡ true }
    requires fits { (work.steps ≡ seat.old.steps) × (work.count ≡ seat.old.length)
        × (work.ended ≡ false → seat.old.end ≡ Partial) }
    requires end { FitsFaultWord end }
    ensures { (seat.new.table ≡ seat.old.table) × (seat.new.has_work ≡ false) }
{
    if work.ended || work.steps >= 1000 || work.count > TILES || words.len() > TILES - work.count {
        prefix.give_back(seat, work);
        return false;
    }
    let next = Paused {
        steps: work.steps + 1,
        count: work.count + words.len(),
        ended: end != WalkEnd::Partial,
    };
    prefix.publish(seat, words, end, next);
    true
}

// Whether the words begin so, and all others are unused.
fn begin_with(words: &[Word], front: &[Word]) -> bool {
    for i in 0..words.len() {
        let word = words[i];
        let wanted = if i < front.len() { front[i] } else { UNUSED };
        if word != wanted {
            return false;
        }
    }
    true
}

#[test]
fn a_seat_sees_what_another_publishes(rt: HostRuntime) -> Result<(), Fail> {
    let begun = Paused {
        steps: 0,
        count: 0,
        ended: false,
    };
    let (prefix, mut one) = Prefix::<AnyWalk>::new::<Nothing>(rt.alloc(), TILES, begun)?;
    let mut other = prefix.split(&mut one);
    let mut out = vec![in rt.alloc(); UNUSED; 8]?;
    let work = prefix.try_claim(&mut one).expect(&rt, "the turn is free");
    assert!(rt; make_step(&prefix, &mut one, work, &ROOT, WalkEnd::Partial));
    let work = prefix.try_claim(&mut one).expect(&rt, "the turn is free");

    let page = prefix.page(&mut other, 0, out.as_mut_slice());
    assert!(rt; page.count == 1 && page.length == 1 && page.steps == 1);
    assert!(rt; page.end == WalkEnd::Partial && begin_with(out.as_slice(), &ROOT));
    assert!(rt; prefix.try_claim(&mut other).is_none());

    assert!(rt; make_step(&prefix, &mut one, work, &CHILDREN, WalkEnd::Partial));
    let page = prefix.page(&mut other, 1, out.as_mut_slice());
    assert!(rt; page.count == 4 && page.length == 5 && page.steps == 2);
    assert!(rt; page.end == WalkEnd::Partial && begin_with(out.as_slice(), &CHILDREN));
    let page = prefix.page(&mut other, 9, out.as_mut_slice());
    assert!(rt; page.count == 0 && page.length == 5);
    assert!(rt; begin_with(out.as_slice(), &CHILDREN));

    let work = prefix.try_claim(&mut other).expect(&rt, "the turn is free");
    assert!(rt; make_step(&prefix, &mut other, work, &ROOT, FAULT));
    let page = prefix.page(&mut one, 5, out.as_mut_slice());
    assert!(rt; page.count == 1 && page.length == 6 && page.steps == 3 && page.end == FAULT);
    Ok(())
}

// The word at place i is i twice. There are 256 steps, each of 256 words.
struct Numbered;

impl Course for Numbered {
    type Tag = ();

    type Work = u64;

    ghost word_at = { λ tag place word. word ≡ place * 2 ^ 64 + place };

    ghost is_head = { λ tag steps count end. IsNumberedHead steps count end };

    ghost fits = { λ tag steps count end work. work ≡ steps };

    ghost few_steps = { λ tag steps count end head. numbered_steps_are_few steps count end head };

    ghost fault_fits = { λ tag steps count end head. numbered_faults_fit steps count end head };

    ghost begins = { λ tag. numbered_begins };
}

const STEPS: u64 = 256;

const WORDS: usize = 65_536;

// One of those who share a prefix.
#[derive(Drop)]
struct Walker {
    prefix: Arc<Prefix<Numbered>, Global>,
    seat: PrefixSeat<Numbered>,
    ghost own: { seat.table ≡ arc_value prefix },
    ghost idle: { seat.has_work ≡ false },
}

impl Walker {
    fn new(alloc: Global) -> Result<Walker, AllocError> {
        let (prefix, seat) = Prefix::<Numbered>::new::<Nothing>(alloc, WORDS, 0)?;
        let prefix = Arc::new(alloc, prefix)?;
        Ok(Walker { prefix, seat })
    }

    fn another(&mut self) -> Result<Walker, AllocError> {
        let prefix = Arc::try_clone(&self.prefix)?;
        let seat = self.prefix.split(&mut self.seat);
        Ok(Walker { prefix, seat })
    }

    // Makes one step, if the work is there and the course goes on.
    fn step(&mut self, alloc: Global) -> Result<(), AllocError> {
        let Some(work) = self.prefix.try_claim(&mut self.seat) else {
            return Ok(());
        };
        if work >= STEPS {
            self.prefix.give_back(&mut self.seat, work);
            return Ok(());
        }
        match some_numbers(alloc, work * 256) {
            Ok(words) => {
                let end = if work + 1 < STEPS {
                    WalkEnd::Partial
                } else {
                    WalkEnd::Complete
                };
                self.prefix.publish(&mut self.seat, &words, end, work + 1);
                Ok(())
            }
            Err(error) => {
                self.prefix.give_back(&mut self.seat, work);
                Err(error)
            }
        }
    }
}

impl Walker {
    fn read(&mut self, rt: &impl Wait, alloc: Global) -> Result<bool, AllocError> {
        let mut out = vec![in alloc; UNUSED; 1000]?;
        let mut place = 0;
        let mut length = 0;
        for _ in rt.forever() {
            let page = self.prefix.page(&mut self.seat, place, out.as_mut_slice());
            if page.length < length || page.length as u64 != 256 * page.steps {
                return Ok(false);
            }
            length = page.length;
            if !are_numbers(out.as_slice(), page.count, place) {
                return Ok(false);
            }
            place += page.count;
            if place == WORDS {
                return Ok(page.end == WalkEnd::Complete);
            }
            yield_now();
        }
        Ok(false)
    }
}

fn are_numbers(words: &[Word], count: usize, first: usize) -> bool
    requires { (count ≤ length words.now) × (first + count ≤ 65536) }
{
    for i in 0..count {
        let number = (first + i) as u64;
        let word = words[i];
        if word.high != number || word.low != number {
            return false;
        }
    }
    true
}

fn some_numbers(alloc: Global, first: u64) -> Result<Vec<Word>, AllocError>
    requires { first ≤ 65536 }
    ensures { IfOk result (λ v. (length v.items ≡ 256)
        × ((i : ℕ) → i < 256 → slice_index v.items i ≡ (first + i) * 2 ^ 64 + (first + i))) }
{
    let mut words = Vec::with_capacity(alloc, 256)?;
    for i in 0..256u64 {
        words.push(Word {
            high: first + i,
            low: first + i,
        })?;
    }
    Ok(words)
}

fn write_all(alloc: Global, mut walker: Walker) -> Result<bool, AllocError> {
    for _ in 0..STEPS {
        walker.step(alloc)?;
    }
    Ok(true)
}

// Pages until the end. Each is a front of the course, and no shorter than the last one.
fn read_all(rt: &impl Wait, alloc: Global, mut walker: Walker) -> Result<bool, AllocError> {
    walker.read(rt, alloc)
}

fn two_read<R: Threads + Wait + Sync>(rt: &R, alloc: Global, one: Walker, other: Walker) -> bool {
    let (one, other) = join(
        rt,
        move || read_all(rt, alloc, one),
        move || read_all(rt, alloc, other),
    );
    matches!((one, other), (Ok(true), Ok(true)))
}

fn one_writes<R: Threads + Wait + Sync>(
    rt: &R,
    alloc: Global,
    writer: Walker,
    reader: Walker,
) -> bool {
    let (writer, reader) = join(
        rt,
        move || write_all(alloc, writer),
        move || read_all(rt, alloc, reader),
    );
    matches!((writer, reader), (Ok(true), Ok(true)))
}

#[test]
fn pages_beside_a_writer_are_fronts(rt: HostRuntime) -> Result<(), Fail> {
    let mut writer = Walker::new(rt.alloc())?;
    let reader = writer.another()?;
    let others = (writer.another()?, writer.another()?);
    let alloc = rt.alloc();
    let rt = &rt;
    let (one, two) = join(
        rt,
        move || one_writes(rt, alloc, writer, reader),
        move || two_read(rt, alloc, others.0, others.1),
    );
    assert!(rt; one && two);
    Ok(())
}

fn sends<T: Send>(_: &T) {}

fn shares<T: Sync>(_: &T) {}

#[test]
fn prefixes_and_seats_cross_threads(rt: HostRuntime) -> Result<(), Fail> {
    let (prefix, seat) = Prefix::<Numbered>::new::<Nothing>(rt.alloc(), WORDS, 0)?;
    sends(&seat);
    sends(&prefix);
    shares(&prefix);
    let shared = Arc::new(rt.alloc(), prefix)?;
    sends(&shared);
    shares(&shared);
    assert!(rt; size_of::<PrefixSeat<Numbered>>() == 0);
    Ok(())
}
