// A pool of 1,024 frames: asked again and again for the keys that it holds, and for twice as many keys in turn, so that
// each ask gives up a frame.
ghost use Rattle.std.specs.Prelude.{◌+◌, ◌-◌, ◌^◌, ◌<◌, ◌≤◌};
ghost use Rattle.frame_pool.specs.States.{pins_of};
ghost use Rattle.frame_pool.specs.Frames.{EachFrame};

use crate::report;
use frame_pool::{Asked, Pool};
use std::alloc::{AllocError, Global};
use std::io;
use std::rt::Clock;
use std::time::Instant;

const FRAMES: usize = 1024;

const CALLS: u64 = 10_000_000;

/// Times asks that hit, and asks that give up a frame.
pub fn run(rt: &(impl Print + Eprint + Clock), alloc: Global) -> io::Result<()> {
    time_asks(rt, alloc, "frame_hits", FRAMES as u64)?;
    time_asks(rt, alloc, "frame_misses", 2 * FRAMES as u64)
}

// Asks for so many keys, which is a power of two.
fn time_asks(
    rt: &(impl Print + Eprint + Clock),
    alloc: Global,
    name: &str,
    keys: u64,
) -> io::Result<()>
    requires { 0 < keys }
{
    let start = Instant::now(rt)?;
    let sum = sum_of_frames(alloc, CALLS, keys)?;
    report(rt, name, sum, start.elapsed(rt)?)
}

// The keys go through all of their numbers in large steps, since the step has no common divisor with a power of two.
fn sum_of_frames(alloc: Global, calls: u64, keys: u64) -> Result<u64, AllocError>
    requires some { 0 < keys }
    requires few { calls < 2 ^ 32 - 1 }
{
    let mut pool = Pool::new(alloc, FRAMES)?;
    let mut sum = 0u64;
    for call in 0..calls {
        let key = call.wrapping_mul(389) % keys;
        sum = sum.wrapping_mul(3).wrapping_add(used(&mut pool, key, call));
    }
    Ok(sum)
}

// The frame of the key, with its value, which is used and no longer held. There were so many calls before this one.
fn used(pool: &mut Pool<u64, u64>, key: u64, call: u64) -> u64
    requires few { call < 2 ^ 32 - 1 }
    requires pins { EachFrame (λ state. pins_of state ≤ call) pool.old.census }
    ensures { EachFrame (λ state. pins_of state ≤ call + 1) pool.new.census }
{
    match pool.ask(key) {
        Asked::Hit(frame) => {
            let value = *pool.look(frame);
            pool.unpin(frame);
            value ^ u64::from(frame)
        }
        Asked::Granted(frame) => {
            pool.settle(frame, Some(key));
            pool.unpin(frame);
            key ^ u64::from(frame) << 32
        }
        Asked::Loading | Asked::Busy => 0,
    }
}
