// Morton indices of coordinates that change with every call.
use crate::report;
use morton::{coords3, index3};
use std::io;
use std::rt::Clock;
use std::time::Instant;

const CALLS: u64 = 50_000_000;

const COORDINATE_END: u64 = 1 << 21;

/// Times `index3` and `coords3`.
pub fn run(rt: &(impl Print + Eprint + Clock)) -> io::Result<()> {
    let start = Instant::now(rt)?;
    let sum = sum_of_indices(CALLS);
    report(rt, "index3", sum, start.elapsed(rt)?)?;
    let start = Instant::now(rt)?;
    let sum = sum_of_coordinates(CALLS);
    report(rt, "coords3", sum, start.elapsed(rt)?)
}

fn sum_of_indices(calls: u64) -> u64 {
    let mut sum = 0u64;
    for call in 0..calls {
        let x = (call % COORDINATE_END) as u32;
        let y = ((call >> 5) % COORDINATE_END) as u32;
        let z = ((call >> 11) % COORDINATE_END) as u32;
        sum = sum.wrapping_add(index3(x, y, z));
    }
    sum
}

fn sum_of_coordinates(calls: u64) -> u64 {
    let mut sum = 0u64;
    for call in 0..calls {
        let (x, y, z) = coords3(call << 20 >> 1);
        sum = sum.wrapping_add(x as u64 + y as u64 + z as u64);
    }
    sum
}
