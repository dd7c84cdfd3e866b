// Bitstreams of 37,450 bytes, the nodes of an octree subtree of 7 levels: counted, and searched for each 1.
use crate::report;
use bitstream::Bits;
use std::alloc::{AllocError, Global};
use std::io;
use std::rt::Clock;
use std::time::Instant;

const BYTES: usize = 37_450;

const COUNTS: u64 = 50_000;

const WALKS: u64 = 5_000;

/// Times `ones` over whole bitstreams, and `next_one` over one where a byte in 512 has a 1, and over one where
/// every other byte has.
pub fn run(rt: &(impl Print + Eprint + Clock), alloc: Global) -> io::Result<()> {
    let Some(dense) = Bits::of_bytes(filled(alloc, 2)?, 8 * BYTES as u64) else {
        return Ok(());
    };
    let Some(sparse) = Bits::of_bytes(filled(alloc, 512)?, 8 * BYTES as u64) else {
        return Ok(());
    };
    let start = Instant::now(rt)?;
    let sum = sum_of_counts(&dense, COUNTS);
    report(rt, "ones", sum, start.elapsed(rt)?)?;
    let start = Instant::now(rt)?;
    let sum = sum_of_walks(&sparse, WALKS);
    report(rt, "next_one", sum, start.elapsed(rt)?)?;
    let start = Instant::now(rt)?;
    let sum = sum_of_walks(&dense, WALKS / 100);
    report(rt, "next_near", sum, start.elapsed(rt)?)
}

// Bytes that are 0, but for each `step`-th, which is a power of two.
fn filled(alloc: Global, step: usize) -> Result<Vec<u8>, AllocError> {
    let mut bytes = vec![in alloc; 0u8; BYTES]?;
    for (place, byte) in bytes.iter_mut().enumerate() {
        if step != 0 && place % step == step - 1 {
            *byte = 1 << (place / step % 8);
        }
    }
    Ok(bytes)
}

fn sum_of_counts(bits: &Bits, counts: u64) -> u64 {
    let count = bits.count();
    let mut sum = 0u64;
    for call in 0..counts {
        let less = if call % 100 < count { call % 100 } else { 0 };
        sum = sum.wrapping_add(bits.ones(count - less));
    }
    sum
}

fn sum_of_walks(bits: &Bits, walks: u64) -> u64 {
    let mut sum = 0u64;
    for walk in 0..walks {
        sum = sum.wrapping_add(sum_of_places(bits, walk % 64));
    }
    sum
}

// The places of the ones from `first` on.
fn sum_of_places(bits: &Bits, first: u64) -> u64 {
    let end = bits.count();
    let mut sum = 0u64;
    let mut from = if first < end { first } else { end };
    while let Some(place) = bits.next_one(from, end) {
        sum = sum.wrapping_add(place);
        from = place + 1;
    }
    sum
}
