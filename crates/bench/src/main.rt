//! Times of the inner loops of the layers. Checksums go to standard output, and times to standard error, where
//! nothing compares them. `bench/loops` times the same loops in plain Rust beside them.
#![tactic(auto)]

use std::io;
use std::time::Duration;

mod bits_loops;
mod decode_loops;
mod frame_loops;
mod morton_loops;
mod turn_loops;

fn main(rt: HostRuntime) -> io::Result<()> {
    morton_loops::run(&rt)?;
    bits_loops::run(&rt, rt.alloc())?;
    decode_loops::run(&rt, rt.alloc())?;
    frame_loops::run(&rt, rt.alloc())?;
    turn_loops::run(&rt, rt.alloc())
}

// One line of each: the checksum of a loop, and the time that it took.
fn report(rt: &(impl Print + Eprint), name: &str, checksum: u64, time: Duration) -> io::Result<()> {
    println!(rt; "{name} {checksum}")?;
    eprintln!(rt; "{name} {}", time.as_micros())
}

// The same of a loop that reads bytes: beside the checksum stands how many it read in all.
fn report_bytes(
    rt: &(impl Print + Eprint),
    name: &str,
    checksum: u64,
    bytes: u64,
    time: Duration,
) -> io::Result<()> {
    println!(rt; "{name} {checksum} {bytes}")?;
    eprintln!(rt; "{name} {}", time.as_micros())
}
