// Batches over a small tileset, by some workers and frames: the texts, the fetches and the statuses.
ghost use Rattle.std.specs.Prelude.{◌≤◌};
ghost use Rattle.frame_pool.specs.Frames.{most_frames};

use crate::files::{Untold, desks_for};
use batch_run::Desk;
use program_status::Status;
use scene_ports::MemoryLink;
use shared_commands::answer_input;
use std::alloc::{AllocError, Global};
use std::sync::Wait;
use std::test::Fail;
use std::thread::Threads;
use viewer_session::{ViewerPass, Walked};

const LINE: &str = "2 0,0 3,3\n";

// How a batch ended, what was given, and how often all sources were asked.
#[derive(Drop)]
struct Tried {
    status: Status,
    text: Vec<u8>,
    fetches: u64,
}

// A batch by some workers. Of the fetches of each source, and of the takes and gives, those of these numbers fail.
fn batch_of<R: Threads + Wait + Sync>(
    rt: &R,
    alloc: Global,
    workers: usize,
    frames: usize,
    tileset: Option<&str>,
    input: &str,
    failing_fetches: &[u64],
    failing_calls: &[u64],
) -> Result<Tried, AllocError>
    requires frames { (1 ≤ frames) × (frames ≤ most_frames) }
    requires workers { (1 ≤ workers) × (workers ≤ 64) }
{
    let mut desks = desks_for(alloc, workers, tileset, failing_fetches)?;
    let bytes = Vec::from_slice(alloc, input.as_bytes())?;
    let mut inlet = MemoryLink::new(alloc, bytes, 7, failing_calls.to_vec(alloc)?);
    let mut outlet = MemoryLink::new(alloc, Vec::new(alloc), 1, failing_calls.to_vec(alloc)?);
    let status = answer_input(
        rt,
        alloc,
        frames,
        desks.as_mut_slice(),
        &mut inlet,
        &mut outlet,
    );
    Ok(Tried {
        status,
        text: outlet.written().to_vec(alloc)?,
        fetches: count_fetches(desks.as_slice()),
    })
}

// How often the sources were asked.
fn count_fetches(desks: &[Desk<Untold, ViewerPass, Walked>]) -> u64 {
    let mut fetches = 0u64;
    for desk in desks.iter() {
        fetches = fetches.saturating_add(desk.source().fetches());
    }
    fetches
}

// How many lines a text has.
fn count_lines(text: &[u8]) -> usize {
    text.iter().filter(|byte| **byte == b'\n').count()
}

// Whether a text is eight equal blocks of 22 lines, of which each ends with the whole answer's end.
fn is_eight_blocks(text: &[u8]) -> bool {
    let length = text.len() / 8;
    if length == 0 || text.len() % 8 != 0 {
        return false;
    }
    let first = &text[..length];
    count_lines(first) == 22
        && first.ends_with(b"\nend\tcomplete\t21\n".as_slice())
        && text.chunks(length).all(|block| block == first)
}

#[test]
fn eight_equal_lines_are_eight_equal_blocks(rt: HostRuntime) -> Result<(), Fail> {
    let input = LINE.repeat(rt.alloc(), 8)?;
    let first = batch_of(&rt, rt.alloc(), 4, 64, None, &input, &[], &[])?;
    assert!(rt; first.status == Status::Done);
    assert!(rt; is_eight_blocks(&first.text));
    assert!(rt; first.fetches <= 18);
    for (workers, frames) in [
        (4, 1),
        (1, 64),
        (1, 1),
        (2, 2),
        (3, 31),
        (16, 1024),
        (64, 3),
    ] {
        let other = batch_of(&rt, rt.alloc(), workers, frames, None, &input, &[], &[])?;
        assert!(rt; other.status == Status::Done);
        assert!(rt; other.text.as_slice() == first.text.as_slice());
    }
    Ok(())
}

#[test]
fn a_failed_fetch_is_told_in_its_block(rt: HostRuntime) -> Result<(), Fail> {
    let input = LINE.repeat(rt.alloc(), 2)?;
    let whole = batch_of(&rt, rt.alloc(), 1, 32, None, LINE, &[], &[])?;
    for number in 2..19 {
        let tried = batch_of(&rt, rt.alloc(), 1, 32, None, &input, &[number], &[])?;
        assert!(rt; tried.status == Status::Done);
        assert!(rt; tried.fetches == 19);
        assert!(rt;
            tried.text.strip_prefix(b"read-fault\n".as_slice()) == Some(whole.text.as_slice())
        );
    }
    let late = batch_of(&rt, rt.alloc(), 1, 32, None, &input, &[19], &[])?;
    assert!(rt; late.status == Status::Done);
    assert!(rt; late.fetches == 18);
    assert!(rt; count_lines(&late.text) == 44);
    Ok(())
}

#[test]
fn the_first_refusal_is_told(rt: HostRuntime) -> Result<(), Fail> {
    let early = batch_of(&rt, rt.alloc(), 2, 2, None, LINE, &[1], &[1])?;
    assert!(rt; early.status == Status::ReadFault);
    assert!(rt; early.fetches == 1 && early.text.is_empty());
    let faulty = batch_of(&rt, rt.alloc(), 2, 2, Some("{}"), LINE, &[], &[1])?;
    assert!(rt; faulty.status == Status::BadLayout(4));
    assert!(rt; faulty.fetches == 1 && faulty.text.is_empty());
    let unread = batch_of(&rt, rt.alloc(), 2, 2, None, LINE, &[], &[1])?;
    assert!(rt; unread.status == Status::InputFault);
    assert!(rt; unread.fetches == 1 && unread.text.is_empty());
    Ok(())
}

#[test]
fn no_input_is_no_text(rt: HostRuntime) -> Result<(), Fail> {
    let empty = batch_of(&rt, rt.alloc(), 3, 1, None, "", &[], &[])?;
    assert!(rt; empty.status == Status::Done && empty.text.is_empty());
    assert!(rt; empty.fetches == 1);
    let bad = batch_of(
        &rt,
        rt.alloc(),
        3,
        1,
        None,
        "2 0,0\r\n\n3 0,0 0,0\n2 1,0 0,0",
        &[],
        &[],
    )?;
    assert!(rt; bad.status == Status::Done);
    assert!(rt;
        bad.text.as_slice() == b"refused\t1\nrefused\t1\nrefused\t3\nrefused\t4\n".as_slice()
    );
    Ok(())
}
