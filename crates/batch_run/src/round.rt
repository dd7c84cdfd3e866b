// A round: its lines answered, and their blocks written.
ghost use Rattle.std.specs.Prelude.{◌≡◌, ◌≢◌, ◌≤◌, ◌<◌, ◌∷◌, ℕ, List, map, length, false, Err, OnOk, IsFalse};
ghost use Rattle.std.specs.Prelude.{slice_index_or};
ghost use Rattle.std.specs.List.{All, flat_map};
ghost use Rattle.std.specs.Io.KnownBytes.{Appends};
ghost use Rattle.scene_ports.specs.Counts.{Rose};
ghost use Rattle.scene_ports.specs.Output.{GivesFront};
ghost use Rattle.batch_blocks.specs.Replies.{reply_text};
ghost use Rattle.batch_blocks.specs.Workers.{round_lines};
ghost use Rattle.batch_run.specs.Batches.{HasWorked, HasReplies, SameButReplies, IsBatch, IsBatchBegun};
ghost use Rattle.batch_run.specs.Batches.{AreLeftReady};
ghost use Rattle.batch_run.specs.Desks.{IsReady};

use crate::desk::Desk;
use crate::gate::Gate;
use crate::viewing::{Pass, Viewing};
use crate::work::{read_line, work};
use batch_blocks::{Reply, append_reply, worker_of};
use scene_ports::{FileSource, GiveFault, Outlet, give_rest};
use std::alloc::Global;
use std::sync::Wait;
use std::thread;
use std::thread::Threads;
use tileset_json::Layout;

/// Answers the lines of a round (up to 64), and writes their blocks. `first` is the number of the first of them in
/// the input. After an `Err` some front of the blocks was given.
pub(crate) fn run_round<
    R: Threads + Wait + Sync,
    S: FileSource + Send,
    P: Pass<W> + Drop + Send,
    W,
    V: Viewing<P, W, S> + Sync,
    G: Gate + Sync,
    O: Outlet,
>(
    rt: &R,
    alloc: Global,
    scene: &V,
    gate: &G,
    first: u64,
    lines: &[&[u8]],
    desks: &mut [Desk<S, P, W>],
    out: &mut O,
) -> Result<(), GiveFault>
    requires some { 0 < length desks.old }
    requires few { length lines.now ≤ round_lines }
    requires ready { All (IsReady S.told (V.seen scene.now)) desks.old }
    ensures given { OnOk result (IsBatch S.faults P.walked P.whole (V.seen scene.now)
        (map (λ line. line.now) lines.now) desks.old desks.new (O.given out.old) (O.given out.new)) }
    ensures front { IsBatchBegun S.faults (V.seen scene.now) (map (λ line. line.now) lines.now) desks.old desks.new
        (O.given out.old) (O.given out.new) }
    ensures left { AreLeftReady S.told S.faults (V.seen scene.now) desks.old desks.new }
    ensures failed { result ≡ Err GiveFault.WriteFault → Rose (O.faults out.old) (O.faults out.new) }
    ensures later { O.faults out.old ≤ O.faults out.new }
    ensures aside { O.inlet_aside out.new ≡ O.inlet_aside out.old }
{
    answer_lines(rt, alloc, scene, gate, first, lines, desks);
    if lack_memory(desks) {
        return Err(GiveFault::Memory);
    }
    write_blocks(alloc, scene, lines, desks, out)
}

// Answers the lines of a round, each at the desk of its worker. There are as many threads as workers, unless fewer lines
// have a plan; where no thread can be started the work is done in turn.
fn answer_lines<
    R: Threads + Wait + Sync,
    S: FileSource + Send,
    P: Pass<W> + Drop + Send,
    W,
    V: Viewing<P, W, S> + Sync,
    G: Gate + Sync,
>(
    rt: &R,
    alloc: Global,
    scene: &V,
    gate: &G,
    first: u64,
    lines: &[&[u8]],
    desks: &mut [Desk<S, P, W>],
)
    requires some { 0 < length desks.old }
    requires few { length lines.now ≤ round_lines }
    requires ready { All (IsReady S.told (V.seen scene.now)) desks.old }
    ensures count { length desks.new ≡ length desks.old }
    ensures worked { (w : ℕ) (d : _) → w < length desks.old
        → HasWorked S.told S.faults P.walked P.whole (V.seen scene.now) (map (λ line. line.now) lines.now)
        (length desks.old) w (slice_index_or desks.old w d) (slice_index_or desks.new w d) }
{
    let workers = desks.len();
    thread::for_each_mut(
        rt,
        desks,
        threads_for(scene.layout(), lines, workers),
        &|worker, desk: &mut Desk<S, P, W>| {
            work(rt, alloc, scene, gate, workers, first, lines, worker, desk)
        },
    );
}

// How many threads are worth their start: one for each line that has a plan, but no more than workers. Refused lines need
// none.
fn threads_for(layout: &Layout, lines: &[&[u8]], workers: usize) -> usize
    ensures { 0 < result }
{
    let with_plans = lines.iter().filter(|line| read_line(layout, line).is_ok());
    with_plans.take(workers).count().max(1)
}

// Writes the blocks of the replies at the desks, in the order of their lines. After an `Err` some front of them was
// given.
fn write_blocks<S: FileSource, P: Pass<W>, W, V: Viewing<P, W, S>, O: Outlet>(
    alloc: Global,
    scene: &V,
    lines: &[&[u8]],
    desks: &mut [Desk<S, P, W>],
    out: &mut O,
) -> Result<(), GiveFault>
    requires some { 0 < length desks.old }
    requires few { length lines.now ≤ round_lines }
    requires replies { (replies : List Reply)
        × HasReplies (V.seen scene.now) (map (λ line. line.now) lines.now) desks.old replies }
    ensures given { OnOk result ((replies : List Reply)
        × HasReplies (V.seen scene.now) (map (λ line. line.now) lines.now) desks.old replies
        × Appends (O.given out.old) (O.given out.new)
        (flat_map (reply_text (V.seen scene.now).layout) replies)) }
    ensures front { (replies : List Reply)
        × HasReplies (V.seen scene.now) (map (λ line. line.now) lines.now) desks.old replies
        × GivesFront (O.given out.old) (O.given out.new)
        (flat_map (reply_text (V.seen scene.now).layout) replies) }
    ensures left { SameButReplies desks.old desks.new }
    ensures failed { result ≡ Err GiveFault.WriteFault → Rose (O.faults out.old) (O.faults out.new) }
    ensures later { O.faults out.old ≤ O.faults out.new }
    ensures aside { O.inlet_aside out.new ≡ O.inlet_aside out.old }
{
    let workers = desks.len();
    let mut piece = String::new(alloc);
    for place in 0..lines.len() {
        let reply = next_reply(desks, worker_of(workers, place));
        append_reply(scene.layout(), &reply, &mut piece, out)?;
    }
    give_rest(out, &mut piece)
}

// Whether memory was wanting at some desk.
fn lack_memory<S, P, W>(desks: &[Desk<S, P, W>]) -> bool
    ensures { IsFalse result → All (λ desk. desk.lacks_memory ≡ false) desks.now }
{
    desks.iter().any(|desk| desk.lacks_memory)
}

// Takes the first reply from the desk of a worker, where there is one.
fn next_reply<S, P, W>(desks: &mut [Desk<S, P, W>], worker: usize) -> Reply
    requires desk { worker < length desks.old }
    requires some { (d : _) → 0 < length (slice_index_or desks.old worker d).replies }
    ensures first { (d : _) → (slice_index_or desks.old worker d).replies
        ≡ result ∷ (slice_index_or desks.new worker d).replies }
    ensures others { (w : ℕ) (d : _) → w ≢ worker → slice_index_or desks.new w d ≡ slice_index_or desks.old w d }
    ensures left { SameButReplies desks.old desks.new }
{
    let desk = &mut desks[worker];
    let Some(reply) = desk.replies.pop_front() else {
        unreachable!()
    };
    reply
}
