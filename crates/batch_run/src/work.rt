// The work of one worker.
ghost use Rattle.std.specs.Prelude.{◌≡◌, ◌≤◌, ◌<◌, ℕ, [], ◌∷◌, map, length, IfOk, IfSome, IfNone};
ghost use Rattle.batch_blocks.specs.Replies.{block_of, blocks_of, IsReplyTo, IsReplyToPlan, AreRepliesTo};
ghost use Rattle.batch_blocks.specs.Workers.{of_worker, round_lines};
ghost use Rattle.tileset_json.specs.Limits.{IsWithinLimits};
ghost use Rattle.walk_laws.specs.Plans.{FitsLayout};
ghost use Rattle.batch_blocks.specs.Blocks.{plan_in};
ghost use Rattle.batch_run.specs.Batches.{HasAnswered, HasAnsweredPlan, HasWorked};
ghost use Rattle.batch_run.specs.Desks.{IsReady};

use crate::desk::Desk;
use crate::gate::Gate;
use crate::viewing::{AnswerStop, Pass, Viewing};
use batch_blocks::{Reply, worker_of};
use request_text::parse_line;
use scene_ports::FileSource;
use std::alloc::{AllocError, Global};
use std::collections::VecDeque;
use std::hint::spin_loop;
use std::sync::Wait;
use std::thread;
use tile_coords::Plan;
use tileset_json::Layout;

// How often a thread spins before it yields, where every frame is pinned.
const SPINS: u32 = 100;

/// Answers the lines of a worker, in order, at its desk. Where memory is wanting the desk says so, and its lines from
/// there on have no replies.
pub(crate) fn work<R: Wait, S: FileSource, P: Pass<W> + Drop, W, V: Viewing<P, W, S>, G: Gate>(
    rt: &R,
    alloc: Global,
    scene: &V,
    gate: &G,
    workers: usize,
    first: u64,
    lines: &[&[u8]],
    worker: usize,
    desk: &mut Desk<S, P, W>,
)
    requires place { worker < workers }
    requires few { length lines.now ≤ round_lines }
    requires ready { IsReady S.told (V.seen scene.now) desk.old }
    ensures { HasWorked S.told S.faults P.walked P.whole (V.seen scene.now) (map (λ line. line.now) lines.now)
        workers worker desk.old desk.new }
{
    let Some(mut pass) = desk.pass.take() else {
        return;
    };
    desk.replies.clear();
    let answered = answer_lines(
        rt,
        alloc,
        scene,
        gate,
        workers,
        first,
        lines,
        worker,
        &mut pass,
        &mut desk.source,
        &mut desk.replies,
    );
    desk.pass = Some(pass);
    desk.lacks_memory = answered.is_err();
}

// Answers the lines of a worker, in order. The one error is want of memory.
fn answer_lines<R: Wait, S: FileSource, P: Pass<W>, W, V: Viewing<P, W, S>, G: Gate>(
    rt: &R,
    alloc: Global,
    scene: &V,
    gate: &G,
    workers: usize,
    first: u64,
    lines: &[&[u8]],
    worker: usize,
    pass: &mut P,
    source: &mut S,
    replies: &mut VecDeque<Reply>,
) -> Result<(), AllocError>
    requires place { worker < workers }
    requires few { length lines.now ≤ round_lines }
    requires pass { (V.seen scene.now).is_pass pass.old }
    requires told { S.told source.old ≡ (V.seen scene.now).told }
    requires empty { replies.old.items ≡ [] }
    ensures replies { IfOk result (λ u. AreRepliesTo (V.seen scene.now).told (V.seen scene.now).layout
        (of_worker workers worker 0 (map (λ line. line.now) lines.now)) replies.new.items) }
    ensures answered { IfOk result (λ u. HasAnswered P.whole (V.seen scene.now).layout
        (blocks_of (V.seen scene.now).layout (of_worker workers worker 0 (map (λ line. line.now) lines.now))
        replies.new.items) (S.faults source.old) (S.faults source.new) (P.walked pass.old) (P.walked pass.new)) }
    ensures later { S.faults source.old ≤ S.faults source.new }
    ensures told { S.told source.new ≡ S.told source.old }
    ensures pass { (V.seen scene.now).is_pass pass.new }
{
    for (place, line) in lines.iter().enumerate() {
        if worker_of(workers, place) == worker {
            let number = first.saturating_add(place as u64);
            gate.before(number);
            let reply = answer_line(rt, alloc, scene, line, pass, source)?;
            gate.after(number);
            replies.push_back(reply)?;
        }
    }
    Ok(())
}

// Answers a line: its refusal, or the answer to its plan. The one error is want of memory.
fn answer_line<R: Wait, S: FileSource, P: Pass<W>, W, V: Viewing<P, W, S>>(
    rt: &R,
    alloc: Global,
    scene: &V,
    line: &[u8],
    pass: &mut P,
    source: &mut S,
) -> Result<Reply, AllocError>
    requires pass { (V.seen scene.now).is_pass pass.old }
    requires told { S.told source.old ≡ (V.seen scene.now).told }
    ensures reply { IfOk result (IsReplyTo (V.seen scene.now).told (V.seen scene.now).layout line.now) }
    ensures answered { IfOk result (λ reply. HasAnswered P.whole (V.seen scene.now).layout
        (block_of (V.seen scene.now).layout line.now reply ∷ []) (S.faults source.old) (S.faults source.new)
        (P.walked pass.old) (P.walked pass.new)) }
    ensures later { S.faults source.old ≤ S.faults source.new }
    ensures told { S.told source.new ≡ S.told source.old }
    ensures pass { (V.seen scene.now).is_pass pass.new }
{
    match read_line(scene.layout(), line) {
        Ok(plan) => answer_plan(rt, alloc, scene, plan, pass, source),
        Err(number) => Ok(Reply::Refused(number)),
    }
}

/// The plan of a line over a layout, or the number of the first rule that refuses it.
pub(crate) fn read_line(layout: &Layout, line: &[u8]) -> Result<Plan, u64>
    ensures read { result ≡ plan_in layout.now line.now }
    ensures fits { IfOk result (FitsLayout layout.now) }
    ensures within { IsWithinLimits layout.now }
{
    // The scheme is read so that the limits of the layout are known.
    let _scheme = layout.scheme;
    parse_line(layout, line)
}

// Answers a plan. Where every frame is pinned it asks again, as often as that comes. The one error is want of memory.
fn answer_plan<R: Wait, S: FileSource, P: Pass<W>, W, V: Viewing<P, W, S>>(
    rt: &R,
    alloc: Global,
    scene: &V,
    plan: Plan,
    pass: &mut P,
    source: &mut S,
) -> Result<Reply, AllocError>
    requires plan { FitsLayout (V.seen scene.now).layout plan }
    requires pass { (V.seen scene.now).is_pass pass.old }
    requires told { S.told source.old ≡ (V.seen scene.now).told }
    ensures reply { IfOk result (IsReplyToPlan (V.seen scene.now).told (V.seen scene.now).layout plan) }
    ensures answered { IfOk result (HasAnsweredPlan P.whole plan (S.faults source.old) (S.faults source.new)
        (P.walked pass.old) (P.walked pass.new)) }
    ensures later { S.faults source.old ≤ S.faults source.new }
    ensures told { S.told source.new ≡ S.told source.old }
    ensures pass { (V.seen scene.now).is_pass pass.new }
{
    for _ in rt.forever() {
        let asked = ask(rt, alloc, scene, plan, pass, source)?;
        if let Some(reply) = asked {
            return Ok(reply);
        }
        wait_briefly();
    }
    unreachable!()
}

// Asks once for the answer to a plan. None where every frame is pinned.
fn ask<R: Wait, S: FileSource, P: Pass<W>, W, V: Viewing<P, W, S>>(
    rt: &R,
    alloc: Global,
    scene: &V,
    plan: Plan,
    pass: &mut P,
    source: &mut S,
) -> Result<Option<Reply>, AllocError>
    requires plan { FitsLayout (V.seen scene.now).layout plan }
    requires pass { (V.seen scene.now).is_pass pass.old }
    requires told { S.told source.old ≡ (V.seen scene.now).told }
    ensures reply { IfOk result (λ found. IfSome found (IsReplyToPlan (V.seen scene.now).told
        (V.seen scene.now).layout plan)) }
    ensures answered { IfOk result (λ found. IfSome found (HasAnsweredPlan P.whole plan (S.faults source.old)
        (S.faults source.new) (P.walked pass.old) (P.walked pass.new))) }
    ensures busy { IfOk result (λ found. IfNone found (((P.walked pass.new) ≡ (P.walked pass.old))
        × (S.faults source.new ≡ S.faults source.old))) }
    ensures later { S.faults source.old ≤ S.faults source.new }
    ensures told { S.told source.new ≡ S.told source.old }
    ensures pass { (V.seen scene.now).is_pass pass.new }
{
    let mut words = Vec::new(alloc);
    match scene.answer(rt, pass, plan, source, &mut words) {
        Ok(end) => Ok(Some(Reply::Whole { end, words })),
        Err(AnswerStop::ReadFault) => Ok(Some(Reply::ReadFault)),
        Err(AnswerStop::Busy) => Ok(None),
        Err(AnswerStop::Memory) => Err(AllocError),
    }
}

fn wait_briefly() {
    for _ in 0..SPINS {
        spin_loop();
    }
    thread::yield_now();
}
