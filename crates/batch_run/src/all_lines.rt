// All lines of an input.
ghost use Rattle.std.specs.Prelude.{◌≡◌, ◌≤◌, ◌<◌, length, Err, OnOk};
ghost use Rattle.std.specs.List.{All};
ghost use Rattle.request_text.specs.Input.{input_lines};
ghost use Rattle.scene_ports.specs.Counts.{Rose};
ghost use Rattle.batch_run.specs.Batches.{IsBatch, IsBatchBegun, AreLeftReady};
ghost use Rattle.batch_run.specs.Desks.{IsReady};

use crate::desk::Desk;
use crate::gate::Gate;
use crate::round::run_round;
use crate::viewing::{Pass, Viewing};
use batch_blocks::next_round;
use scene_ports::{FileSource, GiveFault, Outlet};
use std::alloc::Global;
use std::sync::Wait;
use std::thread::Threads;

/// Answers the lines of an input and writes one block for each, in input order, and nothing else. The lines are taken
/// in rounds of 64; in a round worker w of W has the lines w, w + W and so on, and works at desk w alone, in a thread
/// of its own. Where every frame is pinned a worker asks again. Each desk keeps its pass. WriteFault comes only where
/// the outlet has counted a fault, and Memory for want of memory; after both some front of such blocks was given.
pub fn batch<
    R: Threads + Wait + Sync,
    S: FileSource + Send,
    P: Pass<W> + Drop + Send,
    W,
    V: Viewing<P, W, S> + Sync,
    G: Gate + Sync,
    O: Outlet,
>(
    rt: &R,
    alloc: Global,
    scene: &V,
    desks: &mut [Desk<S, P, W>],
    gate: &G,
    input: &[u8],
    out: &mut O,
) -> Result<(), GiveFault>
    requires some { 0 < length desks.old }
    requires ready { All (IsReady S.told (V.seen scene.now)) desks.old }
    ensures given { OnOk result (IsBatch S.faults P.walked P.whole (V.seen scene.now) (input_lines input.now)
        desks.old desks.new (O.given out.old) (O.given out.new)) }
    ensures front { IsBatchBegun S.faults (V.seen scene.now) (input_lines input.now) desks.old desks.new
        (O.given out.old) (O.given out.new) }
    ensures left { AreLeftReady S.told S.faults (V.seen scene.now) desks.old desks.new }
    ensures failed { result ≡ Err GiveFault.WriteFault → Rose (O.faults out.old) (O.faults out.new) }
    ensures later { O.faults out.old ≤ O.faults out.new }
    ensures aside { O.inlet_aside out.new ≡ O.inlet_aside out.old }
{
    let mut rest = input;
    let mut first = 0u64;
    loop {
        let (lines, behind) = next_round(alloc, rest)?;
        if lines.is_empty() {
            return Ok(());
        }
        run_round(rt, alloc, scene, gate, first, &lines, desks, out)?;
        first = first.saturating_add(lines.len() as u64);
        rest = behind;
    }
}
