// The command `batch`: the answers to the lines of an input.
ghost use Rattle.std.specs.Prelude.{◌≡◌, ◌≢◌, ◌≤◌, ◌<◌, ◌⊎◌, ℕ, length, slice_index_or, Some, Ok, Err, OnOk, IfSome, IfOk, IfErr};
ghost use Rattle.std.specs.List.{All};
ghost use Rattle.frame_pool.specs.Frames.{most_frames};
ghost use Rattle.implicit_tileset.specs.Scene.{layout_in};
ghost use Rattle.scene_ports.specs.Counts.{Rose, one_more};
ghost use Rattle.input_bytes.specs.Input.{most_input_bytes, IsWhole, IsLong, IsShort};
ghost use Rattle.program_status.specs.Sets.{IsOneOf};
ghost use Rattle.viewer_session.specs.Starts.{HasStarted, HasFaultNumber, IsNewPass};
ghost use Rattle.shared_commands.specs.Batch.{HasAnsweredInput, HasBegunAnswer, HasGivenAll, HasGivenSome, batch_ends, early_ends};
ghost use Rattle.shared_commands.specs.Batch.{ends_over, IsBeforeInput, IsBeforeLines};
ghost use Rattle.shared_commands.specs.Desks.{files_of, IsFree, AreLeftFree, OnlyFirst, HaveLostPasses};

use batch_run::{Desk, NoGate, batch};
use input_bytes::{InputStop, take_input};
use program_status::Status;
use scene_ports::{FileSource, GiveFault, Inlet, Outlet};
use std::alloc::Global;
use std::sync::Wait;
use std::thread::Threads;
use viewer_session::{Scene, StartFault, Started, ViewerPass, Walked};

/// Answers the lines of an input, one worker at each desk, over the scene of the files and so many frames (1 to 1,024).
/// `tileset.json` is fetched once, by the first desk's source; then the input is taken whole; then its lines are
/// answered in rounds, and their blocks given in input order.
pub fn answer_input<R: Threads + Wait + Sync, S: FileSource + Send, I: Inlet, O: Outlet>(
    rt: &R,
    alloc: Global,
    frames: usize,
    desks: &mut [Desk<S, ViewerPass, Walked>],
    input: &mut I,
    out: &mut O,
) -> Status
    requires frames { (1 ≤ frames) × (frames ≤ most_frames) }
    requires desks { (1 ≤ length desks.old) × (length desks.old ≤ 64) }
    requires free { All (IsFree S.told (files_of S.told desks.old)) desks.old }
    ensures answered { result ≡ Status.Done → HasAnsweredInput S.faults (files_of S.told desks.old) desks.old desks.new
        (I.left input.old) (I.left input.new) (O.given out.old) (O.given out.new) }
    ensures layout { IfSome (files_of S.told desks.old) (λ all. IsOneOf (ends_over (layout_in all)) result) }
    ensures ends { IsOneOf batch_ends result }
    ensures untaken { IsBeforeInput result → input.new ≡ input.old }
    ensures unasked { IsBeforeLines result → OnlyFirst (λ before now. S.fetches now ≡ one_more (S.fetches before))
        desks.old desks.new }
    ensures nothing { IsBeforeLines result → out.new ≡ out.old }
    ensures write_fault { result ≡ Status.WriteFault → Rose (O.faults out.old) (O.faults out.new)
        × HasBegunAnswer S.faults (files_of S.told desks.old) desks.old desks.new (I.left input.old) (I.left input.new)
        (O.given out.old) (O.given out.new) }
    ensures memory { result ≡ Status.Memory → (out.new ≡ out.old)
        ⊎ HasBegunAnswer S.faults (files_of S.told desks.old) desks.old desks.new (I.left input.old) (I.left input.new)
        (O.given out.old) (O.given out.new) }
    ensures read_fault { result ≡ Status.ReadFault → OnlyFirst (λ before now. Rose (S.faults before) (S.faults now))
        desks.old desks.new }
    ensures input_fault { result ≡ Status.InputFault → Rose (I.faults input.old) (I.faults input.new) }
    ensures long { result ≡ Status.InputLong → IsLong (I.taken input.old) (I.taken input.new) }
    ensures short { result ≢ Status.InputLong → IsShort (I.taken input.old) (I.taken input.new) }
    ensures left { AreLeftFree S.told S.faults desks.old desks.new }
    ensures later_input { I.faults input.old ≤ I.faults input.new }
    ensures later_out { O.faults out.old ≤ O.faults out.new }
    ensures given_aside { I.given_aside input.new ≡ I.given_aside input.old }
    ensures inlet_aside { O.inlet_aside out.new ≡ O.inlet_aside out.old }
{
    let (started, lines) = match prepare(alloc, frames, desks, input) {
        Ok(prepared) => prepared,
        Err(status) => return status,
    };
    match answer_lines(rt, alloc, started, &lines, desks, out) {
        Ok(()) => Status::Done,
        Err(GiveFault::WriteFault) => Status::WriteFault,
        Err(GiveFault::Memory) => Status::Memory,
    }
}

// Starts the scene of the files, and takes the input whole. The `Err` is the status with which the program ends.
fn prepare<S: FileSource, I: Inlet>(
    alloc: Global,
    frames: usize,
    desks: &mut [Desk<S, ViewerPass, Walked>],
    input: &mut I,
) -> Result<(Started, Vec<u8>), Status>
    requires frames { (1 ≤ frames) × (frames ≤ most_frames) }
    requires desks { (1 ≤ length desks.old) × (length desks.old ≤ 64) }
    ensures told { IfOk result (λ r. r.0.scene.tileset.told ≡ files_of S.told desks.old) }
    ensures layout { IfOk result (λ r. IfSome (files_of S.told desks.old)
        (λ all. layout_in all ≡ Ok r.0.scene.tileset.layout)) }
    ensures passes { IfOk result (λ r. (length r.0.passes.items ≡ length desks.old)
        × All (IsNewPass r.0.scene) r.0.passes.items) }
    ensures whole { IfOk result (λ r. IsWhole (I.left input.old) (I.left input.new) r.1.items
        × (length r.1.items ≤ most_input_bytes)) }
    ensures over { IfErr result (λ status. IfSome (files_of S.told desks.old)
        (λ all. IsOneOf (ends_over (layout_in all)) status)) }
    ensures ends { IfErr result (IsOneOf early_ends) }
    ensures untaken { IfErr result (λ status. IsBeforeInput status → input.new ≡ input.old) }
    ensures asked { OnlyFirst (λ before now. (S.fetches now ≡ one_more (S.fetches before))
        × (S.told now ≡ S.told before) × (S.faults before ≤ S.faults now)) desks.old desks.new }
    ensures read_fault { result ≡ Err Status.ReadFault
        → OnlyFirst (λ before now. Rose (S.faults before) (S.faults now)) desks.old desks.new }
    ensures input_fault { result ≡ Err Status.InputFault → Rose (I.faults input.old) (I.faults input.new) }
    ensures long { result ≡ Err Status.InputLong → IsLong (I.taken input.old) (I.taken input.new) }
    ensures short { result ≢ Err Status.InputLong → IsShort (I.taken input.old) (I.taken input.new) }
    ensures later { I.faults input.old ≤ I.faults input.new }
    ensures aside { I.given_aside input.new ≡ I.given_aside input.old }
{
    let started = match start(alloc, frames, desks) {
        Ok(started) => started,
        Err(StartFault::Layout(number)) => return Err(Status::BadLayout(number)),
        Err(StartFault::ReadFault) => return Err(Status::ReadFault),
        Err(StartFault::Memory) => return Err(Status::Memory),
    };
    match take_input(alloc, input) {
        Ok(bytes) => Ok((started, bytes)),
        Err(InputStop::Failed) => Err(Status::InputFault),
        Err(InputStop::Long) => Err(Status::InputLong),
        Err(InputStop::Memory) => Err(Status::Memory),
    }
}

// Starts the scene of the files, with a pass for each desk.
fn start<S: FileSource>(
    alloc: Global,
    frames: usize,
    desks: &mut [Desk<S, ViewerPass, Walked>],
) -> Result<Started, StartFault>
    requires frames { (1 ≤ frames) × (frames ≤ most_frames) }
    requires desks { (1 ≤ length desks.old) × (length desks.old ≤ 64) }
    ensures started { IfSome (files_of S.told desks.old) (λ all. HasStarted (layout_in all) result) }
    ensures told { IfOk result (λ started. started.scene.tileset.told ≡ files_of S.told desks.old) }
    ensures passes { IfOk result (λ started. (length started.passes.items ≡ length desks.old)
        × All (IsNewPass started.scene) started.passes.items) }
    ensures number { HasFaultNumber result }
    ensures failed { result ≡ Err StartFault.ReadFault → OnlyFirst (λ before now. Rose (S.faults before) (S.faults now))
        desks.old desks.new }
    ensures asked { OnlyFirst (λ before now. (S.fetches now ≡ one_more (S.fetches before))
        × (S.told now ≡ S.told before) × (S.faults before ≤ S.faults now)) desks.old desks.new }
{
    let passes = desks.len();
    Scene::start(alloc, desks[0].source_mut(), passes, frames)
}

// Answers the lines, with the passes put into the desks and taken out again.
fn answer_lines<R: Threads + Wait + Sync, S: FileSource + Send, O: Outlet>(
    rt: &R,
    alloc: Global,
    started: Started,
    input: &[u8],
    desks: &mut [Desk<S, ViewerPass, Walked>],
    out: &mut O,
) -> Result<(), GiveFault>
    requires some { 1 ≤ length desks.old }
    requires free { All (IsFree S.told started.scene.tileset.told) desks.old }
    requires passes { (length started.passes.items ≡ length desks.old)
        × All (IsNewPass started.scene) started.passes.items }
    ensures given { OnOk result (HasGivenAll S.faults started.scene.tileset.told started.scene.tileset.layout input.now
        desks.old desks.new (O.given out.old) (O.given out.new)) }
    ensures front { HasGivenSome S.faults started.scene.tileset.told started.scene.tileset.layout input.now
        desks.old desks.new (O.given out.old) (O.given out.new) }
    ensures left { AreLeftFree S.told S.faults desks.old desks.new }
    ensures failed { result ≡ Err GiveFault.WriteFault → Rose (O.faults out.old) (O.faults out.new) }
    ensures later { O.faults out.old ≤ O.faults out.new }
    ensures aside { O.inlet_aside out.new ≡ O.inlet_aside out.old }
{
    let Started { scene, passes, .. } = started;
    put_passes(passes, desks);
    let answered = batch(rt, alloc, &scene, desks, &NoGate, input, out);
    take_passes(desks);
    answered
}

// Puts a pass into each desk, the first into the first.
fn put_passes<S>(passes: Vec<ViewerPass>, desks: &mut [Desk<S, ViewerPass, Walked>])
    requires count { length passes.items ≡ length desks.old }
    ensures count { length desks.new ≡ length desks.old }
    ensures passes { (w : ℕ) (d : _) (p : _) → w < length desks.old → slice_index_or desks.new w d
        ≡ record (slice_index_or desks.old w d) { pass = Some (slice_index_or passes.items w p) } }
{
    let mut passes = passes;
    while let Some(pass) = passes.pop() {
        let _ = desks[passes.len()].put_pass(pass);
    }
}

// Takes the pass out of each desk.
fn take_passes<S>(desks: &mut [Desk<S, ViewerPass, Walked>])
    ensures { HaveLostPasses desks.old desks.new }
{
    for desk in desks.iter_mut() {
        let _ = desk.take_pass();
    }
}
