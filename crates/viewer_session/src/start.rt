// The start of a scene.
ghost use Rattle.std.specs.Prelude.{◌≡◌, ◌≢◌, ◌+◌, ◌<◌, ◌≤◌, [], length, Err, IfOk, IfSome};
ghost use Rattle.std.specs.List.{All};
ghost use Rattle.frame_pool.specs.Frames.{most_frames};
ghost use Rattle.implicit_tileset.specs.Scene.{layout_in};
ghost use Rattle.scene_ports.specs.Counts.{Rose, one_more};
ghost use Rattle.turn_lock.specs.Seats.{fresh};
ghost use Rattle.shared_pool.specs.Seen.{first_note};
ghost use Rattle.scene_frames.specs.Held.{IsOfScene};
ghost use Rattle.viewer_session.specs.Sessions.{IsHostOf};
ghost use Rattle.viewer_session.specs.Starts.{HasStarted, HasLayout, HasFaultNumber, IsNewPass};

use crate::host::SceneHost;
use crate::pass::ViewerPass;
use crate::scene::Scene;
use crate::walks::SceneWalks;
use contract_tokens::{Log, Tells, Told};
use plan_registry::{Registry, RegistrySeat};
use scene_ports::{Fetch, FileSource, MOST_FILE_BYTES};
use std::alloc::{AllocError, Global};
use std::marker::Brand;
use tileset_json::{Layout, LayoutFault};
use walk_course::{PlanWalk, WalkScene};

// The faults of `tileset.json` that a fetch shows (this project's own).
const MISSING: u64 = 1;

const TOO_LONG: u64 = 2;

/// A scene, the host of its frames, and as many passes as were wanted.
#[derive(Drop)]
pub struct Started {
    pub scene: Scene,
    pub host: SceneHost,
    pub passes: Vec<ViewerPass>,
}

/// Why a scene doesn't start.
#[derive(Clone, Copy, Debug, PartialEq, Eq)]
pub enum StartFault {
    /// The number of the first fault of `tileset.json`.
    Layout(u64),
    /// The source failed, and has counted a fault.
    ReadFault,
    /// There was no memory.
    Memory,
}

impl From<AllocError> for StartFault {
    ghost use Rattle.std.specs.Prelude.{◌≡◌};
    ghost use Rattle.viewer_session.specs.declared.start.StartFault.TheVariants.{Memory};

    ghost from_gives = { λ _ fault. fault ≡ Memory };

    fn from(_: AllocError) -> StartFault {
        StartFault::Memory
    }
}

impl Scene {
    /// The scene of the files of a source, by one fetch of `tileset.json`, with so many passes (1 to 64) over so many
    /// frames (1 to 1,024). ReadFault comes only where the source has counted a fault.
    pub fn start<S: FileSource>(
        alloc: Global,
        files: &mut S,
        passes: usize,
        frames: usize,
    ) -> Result<Started, StartFault>
        requires passes { (1 ≤ passes) × (passes ≤ 64) }
        requires frames { (1 ≤ frames) × (frames ≤ most_frames) }
        ensures started { IfSome (S.told files.old) (λ all. HasStarted (layout_in all) result) }
        ensures number { HasFaultNumber result }
        ensures told { IfOk result (λ started. started.scene.tileset.told ≡ S.told files.old) }
        ensures sizes { IfOk result (λ started. (started.host.tag.passes ≡ passes)
            × (started.host.tag.frames ≡ frames) × (started.host.note.granted ≡ [])) }
        ensures host { IfOk result (λ started. IsHostOf started.scene started.host) }
        ensures passes { IfOk result (λ started. (length started.passes.items ≡ passes)
            × All (IsNewPass started.scene) started.passes.items) }
        ensures failed { result ≡ Err StartFault.ReadFault → Rose (S.faults files.old) (S.faults files.new) }
        ensures sure { result ≢ Err StartFault.ReadFault → S.faults files.new ≡ S.faults files.old }
        ensures later { S.faults files.old ≤ S.faults files.new }
        ensures fetched { S.fetches files.new ≡ one_more (S.fetches files.old) }
        ensures same { S.told files.new ≡ S.told files.old }
    {
        let layout = fetch_layout(alloc, files)?;
        Ok(open(alloc, files, layout, passes, frames)?)
    }
}

// Fetches `tileset.json` and reads the layout.
fn fetch_layout<S: FileSource>(alloc: Global, files: &mut S) -> Result<Layout, StartFault>
    ensures layout { IfSome (S.told files.old) (λ all. HasLayout (layout_in all) result) }
    ensures number { HasFaultNumber result }
    ensures failed { result ≡ Err StartFault.ReadFault → Rose (S.faults files.old) (S.faults files.new) }
    ensures sure { result ≢ Err StartFault.ReadFault → S.faults files.new ≡ S.faults files.old }
    ensures later { S.faults files.old ≤ S.faults files.new }
    ensures fetched { S.fetches files.new ≡ one_more (S.fetches files.old) }
    ensures same { S.told files.new ≡ S.told files.old }
{
    let mut bytes = Vec::new(alloc);
    match files.fetch("tileset.json", MOST_FILE_BYTES, &mut bytes) {
        Fetch::Whole => {}
        Fetch::Missing => return Err(StartFault::Layout(MISSING)),
        Fetch::TooLong => return Err(StartFault::Layout(TOO_LONG)),
        Fetch::Failed => return Err(StartFault::ReadFault),
        Fetch::Memory => return Err(StartFault::Memory),
    }
    match Layout::read(alloc, &bytes) {
        Ok(layout) => Ok(layout),
        Err(LayoutFault::Number(number)) => Err(StartFault::Layout(number)),
        Err(LayoutFault::Memory) => Err(StartFault::Memory),
    }
}

// The scene of a layout that was read from the files.
fn open<S: FileSource>(
    alloc: Global,
    files: &S,
    layout: Layout,
    passes: usize,
    frames: usize,
) -> Result<Started, AllocError>
    requires passes { (1 ≤ passes) × (passes ≤ 64) }
    requires frames { (1 ≤ frames) × (frames ≤ most_frames) }
    ensures layout { IfOk result (λ started. started.scene.tileset.layout ≡ layout) }
    ensures told { IfOk result (λ started. started.scene.tileset.told ≡ S.told files.now) }
    ensures sizes { IfOk result (λ started. (started.host.tag.passes ≡ passes)
        × (started.host.tag.frames ≡ frames) × (started.host.note.granted ≡ [])) }
    ensures host { IfOk result (λ started. IsHostOf started.scene started.host) }
    ensures passes { IfOk result (λ started. (length started.passes.items ≡ passes)
        × All (IsNewPass started.scene) started.passes.items) }
{
    let host = SceneHost {
        frames: scene_frames::start(alloc, files, &layout, passes, frames)?,
    };
    let (scene, mut seat) = opened::<S, Brand, Brand>(alloc, files, layout, &host)?;
    hand_out(alloc, scene, host, &mut seat, passes)
}

// `J` tells what the walks have in common, and `H` the host of the frames.
fn opened<S: FileSource, J: Tells<WalkScene>, H: Tells<SceneHost>>(
    alloc: Global,
    files: &S,
    layout: Layout,
    host: &SceneHost,
) -> Result<(Scene, RegistrySeat<PlanWalk>), AllocError>
    requires told { (J.told.told ≡ S.told files.now) × (J.told.layout ≡ layout) }
    requires host { H.told ≡ host.now }
    requires frames { IsOfScene layout (S.told files.now) host.now.tag }
    ensures layout { IfOk result (λ r. (r.0.tileset.layout ≡ layout) × (r.0.tileset.told ≡ S.told files.now)
        × (r.0.frames ≡ host.now)) }
    ensures seat { IfOk result (λ r. r.1 ≡ fresh r.0.registry r.0.tileset tt) }
{
    let _ = files;
    let _ = host;
    let (registry, seat) = Registry::<PlanWalk>::new::<J>(alloc)?;
    let walks = SceneWalks {
        alloc,
        layout,
        scene: Told::of::<J>(),
    };
    let scene = Scene {
        walks,
        registry,
        frames: Told::of::<H>(),
    };
    Ok((scene, seat))
}

// The scene with all its passes.
#[tactic(auto, using(crate::proofs::Passes::pass_added))]
fn hand_out(
    alloc: Global,
    scene: Scene,
    mut host: SceneHost,
    seat: &mut RegistrySeat<PlanWalk>,
    count: usize,
) -> Result<Started, AllocError>
    requires seat { seat.old ≡ fresh scene.registry scene.tileset tt }
    requires own { IsHostOf scene host }
    requires all { (host.next ≡ 0) × (host.note ≡ first_note count) × (host.tag.passes ≡ count) }
    ensures scene { IfOk result (λ started. started.scene ≡ scene) }
    ensures host { IfOk result (λ started. IsHostOf scene started.host × (started.host.note.granted ≡ [])) }
    ensures passes { IfOk result (λ started. (length started.passes.items ≡ count)
        × All (IsNewPass scene) started.passes.items) }
{
    let mut passes = Vec::with_capacity(alloc, count)?;
    for _ in 0..count {
        let pass = next_pass(&scene, &mut host, seat);
        passes.push(pass)?;
    }
    Ok(Started {
        scene,
        host,
        passes,
    })
}

// The pass of the next number.
fn next_pass(scene: &Scene, host: &mut SceneHost, seat: &mut RegistrySeat<PlanWalk>) -> ViewerPass
    requires seat { seat.old ≡ fresh scene.now.registry scene.now.tileset tt }
    requires own { IsHostOf scene.now host.old }
    requires some { host.old.next < host.old.tag.passes }
    ensures pass { IsNewPass scene.now result }
    ensures seat { seat.new ≡ seat.old }
    ensures left { host.new ≡ record host.old { next = host.old.next + 1; note = host.new.note } }
    ensures numbers { length host.old.note.granted ≡ length host.new.note.granted + 1 }
{
    let Some(frames) = host.frames.pass() else {
        unreachable!()
    };
    ViewerPass {
        frames,
        walks: scene.registry.split(seat),
        walked: Log::empty(),
    }
}
