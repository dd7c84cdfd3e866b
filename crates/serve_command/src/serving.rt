// The serving of a tileset.
ghost use Rattle.std.specs.Prelude.{◌≡◌, ◌≤◌, ◌+◌, length, IfOk, IfSome};
ghost use Rattle.std.specs.List.{All};
ghost use Rattle.frame_pool.specs.Frames.{most_frames};
ghost use Rattle.implicit_tileset.specs.Scene.{layout_in};
ghost use Rattle.program_status.specs.Sets.{IsOneOf};
ghost use Rattle.scene_ports.specs.Counts.{Rose, one_more};
ghost use Rattle.viewer_session.specs.Starts.{IsNewPass};
ghost use Rattle.serve_command.specs.Serving.{AllTell, serve_ends, serve_ends_over};

use http_listener::{listen, serve_all};
use program_status::Status;
use scene_ports::FileSource;
use scene_viewers::SceneViewers;
use std::alloc::{AllocError, Global};
use std::net::{Net, TcpListener, TcpStream};
use std::sync::Wait;
use std::thread::Threads;
use viewer_session::{Scene, StartFault, Started, ViewerPass};

/// Serves the tileset of a source on a port of 127.0.0.1, and isn't meant to return. Each of the sources, 1 to 64, is
/// that of one worker, which serves one connection after the other; `frames`, 1 to 1,024, is how many subtrees are kept
/// for all of them. `tileset.json` is fetched once, from `files`, before the port is asked for. BadLayout, ReadFault
/// and Memory come as the start of the scene says; ListenFault where the port can't be had, or no worker could accept a
/// connection any more.
pub fn serve<
    R: Threads + Wait + Sync + Net<Stream = TcpStream, Listener = TcpListener>,
    S: FileSource + Send + Drop,
>(rt: &R, alloc: Global, files: &mut S, sources: Vec<S>, port: u16, frames: usize) -> Status
    requires workers { (1 ≤ length sources.items) × (length sources.items ≤ 64) }
    requires frames { (1 ≤ frames) × (frames ≤ most_frames) }
    requires told { AllTell S.told (S.told files.old) sources.items }
    ensures ends { IsOneOf serve_ends result }
    ensures layout { IfSome (S.told files.old) (λ all. IsOneOf (serve_ends_over (layout_in all)) result) }
    ensures read_fault { result ≡ Status.ReadFault → Rose (S.faults files.old) (S.faults files.new) }
    ensures asked { S.fetches files.new ≡ one_more (S.fetches files.old) }
    ensures later { S.faults files.old ≤ S.faults files.new }
    ensures same { S.told files.new ≡ S.told files.old }
{
    let Started { scene, passes, .. } = match Scene::start(alloc, files, sources.len(), frames) {
        Ok(started) => started,
        Err(StartFault::Layout(number)) => return Status::BadLayout(number),
        Err(StartFault::ReadFault) => return Status::ReadFault,
        Err(StartFault::Memory) => return Status::Memory,
    };
    let Ok(listener) = listen(rt, port) else {
        return Status::ListenFault;
    };
    match serve_scene(rt, alloc, &scene, passes, sources, &listener) {
        Ok(()) => Status::ListenFault,
        Err(_) => Status::Memory,
    }
}

// Serves the connections of a listener, until none can be accepted any more. Each source is that of a worker, which has
// one of the passes. An error is want of memory, before any connection is served.
fn serve_scene<R: Threads + Wait + Sync, S: FileSource + Send + Drop>(
    rt: &R,
    alloc: Global,
    scene: &Scene,
    passes: Vec<ViewerPass>,
    sources: Vec<S>,
    listener: &TcpListener,
) -> Result<(), AllocError>
    requires some { 1 ≤ length sources.items }
    requires as_many { length passes.items ≡ length sources.items }
    requires passes { All (IsNewPass scene.now) passes.items }
    requires told { AllTell S.told scene.now.tileset.told sources.items }
{
    let mut viewers = make_viewers(rt, alloc, scene, passes, sources)?;
    serve_all(rt, alloc, listener, viewers.as_mut_slice());
    Ok(())
}

// As many viewers of a scene as there are sources.
fn make_viewers<'a, R: Wait, S: FileSource + Drop>(
    rt: &'a R,
    alloc: Global,
    scene: &'a Scene,
    mut passes: Vec<ViewerPass>,
    mut sources: Vec<S>,
) -> Result<Vec<SceneViewers<'a, R, S>>, AllocError>
    requires as_many { length passes.items ≡ length sources.items }
    requires passes { All (IsNewPass scene.now) passes.items }
    requires told { AllTell S.told scene.now.tileset.told sources.items }
    ensures { IfOk result (λ viewers. length viewers.items ≡ length sources.items) }
{
    let count = sources.len();
    let mut viewers = Vec::with_capacity(alloc, count)?;
    for _ in 0..count {
        let next = next_viewers(rt, alloc, scene, &mut passes, &mut sources);
        viewers.push(next)?;
    }
    Ok(viewers)
}

// Viewers with the last pass and the last source.
fn next_viewers<'a, R: Wait, S: FileSource + Drop>(
    rt: &'a R,
    alloc: Global,
    scene: &'a Scene,
    passes: &mut Vec<ViewerPass>,
    sources: &mut Vec<S>,
) -> SceneViewers<'a, R, S>
    requires some { 1 ≤ length sources.old.items }
    requires as_many { length passes.old.items ≡ length sources.old.items }
    requires passes { All (IsNewPass scene.now) passes.old.items }
    requires told { AllTell S.told scene.now.tileset.told sources.old.items }
    ensures fewer { length sources.new.items + 1 ≡ length sources.old.items }
    ensures as_many { length passes.new.items ≡ length sources.new.items }
    ensures passes { All (IsNewPass scene.now) passes.new.items }
    ensures told { AllTell S.told scene.now.tileset.told sources.new.items }
{
    let Some(pass) = passes.pop() else {
        unreachable!()
    };
    let Some(files) = sources.pop() else {
        unreachable!()
    };
    SceneViewers::new(rt, alloc, scene, pass, files)
}
