// A script, played over a source of files.
ghost use Rattle.std.specs.Prelude.{◌≡◌, ◌-◌, ◌^◌, ◌<◌, ◌≤◌, Err, None, OnOk, IfOk, IfSome};
ghost use Rattle.std.specs.List.{All};
ghost use Rattle.implicit_tiling.specs.Code.{IsWord};
ghost use Rattle.implicit_tileset.specs.Scene.{scene_of};
ghost use Rattle.scene_ports.specs.Counts.{Rose};
ghost use Rattle.frame_pool.specs.Frames.{most_frames};
ghost use Rattle.replay_script.specs.Events.{with_read as event_with_read};
ghost use Rattle.replay_script.specs.Replies.{reply_words};
ghost use Rattle.replay_core.specs.Core.{IsCoreOf, AsksFor};
ghost use Rattle.replay_run.specs.Plays.{IsPlay, IsPlayBegun};
ghost use Rattle.replay_run.specs.Taken.{IsRead, IsTaken, key_read};

use replay_core::Core;
use replay_script::{Event, Reply, next_event, write_reply};
use scene_ports::{FileSource, GiveFault, Outlet, give_rest};
use std::alloc::{AllocError, Global};
use subtree_outcome::{Outcome, WalkStop, read_subtree, root_tile};
use tileset_json::Layout;

/// Plays the lines of an input as a script, over this many empty frames (1 to 1,024) and passes (below 2^32 - 1), and
/// gives the text of each reply. A load of a pass that is loading reads the file of its root, and those of its buffers;
/// where the source fails, its reply is `failed` and the script goes on. WriteFault comes only where the outlet has
/// counted a fault, and Memory for want of memory; after both some front of the text was given.
pub fn play<S: FileSource, O: Outlet>(
    alloc: Global,
    layout: &Layout,
    frames: usize,
    passes: usize,
    input: &[u8],
    files: &mut S,
    out: &mut O,
) -> Result<(), GiveFault>
    requires frames { (1 ≤ frames) × (frames ≤ most_frames) }
    requires passes { passes < 2 ^ 32 - 1 }
    ensures given { IfSome (S.told files.old) (λ all. OnOk result (IsPlay (scene_of all layout.now) frames passes
        input.now (S.faults files.old) (S.faults files.new) (O.given out.old) (O.given out.new))) }
    ensures front { IfSome (S.told files.old) (λ all. IsPlayBegun (scene_of all layout.now) frames passes
        input.now (S.faults files.old) (S.faults files.new) (O.given out.old) (O.given out.new)) }
    ensures failed { result ≡ Err GiveFault.WriteFault → Rose (O.faults out.old) (O.faults out.new) }
    ensures later_files { S.faults files.old ≤ S.faults files.new }
    ensures later { O.faults out.old ≤ O.faults out.new }
    ensures aside { O.inlet_aside out.new ≡ O.inlet_aside out.old }
    ensures same { S.told files.new ≡ S.told files.old }
{
    // The scheme is read so that the limits of the layout are known.
    let _scheme = layout.scheme;
    let mut core = Core::new(alloc, frames, passes)?;
    let mut piece = String::new(alloc);
    let mut rest = input;
    while let Some((event, behind)) = next_event(layout, rest) {
        let reply = take_turn(alloc, layout, event, &mut core, files)?;
        write_reply(layout, &reply, &mut piece, out)?;
        rest = behind;
    }
    give_rest(out, &mut piece)
}

// Does what an event asks for. A load reads the file of the root that its pass is loading.
fn take_turn<S: FileSource>(
    alloc: Global,
    layout: &Layout,
    event: Event<()>,
    core: &mut Core,
    files: &mut S,
) -> Result<Reply, AllocError>
    requires core { IsCoreOf layout.now core.old }
    requires plan { AsksFor layout.now (event_with_read event None) }
    ensures core { IfOk result (λ reply. IsCoreOf layout.now core.new) }
    ensures words { IfOk result (λ reply. All (IsWord layout.now.scheme) (reply_words reply)) }
    ensures taken { IfSome (S.told files.old) (λ all. IfOk result (λ reply. IsTaken (scene_of all layout.now) event
        (S.faults files.old) (S.faults files.new) core.old reply core.new)) }
    ensures later { S.faults files.old ≤ S.faults files.new }
    ensures same { S.told files.new ≡ S.told files.old }
{
    let read = read_wanted(alloc, layout, &event, core, files)?;
    core.step(alloc, layout, event.with_read(read))
}

// Reads the file of the root that the pass of a load is loading. None for any other event, for a pass that loads
// nothing, and where the source fails.
fn read_wanted<S: FileSource>(
    alloc: Global,
    layout: &Layout,
    event: &Event<()>,
    core: &Core,
    files: &mut S,
) -> Result<Option<Outcome>, AllocError>
    requires core { IsCoreOf layout.now core.now }
    ensures read { IfOk result (IsRead layout.now (S.told files.old) (key_read core.now event.now)
        (S.faults files.old) (S.faults files.new)) }
    ensures later { S.faults files.old ≤ S.faults files.new }
    ensures same { S.told files.new ≡ S.told files.old }
{
    let Event::Load { pass, .. } = event else {
        return Ok(None);
    };
    let Some(key) = core.wanted(layout, *pass) else {
        return Ok(None);
    };
    match read_subtree(alloc, files, layout, root_tile(layout, key)) {
        Ok(found) => Ok(Some(found)),
        Err(WalkStop::ReadFault) => Ok(None),
        Err(WalkStop::Memory) => Err(AllocError),
    }
}
