// The command `replay`: the replies to a script.
ghost use Rattle.std.specs.Prelude.{◌≡◌, ◌≢◌, ◌≤◌, ◌<◌, ◌-◌, ◌^◌, drop, map, option_map, string_bytes, IfSome};
ghost use Rattle.std.specs.Io.KnownBytes.{Keeps};
ghost use Rattle.implicit_tileset.specs.Scene.{scene_of};
ghost use Rattle.scene_ports.specs.Counts.{Rose};
ghost use Rattle.frame_pool.specs.Frames.{most_frames};
ghost use Rattle.input_bytes.specs.Input.{IsLong, IsShort};
ghost use Rattle.program_status.specs.Sets.{IsOneOf};
ghost use Rattle.commands.specs.Commands.{asked_seen, replay_asked, IsReadAs};
ghost use Rattle.commands.specs.Replay.{Plays, GivesPlay, replay_ends};
ghost use Rattle.commands.specs.Replies.{IsBeforeWriting};
ghost use Rattle.commands.specs.Words.{without_dashes};

use crate::layout::fetch_layout;
use crate::numbers::{read_frames, read_seats};
use crate::program::Asked;
use crate::words::{WordFault, matches_of};
use input_bytes::{InputStop, take_input};
use program_status::Status;
use replay_run::play;
use scene_ports::{FileSource, GiveFault, Inlet, Outlet};
use std::alloc::Global;
use tileset_json::Layout;

/// What `replay` and the words behind it ask for: FRAMES PASSES.
#[tactic(auto, using(crate::proofs::Counted::no_replay))]
pub(crate) fn read(alloc: Global, words: &[String]) -> Result<Asked, WordFault>
    ensures { IsReadAs (replay_asked (without_dashes (drop 1 (map string_bytes words.now)))) result }
{
    let matches = matches_of(alloc, "replay", words)?;
    let Some(values) = matches.get_strs("values") else {
        return Err(WordFault::Usage);
    };
    asked_by(values).ok_or(WordFault::Usage)
}

// What words ask for, of which there have to be two.
fn asked_by(words: &[&str]) -> Option<Asked>
    ensures { option_map asked_seen result ≡ replay_asked (map (λ word. word.now) words.now) }
{
    match words {
        [frames, passes] => Some(Asked::Replay {
            frames: read_frames(frames)?,
            passes: read_seats(passes)?,
        }),
        _ => None,
    }
}

/// Gives the replies to the script of the input, over the layout of the files, with this many frames and passes. The
/// input is taken whole before the first line is looked at.
pub(crate) fn run<S: FileSource, I: Inlet, O: Outlet>(
    alloc: Global,
    frames: u32,
    passes: u32,
    files: &mut S,
    input: &mut I,
    out: &mut O,
) -> Status
    requires frames { (1 ≤ frames) × (frames ≤ most_frames) }
    requires passes { passes < 2 ^ 32 - 1 }
    ensures plays { Plays frames passes (S.told files.old) (I.left input.old) (I.left input.new) (O.given out.old)
        (O.given out.new) (S.faults files.old) (S.faults files.new) result }
    ensures ends { IsOneOf replay_ends result }
    ensures nothing { IsBeforeWriting result → Keeps (O.given out.old) (O.given out.new) }
    ensures read_fault { result ≡ Status.ReadFault → Rose (S.faults files.old) (S.faults files.new)
        × (input.new ≡ input.old) }
    ensures input_fault { result ≡ Status.InputFault → Rose (I.faults input.old) (I.faults input.new) }
    ensures write_fault { result ≡ Status.WriteFault → Rose (O.faults out.old) (O.faults out.new) }
    ensures long { result ≡ Status.InputLong → IsLong (I.taken input.old) (I.taken input.new) }
    ensures short { result ≢ Status.InputLong → IsShort (I.taken input.old) (I.taken input.new) }
    ensures aside { O.inlet_aside out.new ≡ O.inlet_aside out.old }
    ensures given_aside { I.given_aside input.new ≡ I.given_aside input.old }
    ensures same { S.told files.new ≡ S.told files.old }
    ensures later_files { S.faults files.old ≤ S.faults files.new }
    ensures later_input { I.faults input.old ≤ I.faults input.new }
    ensures later_out { O.faults out.old ≤ O.faults out.new }
{
    match fetch_layout(alloc, files) {
        Ok(layout) => play_input(alloc, &layout, frames, passes, files, input, out),
        Err(status) => status,
    }
}

// The same over a layout.
fn play_input<S: FileSource, I: Inlet, O: Outlet>(
    alloc: Global,
    layout: &Layout,
    frames: u32,
    passes: u32,
    files: &mut S,
    input: &mut I,
    out: &mut O,
) -> Status
    requires frames { (1 ≤ frames) × (frames ≤ most_frames) }
    requires passes { passes < 2 ^ 32 - 1 }
    ensures plays { IfSome (S.told files.old) (λ all. GivesPlay (scene_of all layout.now) frames passes (I.left input.old)
        (I.left input.new) (O.given out.old) (O.given out.new) (S.faults files.old) (S.faults files.new) result) }
    ensures ends { IsOneOf replay_ends result }
    ensures nothing { IsBeforeWriting result → Keeps (O.given out.old) (O.given out.new) }
    ensures read_fault { result ≢ Status.ReadFault }
    ensures input_fault { result ≡ Status.InputFault → Rose (I.faults input.old) (I.faults input.new) }
    ensures write_fault { result ≡ Status.WriteFault → Rose (O.faults out.old) (O.faults out.new) }
    ensures long { result ≡ Status.InputLong → IsLong (I.taken input.old) (I.taken input.new) }
    ensures short { result ≢ Status.InputLong → IsShort (I.taken input.old) (I.taken input.new) }
    ensures aside { O.inlet_aside out.new ≡ O.inlet_aside out.old }
    ensures given_aside { I.given_aside input.new ≡ I.given_aside input.old }
    ensures same { S.told files.new ≡ S.told files.old }
    ensures later_files { S.faults files.old ≤ S.faults files.new }
    ensures later_input { I.faults input.old ≤ I.faults input.new }
    ensures later_out { O.faults out.old ≤ O.faults out.new }
{
    let bytes = match take_input(alloc, input) {
        Ok(bytes) => bytes,
        Err(InputStop::Failed) => return Status::InputFault,
        Err(InputStop::Long) => return Status::InputLong,
        Err(InputStop::Memory) => return Status::Memory,
    };
    match play(
        alloc,
        layout,
        frames as usize,
        passes as usize,
        &bytes,
        files,
        out,
    ) {
        Ok(()) => Status::Done,
        Err(GiveFault::WriteFault) => Status::WriteFault,
        Err(GiveFault::Memory) => Status::Memory,
    }
}
