// The command `tiles`: answering a request line.
ghost use Rattle.std.specs.Prelude.{◌≡◌, ◌≢◌, ◌≤◌, ◌∷◌, [], Ok, Some, IfSome, drop, map, string_bytes};
ghost use Rattle.std.specs.Io.KnownBytes.{Keeps};
ghost use Rattle.implicit_tiling.specs.Text.{refused_text};
ghost use Rattle.implicit_tileset.specs.Scene.{scene_of};
ghost use Rattle.scene_ports.specs.Counts.{Rose};
ghost use Rattle.request_text.specs.Lines.{line_seen};
ghost use Rattle.walk_laws.specs.Plans.{FitsLayout};
ghost use Rattle.program_status.specs.Sets.{IsOneOf};
ghost use Rattle.commands.specs.Commands.{tiles_asked, IsReadAs};
ghost use Rattle.commands.specs.Replies.{Replies, IsBeforeWriting, reply_in};
ghost use Rattle.commands.specs.Tiles.{line_reply, plan_reply, walk_status, tiles_ends};
ghost use Rattle.commands.specs.Words.{without_dashes};

use crate::layout::fetch_layout;
use crate::program::Asked;
use crate::words::{WordFault, matches_of};
use framed_walk::framed;
use program_status::Status;
use request_text::{Line, line_of, write_answer, write_refusal};
use scene_ports::{FileSource, GiveFault, Outlet};
use std::alloc::Global;
use subtree_outcome::WalkStop;
use tile_coords::{Plan, WalkEnd};
use tileset_json::Layout;

/// The frames that hold decoded subtrees while an answer is walked.
const FRAMES: usize = 4;

/// What `tiles` and the words behind it ask for: LEVEL LO HI.
#[tactic(auto, using(crate::proofs::Given::no_tiles))]
pub(crate) fn read(alloc: Global, words: &[String]) -> Result<Asked, WordFault>
    ensures { IsReadAs (tiles_asked (without_dashes (drop 1 (map string_bytes words.now)))) result }
{
    let matches = matches_of(alloc, "tiles", words)?;
    let Some(values) = matches.get_strs("values") else {
        return Err(WordFault::Usage);
    };
    asked_by(values)
}

// What words ask for, of which there have to be three.
fn asked_by(words: &[&str]) -> Result<Asked, WordFault>
    ensures { IsReadAs (tiles_asked (map (λ word. word.now) words.now)) result }
{
    match words {
        [level, lo, hi] => line_asked(level, lo, hi),
        _ => Err(WordFault::Usage),
    }
}

// What three words ask for.
fn line_asked(level: &str, lo: &str, hi: &str) -> Result<Asked, WordFault>
    ensures { IsReadAs (tiles_asked (level.now ∷ lo.now ∷ hi.now ∷ [])) result }
{
    match line_of(level.as_bytes(), lo.as_bytes(), hi.as_bytes()) {
        Some(line) => Ok(Asked::Tiles { line }),
        None => Err(WordFault::Usage),
    }
}

/// Gives the answer to a request line over the layout of the files, or its refusal.
pub(crate) fn run<S: FileSource, O: Outlet>(
    alloc: Global,
    line: &Line,
    files: &mut S,
    out: &mut O,
) -> Status
    ensures replies { IfSome (reply_in (λ s. line_reply s (line_seen line.now)) (S.told files.old))
        (λ wanted. Replies wanted (O.given out.old) (O.given out.new) result) }
    ensures ends { IsOneOf tiles_ends result }
    ensures nothing { IsBeforeWriting result → Keeps (O.given out.old) (O.given out.new) }
    ensures read_fault { result ≡ Status.ReadFault → Rose (S.faults files.old) (S.faults files.new) }
    ensures write_fault { result ≡ Status.WriteFault → Rose (O.faults out.old) (O.faults out.new) }
    ensures aside { O.inlet_aside out.new ≡ O.inlet_aside out.old }
    ensures same { S.told files.new ≡ S.told files.old }
    ensures later_files { S.faults files.old ≤ S.faults files.new }
    ensures later_out { O.faults out.old ≤ O.faults out.new }
{
    match fetch_layout(alloc, files) {
        Ok(layout) => answer_line(alloc, &layout, line, files, out),
        Err(status) => status,
    }
}

// Gives the answer to a request line, or its refusal.
fn answer_line<S: FileSource, O: Outlet>(
    alloc: Global,
    layout: &Layout,
    line: &Line,
    files: &mut S,
    out: &mut O,
) -> Status
    ensures replies { IfSome (S.told files.old)
        (λ all. Replies (Ok (line_reply (scene_of all layout.now) (line_seen line.now))) (O.given out.old)
        (O.given out.new) result) }
    ensures ends { IsOneOf tiles_ends result }
    ensures nothing { IsBeforeWriting result → Keeps (O.given out.old) (O.given out.new) }
    ensures read_fault { result ≡ Status.ReadFault → Rose (S.faults files.old) (S.faults files.new) }
    ensures write_fault { result ≡ Status.WriteFault → Rose (O.faults out.old) (O.faults out.new) }
    ensures aside { O.inlet_aside out.new ≡ O.inlet_aside out.old }
    ensures same { S.told files.new ≡ S.told files.old }
    ensures later_files { S.faults files.old ≤ S.faults files.new }
    ensures later_out { O.faults out.old ≤ O.faults out.new }
{
    match line.plan(layout) {
        Ok(plan) => answer_plan(alloc, layout, &plan, files, out),
        Err(number) => refuse(alloc, number, out),
    }
}

// Gives the answer for a plan.
fn answer_plan<S: FileSource, O: Outlet>(
    alloc: Global,
    layout: &Layout,
    plan: &Plan,
    files: &mut S,
    out: &mut O,
) -> Status
    requires { FitsLayout layout.now plan.now }
    ensures replies { IfSome (S.told files.old)
        (λ all. Replies (Ok (plan_reply (scene_of all layout.now) (Ok plan.now))) (O.given out.old)
        (O.given out.new) result) }
    ensures ends { IsOneOf tiles_ends result }
    ensures nothing { IsBeforeWriting result → Keeps (O.given out.old) (O.given out.new) }
    ensures read_fault { result ≡ Status.ReadFault → Rose (S.faults files.old) (S.faults files.new) }
    ensures write_fault { result ≡ Status.WriteFault → Rose (O.faults out.old) (O.faults out.new) }
    ensures aside { O.inlet_aside out.new ≡ O.inlet_aside out.old }
    ensures same { S.told files.new ≡ S.told files.old }
    ensures later_files { S.faults files.old ≤ S.faults files.new }
    ensures later_out { O.faults out.old ≤ O.faults out.new }
{
    // The scheme is read so that the limits of the layout are known.
    let _scheme = layout.scheme;
    let mut words = Vec::new(alloc);
    let end = match framed(alloc, files, layout, plan, FRAMES, &mut words) {
        Ok(end) => end,
        Err(WalkStop::ReadFault) => return Status::ReadFault,
        Err(WalkStop::Memory) => return Status::Memory,
    };
    match write_answer(alloc, layout, &words, end, out) {
        Ok(()) => status_of(&end),
        Err(GiveFault::WriteFault) => Status::WriteFault,
        Err(GiveFault::Memory) => Status::Memory,
    }
}

// The status of an answer that was given whole.
fn status_of(end: &WalkEnd) -> Status
    ensures status { result ≡ walk_status end.now }
    ensures ends { IsOneOf tiles_ends result }
    ensures late { ¬ (IsBeforeWriting result) }
    ensures well { (result ≢ Status.ReadFault) × (result ≢ Status.WriteFault) }
{
    match end {
        WalkEnd::Fault { .. } => Status::Faulted,
        WalkEnd::Partial | WalkEnd::Complete | WalkEnd::TooMany => Status::Done,
    }
}

// Gives the refusal of a line.
fn refuse<O: Outlet>(alloc: Global, number: u64, out: &mut O) -> Status
    ensures replies { Replies (Ok (record { status = Status.Usage; text = refused_text number })) (O.given out.old)
        (O.given out.new) result }
    ensures ends { IsOneOf tiles_ends result }
    ensures nothing { IsBeforeWriting result → Keeps (O.given out.old) (O.given out.new) }
    ensures no_read { result ≢ Status.ReadFault }
    ensures write_fault { result ≡ Status.WriteFault → Rose (O.faults out.old) (O.faults out.new) }
    ensures aside { O.inlet_aside out.new ≡ O.inlet_aside out.old }
    ensures later_out { O.faults out.old ≤ O.faults out.new }
{
    match write_refusal(alloc, number, out) {
        Ok(()) => Status::Usage,
        Err(GiveFault::WriteFault) => Status::WriteFault,
        Err(GiveFault::Memory) => Status::Memory,
    }
}
