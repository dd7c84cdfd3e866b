// The command `check`: the faults of all subtree files.
ghost use Rattle.std.specs.Prelude.{◌≡◌, ◌≢◌, ◌≤◌, Ok, IfSome, drop, map, string_bytes, if◌then◌else◌};
ghost use Rattle.std.specs.Io.KnownBytes.{Keeps};
ghost use Rattle.implicit_tileset.specs.Scene.{scene_of};
ghost use Rattle.scene_ports.specs.Counts.{Rose};
ghost use Rattle.program_status.specs.Sets.{IsOneOf};
ghost use Rattle.commands.specs.Commands.{check_asked, IsReadAs};
ghost use Rattle.commands.specs.Replies.{Replies, IsBeforeWriting, reply_in};
ghost use Rattle.commands.specs.Check.{check_reply, check_ends};
ghost use Rattle.commands.specs.Words.{without_dashes};

use crate::layout::fetch_layout;
use crate::program::Asked;
use crate::words::{WordFault, matches_of};
use program_status::Status;
use request_text::write_check;
use scene_ports::{FileSource, GiveFault, Outlet};
use std::alloc::Global;
use subtree_outcome::WalkStop;
use tile_walk::check_all;
use tileset_json::Layout;

/// What `check` and the words behind it ask for: there are none.
pub(crate) fn read(alloc: Global, words: &[String]) -> Result<Asked, WordFault>
    ensures { IsReadAs (check_asked (without_dashes (drop 1 (map string_bytes words.now)))) result }
{
    let matches = matches_of(alloc, "check", words)?;
    match matches.get_strs("values") {
        None | Some([]) => Ok(Asked::Check),
        _ => Err(WordFault::Usage),
    }
}

/// Gives the faults of all subtree files that are reached from the layout of the files.
pub(crate) fn run<S: FileSource, O: Outlet>(alloc: Global, files: &mut S, out: &mut O) -> Status
    ensures replies { IfSome (reply_in check_reply (S.told files.old))
        (λ wanted. Replies wanted (O.given out.old) (O.given out.new) result) }
    ensures ends { IsOneOf check_ends result }
    ensures nothing { IsBeforeWriting result → Keeps (O.given out.old) (O.given out.new) }
    ensures read_fault { result ≡ Status.ReadFault → Rose (S.faults files.old) (S.faults files.new) }
    ensures write_fault { result ≡ Status.WriteFault → Rose (O.faults out.old) (O.faults out.new) }
    ensures aside { O.inlet_aside out.new ≡ O.inlet_aside out.old }
    ensures same { S.told files.new ≡ S.told files.old }
    ensures later_files { S.faults files.old ≤ S.faults files.new }
    ensures later_out { O.faults out.old ≤ O.faults out.new }
{
    match fetch_layout(alloc, files) {
        Ok(layout) => check_layout(alloc, &layout, files, out),
        Err(status) => status,
    }
}

// The same over a layout.
fn check_layout<S: FileSource, O: Outlet>(
    alloc: Global,
    layout: &Layout,
    files: &mut S,
    out: &mut O,
) -> Status
    ensures replies { IfSome (S.told files.old)
        (λ all. Replies (Ok (check_reply (scene_of all layout.now))) (O.given out.old) (O.given out.new) result) }
    ensures ends { IsOneOf check_ends result }
    ensures nothing { IsBeforeWriting result → Keeps (O.given out.old) (O.given out.new) }
    ensures read_fault { result ≡ Status.ReadFault → Rose (S.faults files.old) (S.faults files.new) }
    ensures write_fault { result ≡ Status.WriteFault → Rose (O.faults out.old) (O.faults out.new) }
    ensures aside { O.inlet_aside out.new ≡ O.inlet_aside out.old }
    ensures same { S.told files.new ≡ S.told files.old }
    ensures later_files { S.faults files.old ≤ S.faults files.new }
    ensures later_out { O.faults out.old ≤ O.faults out.new }
{
    let scheme = layout.scheme;
    let mut found = Vec::new(alloc);
    let end = match check_all(alloc, files, layout, &mut found) {
        Ok(end) => end,
        Err(WalkStop::ReadFault) => return Status::ReadFault,
        Err(WalkStop::Memory) => return Status::Memory,
    };
    match write_check(alloc, scheme, &found, end, out) {
        Ok(()) => status_of(found.is_empty()),
        Err(GiveFault::WriteFault) => Status::WriteFault,
        Err(GiveFault::Memory) => Status::Memory,
    }
}

// The status of a check whose text was given whole.
fn status_of(is_good: bool) -> Status
    ensures status { result ≡ if is_good then Status.Done else Status.Faulted }
    ensures ends { IsOneOf check_ends result }
    ensures late { ¬ (IsBeforeWriting result) }
    ensures well { (result ≢ Status.ReadFault) × (result ≢ Status.WriteFault) }
{
    if is_good {
        Status::Done
    } else {
        Status::Faulted
    }
}
