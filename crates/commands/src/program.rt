// The top call, and the tables over all commands: what a command line asks for, by which name, and what then runs.
ghost use Rattle.std.specs.Prelude.{◌≡◌, ◌≢◌, ◌⊎◌, ◌≤◌, Some, true, false, map, string_bytes, IfSome};
ghost use Rattle.std.specs.Io.KnownBytes.{Keeps};
ghost use Rattle.scene_ports.specs.Counts.{Rose};
ghost use Rattle.program_status.specs.Sets.{IsOneOf};
ghost use Rattle.commands.specs.Commands.{asked, asked_seen, promised, IsReadAs, HasNumbers};
ghost use Rattle.input_bytes.specs.Input.{IsLong, IsShort};
ghost use Rattle.commands.specs.Replies.{Replies, IsGiven, IsBeforeWriting};

use crate::words::WordFault;
use crate::{batch, check, make, replay, serve, survey, tiles};
use program_status::Status;
use request_text::Line;
use scene_ports::{FileKeeper, FileSource, Inlet, Outlet};
use std::alloc::Global;
use tileset_make::Recipe;

/// What a command line asks for.
#[derive(Debug, Drop)]
pub enum Asked {
    /// The answer to a request line, LEVEL LO HI.
    Tiles {
        line: Line,
    },
    /// A check of all subtree files.
    Check,
    /// The files of a recipe, SCHEME LEVELS SUBTREE CONTENTS POINTS NUMBER.
    Make {
        recipe: Recipe,
    },
    /// A survey of the files of a recipe, whose subtrees have at most 4 levels.
    Survey {
        recipe: Recipe,
    },
    /// The replies to the script of the input, FRAMES PASSES: 1 to 1,024 and 1 to 64.
    Replay {
        frames: u32,
        passes: u32,
    },
    /// The answers to the request lines of the input, WORKERS FRAMES: 1 to 64 and 1 to 1,024.
    Batch {
        workers: u32,
        frames: u32,
    },
    /// The answers to requests over HTTP, PORT VIEWERS FRAMES: 1 to 65,535, 1 to 64 and 1 to 1,024.
    Serve {
        port: u32,
        viewers: u32,
        frames: u32,
    },
}

/// What the words behind the program's name ask for: a command's name, then its words, of which the first that is
/// `--` is dropped. Usage exactly where they are not the words of a command.
pub fn words_of(alloc: Global, words: &[String]) -> Result<Asked, WordFault>
    ensures { IsReadAs (asked (map string_bytes words.now)) result }
{
    let Some((name, _)) = words.split_first() else {
        return Err(WordFault::Usage);
    };
    match name.as_str() {
        "tiles" => tiles::read(alloc, words),
        "check" => check::read(alloc, words),
        "make" => make::read(alloc, words),
        "survey" => survey::read(alloc, words),
        "replay" => replay::read(alloc, words),
        "batch" => batch::read(alloc, words),
        "serve" => serve::read(alloc, words),
        _ => Err(WordFault::Usage),
    }
}

/// Runs a command over files, a keeper of files, an inlet and an outlet: the words are read, then the layout is
/// fetched, then the request line is held against it, then the work is done, then the text is given. `make` and
/// `survey` fetch no file.
pub fn plain<S: FileSource, K: FileKeeper, I: Inlet, O: Outlet>(
    alloc: Global,
    words: &[String],
    files: &mut S,
    keep: &mut K,
    input: &mut I,
    out: &mut O,
) -> Status
    // What was given, and the status, are those of the reply that is promised.
    ensures replies { IfSome ((promised (asked (map string_bytes words.now))).reply (S.told files.old))
        (λ wanted. Replies wanted (O.given out.old) (O.given out.new) result) }

    // Where no device fails and there is memory, the whole reply is given, and nothing else.
    ensures complete { IfSome ((promised (asked (map string_bytes words.now))).reply (S.told files.old))
        (λ wanted. (result ≡ Status.Memory)
        ⊎ (Rose (S.faults files.old) (S.faults files.new) ⊎ (Rose (K.faults keep.old) (K.faults keep.new)
        ⊎ (Rose (O.faults out.old) (O.faults out.new)
        ⊎ IsGiven wanted (O.given out.old) (O.given out.new) result)))) }

    // The statuses, whatever the source tells; the causes of failures, and what they leave.
    ensures ends { IsOneOf (promised (asked (map string_bytes words.now))).ends result }
    ensures nothing { IsBeforeWriting result → Keeps (O.given out.old) (O.given out.new) }
    ensures read_fault { result ≡ Status.ReadFault → Rose (S.faults files.old) (S.faults files.new) }
    ensures write_fault { result ≡ Status.WriteFault → Rose (O.faults out.old) (O.faults out.new)
        ⊎ (((promised (asked (map string_bytes words.now))).puts ≡ true)
        × Rose (K.faults keep.old) (K.faults keep.new)) }

    // What is given where the text depends on the input, and the causes of what an input ends with.
    ensures plays { (promised (asked (map string_bytes words.now))).plays (S.told files.old) (I.left input.old) (I.left input.new)
        (O.given out.old) (O.given out.new) (S.faults files.old) (S.faults files.new) result }
    ensures input_fault { result ≡ Status.InputFault → Rose (I.faults input.old) (I.faults input.new) }
    ensures long { result ≡ Status.InputLong → IsLong (I.taken input.old) (I.taken input.new) }
    ensures short { result ≢ Status.InputLong → IsShort (I.taken input.old) (I.taken input.new) }
    ensures read_first { result ≡ Status.ReadFault → input.new ≡ input.old }

    // The files that are left, and which of them stand before any text.
    ensures leaves { (promised (asked (map string_bytes words.now))).leaves (K.kept keep.old) (K.kept keep.new) result }
    ensures first { (promised (asked (map string_bytes words.now))).first (K.kept keep.old) (K.kept keep.new)
        (O.given out.old) (O.given out.new) }
    ensures all_put { result ≡ Status.WriteFault → Rose (K.faults keep.old) (K.faults keep.new)
        ⊎ (promised (asked (map string_bytes words.now))).leaves (K.kept keep.old) (K.kept keep.new) Status.Done }

    // What isn't used stays as it is: the source, the keeper, the inlet, and what the outlet is beside one.
    ensures unread { (promised (asked (map string_bytes words.now))).reads ≡ false → files.new ≡ files.old }
    ensures kept { (promised (asked (map string_bytes words.now))).puts ≡ false → keep.new ≡ keep.old }
    ensures untaken { (promised (asked (map string_bytes words.now))).takes ≡ false → input.new ≡ input.old }
    ensures aside { O.inlet_aside out.new ≡ O.inlet_aside out.old }

    // What the source tells stays told, and no count of faults falls.
    ensures same { S.told files.new ≡ S.told files.old }
    ensures later_files { S.faults files.old ≤ S.faults files.new }
    ensures later_keep { K.faults keep.old ≤ K.faults keep.new }
    ensures later_input { I.faults input.old ≤ I.faults input.new }
    ensures later_out { O.faults out.old ≤ O.faults out.new }
{
    match words_of(alloc, words) {
        Ok(asked) => run(alloc, &asked, files, keep, input, out),
        Err(WordFault::Usage) => Status::Usage,
        Err(WordFault::Memory) => Status::Memory,
    }
}

// Runs what was asked for.
fn run<S: FileSource, K: FileKeeper, I: Inlet, O: Outlet>(
    alloc: Global,
    asked: &Asked,
    files: &mut S,
    keep: &mut K,
    input: &mut I,
    out: &mut O,
) -> Status
    requires { HasNumbers (asked_seen asked.now) }
    ensures replies { IfSome ((promised (Some (asked_seen asked.now))).reply (S.told files.old))
        (λ wanted. Replies wanted (O.given out.old) (O.given out.new) result) }
    ensures ends { IsOneOf (promised (Some (asked_seen asked.now))).ends result }
    ensures nothing { IsBeforeWriting result → Keeps (O.given out.old) (O.given out.new) }
    ensures read_fault { result ≡ Status.ReadFault → Rose (S.faults files.old) (S.faults files.new) }
    ensures write_fault { result ≡ Status.WriteFault → Rose (O.faults out.old) (O.faults out.new)
        ⊎ (((promised (Some (asked_seen asked.now))).puts ≡ true) × Rose (K.faults keep.old) (K.faults keep.new)) }
    ensures plays { (promised (Some (asked_seen asked.now))).plays (S.told files.old) (I.left input.old) (I.left input.new)
        (O.given out.old) (O.given out.new) (S.faults files.old) (S.faults files.new) result }
    ensures input_fault { result ≡ Status.InputFault → Rose (I.faults input.old) (I.faults input.new) }
    ensures long { result ≡ Status.InputLong → IsLong (I.taken input.old) (I.taken input.new) }
    ensures short { result ≢ Status.InputLong → IsShort (I.taken input.old) (I.taken input.new) }
    ensures read_first { result ≡ Status.ReadFault → input.new ≡ input.old }
    ensures untaken { (promised (Some (asked_seen asked.now))).takes ≡ false → input.new ≡ input.old }
    ensures leaves { (promised (Some (asked_seen asked.now))).leaves (K.kept keep.old) (K.kept keep.new) result }
    ensures first { (promised (Some (asked_seen asked.now))).first (K.kept keep.old) (K.kept keep.new)
        (O.given out.old) (O.given out.new) }
    ensures all_put { result ≡ Status.WriteFault → Rose (K.faults keep.old) (K.faults keep.new)
        ⊎ (promised (Some (asked_seen asked.now))).leaves (K.kept keep.old) (K.kept keep.new) Status.Done }
    ensures unread { (promised (Some (asked_seen asked.now))).reads ≡ false → files.new ≡ files.old }
    ensures kept { (promised (Some (asked_seen asked.now))).puts ≡ false → keep.new ≡ keep.old }
    ensures aside { O.inlet_aside out.new ≡ O.inlet_aside out.old }
    ensures same { S.told files.new ≡ S.told files.old }
    ensures later_files { S.faults files.old ≤ S.faults files.new }
    ensures later_keep { K.faults keep.old ≤ K.faults keep.new }
    ensures later_input { I.faults input.old ≤ I.faults input.new }
    ensures later_out { O.faults out.old ≤ O.faults out.new }
{
    match asked {
        Asked::Tiles { line } => tiles::run(alloc, line, files, out),
        Asked::Check => check::run(alloc, files, out),
        Asked::Make { recipe } => make::run(alloc, recipe, keep, out),
        Asked::Survey { recipe } => survey::run(alloc, recipe, out),
        Asked::Replay { frames, passes } => {
            replay::run(alloc, *frames, *passes, files, input, out)
        }
        Asked::Batch { .. } | Asked::Serve { .. } => Status::Usage,
    }
}
