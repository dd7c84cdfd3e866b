// The top call of several workers.
ghost use Rattle.std.specs.Prelude.{◌≡◌, ◌≢◌, ◌≤◌, ◌⊎◌, None, length, map, string_bytes, IfSome};
ghost use Rattle.std.specs.List.{All};
ghost use Rattle.commands.specs.Commands.{asked};
ghost use Rattle.implicit_tileset.specs.Scene.{layout_in};
ghost use Rattle.input_bytes.specs.Input.{IsLong, IsShort};
ghost use Rattle.program_status.specs.Sets.{IsOneOf};
ghost use Rattle.scene_ports.specs.Counts.{Rose, one_more};
ghost use Rattle.shared_commands.specs.Batch.{HasAnsweredInput, HasBegunAnswer, ends_over, IsBeforeInput, IsBeforeLines};
ghost use Rattle.shared_commands.specs.Desks.{files_of, IsFree, AreLeftFree, OnlyFirst};
ghost use Rattle.shared_commands.specs.Shared.{batch_asked_for, shared_ends};

use crate::batch::answer_input;
use batch_run::Desk;
use commands::{Asked, WordFault, words_of};
use program_status::Status;
use scene_ports::{FileSource, Inlet, Outlet};
use std::alloc::Global;
use std::sync::Wait;
use std::thread::Threads;
use viewer_session::{ViewerPass, Walked};

/// Runs a command of several workers, one at each desk, over the files that their sources hold, an inlet and an outlet.
/// The words are read, then `tileset.json` is fetched, once, by the first desk's source, then the input is taken
/// whole, then its lines are answered, and their blocks are given in input order.
pub fn shared<R: Threads + Wait + Sync, S: FileSource + Send, I: Inlet, O: Outlet>(
    rt: &R,
    alloc: Global,
    words: &[String],
    desks: &mut [Desk<S, ViewerPass, Walked>],
    input: &mut I,
    out: &mut O,
) -> Status
    requires workers { IfSome (batch_asked_for (asked (map string_bytes words.now)))
        (λ wish. length desks.old ≡ wish.workers) }
    requires free { All (IsFree S.told (files_of S.told desks.old)) desks.old }

    // With Done the whole input was answered, line by line, and it is shown which plans each worker has walked.
    ensures answered { result ≡ Status.Done → HasAnsweredInput S.faults (files_of S.told desks.old) desks.old desks.new
        (I.left input.old) (I.left input.new) (O.given out.old) (O.given out.new) }

    // The statuses, whatever the sources tell; and by what they tell, with the first fault of `tileset.json`.
    ensures ends { IsOneOf (shared_ends (batch_asked_for (asked (map string_bytes words.now)))) result }
    ensures layout { IfSome (batch_asked_for (asked (map string_bytes words.now))) (λ wish.
        IfSome (files_of S.told desks.old) (λ all. IsOneOf (ends_over (layout_in all)) result)) }

    // What isn't used yet when it ends so stays as it is.
    ensures unused { batch_asked_for (asked (map string_bytes words.now)) ≡ None
        → (desks.new ≡ desks.old) × (input.new ≡ input.old) × (out.new ≡ out.old) }
    ensures untaken { IsBeforeInput result → input.new ≡ input.old }
    ensures unasked { IsBeforeLines result → OnlyFirst (λ before now. S.fetches now ≡ one_more (S.fetches before))
        desks.old desks.new }
    ensures nothing { IsBeforeLines result → out.new ≡ out.old }

    // The causes of failures, and what they leave.
    ensures read_fault { result ≡ Status.ReadFault → OnlyFirst (λ before now. Rose (S.faults before) (S.faults now))
        desks.old desks.new }
    ensures input_fault { result ≡ Status.InputFault → Rose (I.faults input.old) (I.faults input.new) }
    ensures long { result ≡ Status.InputLong → IsLong (I.taken input.old) (I.taken input.new) }
    ensures short { result ≢ Status.InputLong → IsShort (I.taken input.old) (I.taken input.new) }
    ensures write_fault { result ≡ Status.WriteFault → Rose (O.faults out.old) (O.faults out.new)
        × HasBegunAnswer S.faults (files_of S.told desks.old) desks.old desks.new (I.left input.old) (I.left input.new)
        (O.given out.old) (O.given out.new) }
    ensures memory { result ≡ Status.Memory → (out.new ≡ out.old)
        ⊎ HasBegunAnswer S.faults (files_of S.told desks.old) desks.old desks.new (I.left input.old) (I.left input.new)
        (O.given out.old) (O.given out.new) }

    // No desk has a pass, what the sources tell stays told, and no count of faults falls.
    ensures left { AreLeftFree S.told S.faults desks.old desks.new }
    ensures later_input { I.faults input.old ≤ I.faults input.new }
    ensures later_out { O.faults out.old ≤ O.faults out.new }
    ensures given_aside { I.given_aside input.new ≡ I.given_aside input.old }
    ensures inlet_aside { O.inlet_aside out.new ≡ O.inlet_aside out.old }
{
    match words_of(alloc, words) {
        Ok(Asked::Batch { frames, .. }) => answer_input(
            rt,
            alloc,
            frames as usize,
            desks,
            input,
            out,
        ),
        Ok(
            Asked::Tiles { .. }
            | Asked::Check
            | Asked::Make { .. }
            | Asked::Survey { .. }
            | Asked::Replay { .. }
            | Asked::Serve { .. },
        ) => Status::Usage,
        Err(WordFault::Usage) => Status::Usage,
        Err(WordFault::Memory) => Status::Memory,
    }
}
