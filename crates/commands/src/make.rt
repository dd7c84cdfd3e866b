// The command `make`: the files of a generated tileset.
ghost use Rattle.std.specs.Prelude.{◌≡◌, ◌⊎◌, ◌≤◌, Ok, drop, map, string_bytes};
ghost use Rattle.scene_ports.specs.Counts.{Rose};
ghost use Rattle.program_status.specs.Sets.{IsOneOf};
ghost use Rattle.commands.specs.Commands.{make_asked, IsReadAs};
ghost use Rattle.commands.specs.Replies.{Replies};
ghost use Rattle.commands.specs.Make.{make_reply, make_ends, MakeLeaves, PutsFirst};
ghost use Rattle.commands.specs.Words.{without_dashes};

use crate::program::Asked;
use crate::recipe_words::recipe_of;
use crate::words::WordFault;
use program_status::Status;
use request_text::write_made;
use scene_ports::{FileKeeper, GiveFault, Outlet};
use std::alloc::Global;
use tile_builder::BuildStop;
use tileset_make::{Recipe, make};

/// What `make` and the words behind it ask for.
pub(crate) fn read(alloc: Global, words: &[String]) -> Result<Asked, WordFault>
    ensures { IsReadAs (make_asked (without_dashes (drop 1 (map string_bytes words.now)))) result }
{
    let recipe = recipe_of(alloc, "make", words)?;
    Ok(Asked::Make { recipe })
}

/// Puts the files of a recipe into the keeper, and gives how many there are.
pub(crate) fn run<K: FileKeeper, O: Outlet>(
    alloc: Global,
    recipe: &Recipe,
    keep: &mut K,
    out: &mut O,
) -> Status
    ensures replies { Replies (Ok (make_reply recipe.now)) (O.given out.old) (O.given out.new) result }
    ensures ends { IsOneOf make_ends result }
    ensures leaves { MakeLeaves recipe.now (K.kept keep.old) (K.kept keep.new) result }
    ensures first { PutsFirst recipe.now (K.kept keep.old) (K.kept keep.new) (O.given out.old) (O.given out.new) }
    ensures write_fault { result ≡ Status.WriteFault → Rose (O.faults out.old) (O.faults out.new)
        ⊎ Rose (K.faults keep.old) (K.faults keep.new) }
    ensures all_put { result ≡ Status.WriteFault → Rose (K.faults keep.old) (K.faults keep.new)
        ⊎ MakeLeaves recipe.now (K.kept keep.old) (K.kept keep.new) Status.Done }
    ensures aside { O.inlet_aside out.new ≡ O.inlet_aside out.old }
    ensures later_keep { K.faults keep.old ≤ K.faults keep.new }
    ensures later_out { O.faults out.old ≤ O.faults out.new }
{
    let built = match make(alloc, recipe, keep) {
        Ok(built) => built,
        Err(BuildStop::Failed) => return Status::WriteFault,
        Err(BuildStop::Memory) => return Status::Memory,
    };
    match write_made(alloc, built.files, built.tiles, out) {
        Ok(()) => Status::Done,
        Err(GiveFault::WriteFault) => Status::WriteFault,
        Err(GiveFault::Memory) => Status::Memory,
    }
}
