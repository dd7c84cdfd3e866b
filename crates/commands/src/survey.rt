// The command `survey`: a generated tileset that is made in memory, walked and counted.
ghost use Rattle.std.specs.Prelude.{◌≡◌, ◌≤◌, Ok, drop, map, string_bytes};
ghost use Rattle.scene_ports.specs.Counts.{Rose};
ghost use Rattle.program_status.specs.Sets.{IsOneOf};
ghost use Rattle.commands.specs.Commands.{survey_asked, IsReadAs};
ghost use Rattle.commands.specs.Replies.{Replies};
ghost use Rattle.commands.specs.Survey.{survey_reply, survey_ends};
ghost use Rattle.commands.specs.Words.{without_dashes};

use crate::program::Asked;
use crate::recipe_words::recipe_of;
use crate::words::WordFault;
use program_status::Status;
use request_text::write_survey;
use scene_ports::{GiveFault, Outlet};
use std::alloc::Global;
use tileset_make::{Recipe, survey};

// The most levels of a subtree of a survey.
const MOST_SURVEYED_LEVELS: u32 = 4;

/// What `survey` and the words behind it ask for.
pub(crate) fn read(alloc: Global, words: &[String]) -> Result<Asked, WordFault>
    ensures { IsReadAs (survey_asked (without_dashes (drop 1 (map string_bytes words.now)))) result }
{
    let recipe = recipe_of(alloc, "survey", words)?;
    if recipe.subtree_levels > MOST_SURVEYED_LEVELS {
        return Err(WordFault::Usage);
    }
    Ok(Asked::Survey { recipe })
}

/// Makes the files of a recipe in memory, walks all tiles over them, and gives what was found.
pub(crate) fn run<O: Outlet>(alloc: Global, recipe: &Recipe, out: &mut O) -> Status
    ensures replies { Replies (Ok (survey_reply recipe.now)) (O.given out.old) (O.given out.new) result }
    ensures ends { IsOneOf survey_ends result }
    ensures write_fault { result ≡ Status.WriteFault → Rose (O.faults out.old) (O.faults out.new) }
    ensures aside { O.inlet_aside out.new ≡ O.inlet_aside out.old }
    ensures later_out { O.faults out.old ≤ O.faults out.new }
{
    let Ok(found) = survey(alloc, recipe) else {
        return Status::Memory;
    };
    match write_survey(
        alloc,
        found.files,
        found.tiles,
        found.listed,
        found.contents,
        found.more,
        out,
    ) {
        Ok(()) => Status::Done,
        Err(GiveFault::WriteFault) => Status::WriteFault,
        Err(GiveFault::Memory) => Status::Memory,
    }
}
