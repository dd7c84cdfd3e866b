// The texts of tilesets that were made, or made and surveyed.
ghost use Rattle.std.specs.Prelude.{◌≡◌, ◌≤◌, ◌++◌, Err, OnOk, string_bytes};
ghost use Rattle.std.specs.Io.KnownBytes.{Appends};
ghost use Rattle.scene_ports.specs.Counts.{Rose};
ghost use Rattle.scene_ports.specs.Output.{GivesFront};
ghost use Rattle.request_text.specs.Made.{made_text, survey_text};

use crate::fields::push_field;
use scene_ports::{GiveFault, Outlet, give_rest};
use std::alloc::{AllocError, Global};

/// Gives the text of a tileset that was made: how many files were put, and how many tiles they hold. After an `Err`
/// some front of the text was given.
pub fn write_made<O: Outlet>(
    alloc: Global,
    files: u64,
    tiles: u64,
    out: &mut O,
) -> Result<(), GiveFault>
    ensures given { OnOk result (Appends (O.given out.old) (O.given out.new) (made_text files tiles)) }
    ensures front { GivesFront (O.given out.old) (O.given out.new) (made_text files tiles) }
    ensures failed { result ≡ Err GiveFault.WriteFault → Rose (O.faults out.old) (O.faults out.new) }
    ensures later { O.faults out.old ≤ O.faults out.new }
    ensures aside { O.inlet_aside out.new ≡ O.inlet_aside out.old }
{
    let mut piece = String::new(alloc);
    push_made(files, tiles, &mut piece)?;
    give_rest(out, &mut piece)
}

/// Gives the text of a survey: the files, the tiles, how many tiles the answer for all of them lists and how many
/// contents these have, and whether there are more tiles than an answer holds. After an `Err` some front of the text
/// was given.
pub fn write_survey<O: Outlet>(
    alloc: Global,
    files: u64,
    tiles: u64,
    listed: u64,
    contents: u64,
    more: bool,
    out: &mut O,
) -> Result<(), GiveFault>
    ensures given { OnOk result (Appends (O.given out.old) (O.given out.new)
        (survey_text files tiles listed contents more)) }
    ensures front { GivesFront (O.given out.old) (O.given out.new) (survey_text files tiles listed contents more) }
    ensures failed { result ≡ Err GiveFault.WriteFault → Rose (O.faults out.old) (O.faults out.new) }
    ensures later { O.faults out.old ≤ O.faults out.new }
    ensures aside { O.inlet_aside out.new ≡ O.inlet_aside out.old }
{
    let mut piece = String::new(alloc);
    push_survey(files, tiles, listed, contents, more, &mut piece)?;
    give_rest(out, &mut piece)
}

fn push_made(files: u64, tiles: u64, piece: &mut String) -> Result<(), AllocError>
    ensures { OnOk result (string_bytes piece.new ≡ string_bytes piece.old ++ made_text files tiles) }
{
    piece.push_str("made")?;
    push_field(files, piece)?;
    push_field(tiles, piece)?;
    piece.push('\n')
}

fn push_survey(
    files: u64,
    tiles: u64,
    listed: u64,
    contents: u64,
    more: bool,
    piece: &mut String,
) -> Result<(), AllocError>
    ensures { OnOk result (string_bytes piece.new ≡ string_bytes piece.old
        ++ survey_text files tiles listed contents more) }
{
    piece.push_str("survey")?;
    push_field(files, piece)?;
    push_field(tiles, piece)?;
    push_field(listed, piece)?;
    push_field(contents, piece)?;
    piece.push_str(if more { "\ttoo-many\n" } else { "\tcomplete\n" })
}
