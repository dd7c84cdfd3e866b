// The texts of answers and of refused lines.
ghost use Rattle.std.specs.Prelude.{◌≡◌, ◌≤◌, ◌++◌, ◌∷◌, [], Err, OnOk, string_bytes, length};
ghost use Rattle.std.specs.List.{flat_map, All};
ghost use Rattle.std.specs.Fmt.{decimal};
ghost use Rattle.std.specs.Io.KnownBytes.{Appends};
ghost use Rattle.implicit_tiling.specs.Code.{IsWord, word_tile};
ghost use Rattle.implicit_tiling.specs.Limits.{most_contents};
ghost use Rattle.implicit_tiling.specs.Answer.{fault};
ghost use Rattle.implicit_tiling.specs.Template.{filled};
ghost use Rattle.implicit_tiling.specs.Text.{coordinate_texts, content_texts, tile_line, word_line, words_text};
ghost use Rattle.implicit_tiling.specs.Text.{end_line, step_end_line, refused_text};
ghost use Rattle.tile_coords.specs.Ends.{end_seen, EndsAtRoot};
ghost use Rattle.scene_ports.specs.Counts.{Rose};
ghost use Rattle.scene_ports.specs.Output.{GivesFront, GivesAllBut};
ghost use Rattle.request_text.specs.Fields.{joined, after_tab};

use crate::fields::{push_coordinates, push_count, push_field, push_number, push_place};
use scene_ports::{GiveFault, Outlet, give_rest, give_when_full};
use std::alloc::{AllocError, Global};
use tile_coords::{Scheme, Tile, WalkEnd, Word};
use tile_word::{mask_of, word_tile};
use tileset_json::Layout;
use uri_template::Template;

/// Gives the text of an answer: a line for each word, and the end line, in pieces of up to 98,304 bytes. After an `Err`
/// some front of the text was given.
pub fn write_answer<O: Outlet>(
    alloc: Global,
    layout: &Layout,
    words: &[Word],
    end: WalkEnd,
    out: &mut O,
) -> Result<(), GiveFault>
    requires words { All (IsWord layout.now.scheme) words.now }
    requires root { EndsAtRoot layout.now.scheme end }
    ensures given { OnOk result (Appends (O.given out.old) (O.given out.new) (words_text layout.now words.now
        (end_seen layout.now.scheme end))) }
    ensures front { GivesFront (O.given out.old) (O.given out.new) (words_text layout.now words.now
        (end_seen layout.now.scheme end)) }
    ensures failed { result ≡ Err GiveFault.WriteFault → Rose (O.faults out.old) (O.faults out.new) }
    ensures later { O.faults out.old ≤ O.faults out.new }
    ensures aside { O.inlet_aside out.new ≡ O.inlet_aside out.old }
{
    let mut piece = String::new(alloc);
    append_answer(layout, words, end, &mut piece, out)?;
    give_rest(out, &mut piece)
}

/// Appends the text of an answer to the piece that is held back, and gives the piece whenever it is full. After an `Err`
/// some front of what the piece held and the text was given.
pub fn append_answer<O: Outlet>(
    layout: &Layout,
    words: &[Word],
    end: WalkEnd,
    piece: &mut String,
    out: &mut O,
) -> Result<(), GiveFault>
    requires words { All (IsWord layout.now.scheme) words.now }
    requires root { EndsAtRoot layout.now.scheme end }
    ensures given { OnOk result (GivesAllBut (O.given out.old) (O.given out.new) (string_bytes piece.new)
        (string_bytes piece.old ++ words_text layout.now words.now (end_seen layout.now.scheme end))) }
    ensures front { GivesFront (O.given out.old) (O.given out.new)
        (string_bytes piece.old ++ words_text layout.now words.now (end_seen layout.now.scheme end)) }
    ensures failed { result ≡ Err GiveFault.WriteFault → Rose (O.faults out.old) (O.faults out.new) }
    ensures later { O.faults out.old ≤ O.faults out.new }
    ensures aside { O.inlet_aside out.new ≡ O.inlet_aside out.old }
{
    for word in words {
        push_word_line(layout, *word, piece)?;
        give_when_full(out, piece)?;
    }
    push_end_line(layout.scheme, words.len(), end, piece)?;
    Ok(())
}

/// Gives the text of a refused line, whose refusal has this number. After an `Err` some front of the text was given.
pub fn write_refusal<O: Outlet>(alloc: Global, number: u64, out: &mut O) -> Result<(), GiveFault>
    ensures given { OnOk result (Appends (O.given out.old) (O.given out.new) (refused_text number)) }
    ensures front { GivesFront (O.given out.old) (O.given out.new) (refused_text number) }
    ensures failed { result ≡ Err GiveFault.WriteFault → Rose (O.faults out.old) (O.faults out.new) }
    ensures later { O.faults out.old ≤ O.faults out.new }
    ensures aside { O.inlet_aside out.new ≡ O.inlet_aside out.old }
{
    let mut piece = String::new(alloc);
    push_refusal(number, &mut piece)?;
    give_rest(out, &mut piece)
}

/// Appends the text of a refused line.
pub fn push_refusal(number: u64, piece: &mut String) -> Result<(), AllocError>
    ensures { OnOk result (string_bytes piece.new ≡ string_bytes piece.old ++ refused_text number) }
{
    piece.push_str("refused\t")?;
    push_number(number, piece)?;
    piece.push('\n')
}

/// Appends the line of a tile by its word, as it stands in an answer.
pub fn push_word_line(layout: &Layout, word: Word, piece: &mut String) -> Result<(), AllocError>
    requires { IsWord layout.now.scheme word }
    ensures { OnOk result (string_bytes piece.new ≡ string_bytes piece.old ++ word_line layout.now word) }
{
    let tile = word_tile(layout.scheme, word);
    push_tile_line(layout, &tile, mask_of(word), piece)
}

// Appends the line of a tile with the contents of a mask.
fn push_tile_line(
    layout: &Layout,
    tile: &Tile,
    mask: u16,
    piece: &mut String,
) -> Result<(), AllocError>
    ensures { OnOk result (string_bytes piece.new ≡ string_bytes piece.old ++ tile_line layout.now tile.now mask) }
{
    push_coordinates(layout.scheme, tile, piece)?;
    push_contents(layout.scheme, &layout.contents, tile, mask, piece)?;
    piece.push('\n')
}

// Appends the end line of so many tiles.
fn push_end_line(
    scheme: Scheme,
    count: usize,
    end: WalkEnd,
    piece: &mut String,
) -> Result<(), AllocError>
    requires { EndsAtRoot scheme end }
    ensures { OnOk result (string_bytes piece.new ≡ string_bytes piece.old ++ step_end_line scheme count
        (end_seen scheme end)) }
{
    match end {
        WalkEnd::Partial => push_count("end\tpartial\t", count, piece),
        WalkEnd::Complete => push_count("end\tcomplete\t", count, piece),
        WalkEnd::TooMany => push_count("end\ttoo-many\t", count, piece),
        WalkEnd::Fault { root, number } => push_fault(scheme, count, root, number, piece),
    }
}

// Appends the end line of a walk that ended at the fault of a root.
fn push_fault(
    scheme: Scheme,
    count: usize,
    root: Word,
    number: u64,
    piece: &mut String,
) -> Result<(), AllocError>
    requires { IsWord scheme root }
    ensures { OnOk result (string_bytes piece.new ≡ string_bytes piece.old
        ++ end_line scheme count (fault (word_tile scheme root) number)) }
{
    piece.push_str("end\tfault")?;
    push_field(count as u64, piece)?;
    push_field(number, piece)?;
    piece.push('\t')?;
    push_place(scheme, root, piece)?;
    piece.push('\n')
}

// Appends, each after a TAB, the filled templates whose bit of the mask is 1.
fn push_contents(
    scheme: Scheme,
    contents: &[Template],
    tile: &Tile,
    mask: u16,
    piece: &mut String,
) -> Result<(), AllocError>
    requires { length contents.now ≤ most_contents }
    ensures { OnOk result (string_bytes piece.new ≡ string_bytes piece.old
        ++ flat_map after_tab (content_texts scheme tile.now mask 0 contents.now)) }
{
    for (content, template) in contents.iter().enumerate() {
        if mask >> content & 1 == 1 {
            push_content(scheme, template, tile, piece)?;
        }
    }
    Ok(())
}

// Appends a TAB and a filled template.
fn push_content(
    scheme: Scheme,
    template: &Template,
    tile: &Tile,
    piece: &mut String,
) -> Result<(), AllocError>
    ensures { OnOk result (string_bytes piece.new ≡ string_bytes piece.old
        ++ after_tab (filled scheme template.now tile.now)) }
{
    piece.push('\t')?;
    template.fill(scheme.axes(), tile.level, [tile.x, tile.y, tile.z], piece)
}
