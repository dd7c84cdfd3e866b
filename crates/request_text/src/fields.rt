// The fields of lines: numbers and places, joined by TAB.
ghost use Rattle.std.specs.Prelude.{◌≡◌, ◌++◌, ◌∷◌, [], OnOk, string_bytes};
ghost use Rattle.std.specs.Fmt.{decimal};
ghost use Rattle.implicit_tiling.specs.Code.{IsWord, word_tile};
ghost use Rattle.implicit_tiling.specs.Text.{coordinate_texts};
ghost use Rattle.request_text.specs.Fields.{joined, after_tab};

use itoa::Buffer;
use std::alloc::AllocError;
use tile_coords::{Scheme, Tile, Word};
use tile_word::word_tile;

// Appends a text, a number and LF.
pub(crate) fn push_count(text: &str, count: usize, piece: &mut String) -> Result<(), AllocError>
    ensures { OnOk result (string_bytes piece.new ≡ string_bytes piece.old
        ++ (text.now ++ (decimal count ++ 10 ∷ []))) }
{
    piece.push_str(text)?;
    push_number(count as u64, piece)?;
    piece.push('\n')
}

// Appends the level and the coordinates of the tile of a word, joined by TAB.
pub(crate) fn push_place(scheme: Scheme, word: Word, piece: &mut String) -> Result<(), AllocError>
    requires { IsWord scheme word }
    ensures { OnOk result (string_bytes piece.new ≡ string_bytes piece.old
        ++ joined (coordinate_texts scheme (word_tile scheme word))) }
{
    let tile = word_tile(scheme, word);
    push_coordinates(scheme, &tile, piece)
}

// Appends the level and the coordinates of a tile, joined by TAB.
pub(crate) fn push_coordinates(
    scheme: Scheme,
    tile: &Tile,
    piece: &mut String,
) -> Result<(), AllocError>
    ensures { OnOk result (string_bytes piece.new ≡ string_bytes piece.old
        ++ joined (coordinate_texts scheme tile.now)) }
{
    push_number(u64::from(tile.level), piece)?;
    push_field(u64::from(tile.x), piece)?;
    push_field(u64::from(tile.y), piece)?;
    match scheme {
        Scheme::Quad => Ok(()),
        Scheme::Oct => push_field(u64::from(tile.z), piece),
    }
}

// Appends a number in decimal.
pub(crate) fn push_number(number: u64, piece: &mut String) -> Result<(), AllocError>
    ensures { OnOk result (string_bytes piece.new ≡ string_bytes piece.old ++ decimal number) }
{
    let mut digits = Buffer::new();
    piece.push_str(digits.format(number))
}

/// Appends a TAB and a number in decimal.
pub fn push_field(number: u64, piece: &mut String) -> Result<(), AllocError>
    ensures { OnOk result (string_bytes piece.new ≡ string_bytes piece.old ++ after_tab (decimal number)) }
{
    piece.push('\t')?;
    push_number(number, piece)
}
