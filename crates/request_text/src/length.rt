// The length of the text of an answer, before it is written.
ghost use Rattle.std.specs.Prelude.{◌≡◌, ◌≤◌, ◌++◌, ◌∷◌, [], length};
ghost use Rattle.std.specs.List.{flat_map, All};
ghost use Rattle.std.specs.Fmt.{decimal};
ghost use Rattle.implicit_tiling.specs.Code.{IsWord, word_tile};
ghost use Rattle.implicit_tiling.specs.Limits.{most_contents};
ghost use Rattle.implicit_tiling.specs.Answer.{fault, most_tiles};
ghost use Rattle.implicit_tiling.specs.Text.{coordinate_texts, content_texts, tile_line, word_line, words_text};
ghost use Rattle.implicit_tiling.specs.Text.{end_line, step_end_line};
ghost use Rattle.tile_coords.specs.Ends.{end_seen, EndsAtRoot};
ghost use Rattle.request_text.specs.Fields.{joined, after_tab};

use itoa::Buffer;
use tile_coords::{Scheme, Tile, WalkEnd, Word};
use tile_word::{mask_of, word_tile};
use tileset_json::Layout;
use uri_template::Template;

/// The length in bytes of the text that `write_answer` gives. It takes no memory.
pub fn answer_length(layout: &Layout, words: &[Word], end: WalkEnd) -> u64
    requires words { All (IsWord layout.now.scheme) words.now }
    requires root { EndsAtRoot layout.now.scheme end }
    requires few { length words.now ≤ most_tiles }
    ensures { result ≡ length (words_text layout.now words.now (end_seen layout.now.scheme end)) }
{
    let mut count = length_of_end(layout.scheme, words.len(), end);
    for word in words {
        count += length_of_word(layout, *word);
    }
    count
}

// The length of the line of a word.
fn length_of_word(layout: &Layout, word: Word) -> u64
    requires { IsWord layout.now.scheme word }
    ensures length { result ≡ length (word_line layout.now word) }
    ensures short { result ≤ 180000 }
{
    let tile = word_tile(layout.scheme, word);
    length_of_tile(layout, &tile, mask_of(word))
}

fn length_of_tile(layout: &Layout, tile: &Tile, mask: u16) -> u64
    ensures length { result ≡ length (tile_line layout.now tile.now mask) }
    ensures short { result ≤ 180000 }
{
    length_of_place(layout.scheme, tile)
        + length_of_contents(layout.scheme, &layout.contents, tile, mask)
        + 1
}

// The length of the end line of so many tiles.
fn length_of_end(scheme: Scheme, count: usize, end: WalkEnd) -> u64
    requires { EndsAtRoot scheme end }
    ensures length { result ≡ length (step_end_line scheme count (end_seen scheme end)) }
    ensures short { result ≤ 200 }
{
    match end {
        WalkEnd::Partial => length_of_count("end\tpartial\t", count),
        WalkEnd::Complete => length_of_count("end\tcomplete\t", count),
        WalkEnd::TooMany => length_of_count("end\ttoo-many\t", count),
        WalkEnd::Fault { root, number } => length_of_fault(scheme, count, root, number),
    }
}

// The length of a text, a number and LF.
fn length_of_count(text: &str, count: usize) -> u64
    requires { length text.now ≤ 100 }
    ensures length { result ≡ length (text.now ++ (decimal count ++ 10 ∷ [])) }
    ensures short { result ≤ 200 }
{
    text.len() as u64 + digits_of(count as u64) + 1
}

fn length_of_fault(scheme: Scheme, count: usize, root: Word, number: u64) -> u64
    requires { IsWord scheme root }
    ensures length { result ≡ length (end_line scheme count (fault (word_tile scheme root) number)) }
    ensures short { result ≤ 200 }
{
    let tile = word_tile(scheme, root);
    "end\tfault\t".len() as u64
        + digits_of(count as u64)
        + 1
        + digits_of(number)
        + 1
        + length_of_place(scheme, &tile)
        + 1
}

// The length of the level and the coordinates of a tile, joined by TAB.
fn length_of_place(scheme: Scheme, tile: &Tile) -> u64
    ensures length { result ≡ length (joined (coordinate_texts scheme tile.now)) }
    ensures short { result ≤ 100 }
{
    let flat = digits_of(u64::from(tile.level))
        + 1
        + digits_of(u64::from(tile.x))
        + 1
        + digits_of(u64::from(tile.y));
    match scheme {
        Scheme::Quad => flat,
        Scheme::Oct => flat + 1 + digits_of(u64::from(tile.z)),
    }
}

// The length of the filled templates whose bit of the mask is 1, each with a TAB.
fn length_of_contents(scheme: Scheme, contents: &[Template], tile: &Tile, mask: u16) -> u64
    requires { length contents.now ≤ most_contents }
    ensures length { result ≡ length (flat_map after_tab (content_texts scheme tile.now mask 0 contents.now)) }
    ensures short { result ≤ 170000 }
{
    let mut count = 0u64;
    for (content, template) in contents.iter().enumerate() {
        if mask >> content & 1 == 1 {
            let coords = [tile.x, tile.y, tile.z];
            count += 1 + template.filled_length(scheme.axes(), tile.level, coords);
        }
    }
    count
}

// How many digits a number has.
fn digits_of(number: u64) -> u64
    ensures digits { result ≡ length (decimal number) }
    ensures few { result ≤ 20 }
{
    Buffer::new().format(number).len() as u64
}
