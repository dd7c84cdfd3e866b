// The words of the tiles below a root. Words are in key order, so those of one level stand one after another.
ghost use Rattle.std.specs.Prelude.{◌≡◌, ◌+◌, ◌^◌, ◌<◌, ◌≤◌, length, take, drop, filter};
ghost use Rattle.std.specs.List.{All};
ghost use Rattle.std.specs.List.Sorted.{IsNonDecreasingBy};
ghost use Rattle.implicit_tiling.specs.Limits.{most_levels};
ghost use Rattle.implicit_tiling.specs.Tile.{IsTile};
ghost use Rattle.implicit_tiling.specs.Code.{mask_place, word_index};
ghost use Rattle.tile_word.specs.Words.{word_key};
ghost use Rattle.tile_occupancy.specs.Occupied.{IsOccupancy};
ghost use Rattle.tile_builder.specs.Runs.{first_key as first_key_of, is_key_in, words_below as words_below_of};

use tile_coords::{Scheme, Tile, Word};
use tile_word::{index_of, key_of, nodes_at, tile_at, word_after, word_of};
use tileset_json::Layout;

// The words of the tiles so many levels below a root (OGC 22-025r4, Morton index: their indices are a run of N^levels).
pub(crate) fn words_below<'w>(
    layout: &Layout,
    words: &'w [Word],
    root: &Tile,
    levels: u32,
) -> &'w [Word]
    requires whole { IsOccupancy layout.now.scheme layout.now.levels words.now }
    requires root { IsTile layout.now.scheme root.now }
    requires within { root.now.level < layout.now.levels }
    ensures { result.now ≡ words_below_of layout.now words.now root.now levels }
{
    if levels >= layout.levels - root.level {
        return &words[..0];
    }
    let first = first_key(layout.scheme, root, levels);
    words_from(words, first, nodes_at(layout.scheme, levels))
}

// The key of the first tile so many levels below another.
fn first_key(scheme: Scheme, root: &Tile, levels: u32) -> Word
    requires root { IsTile scheme root.now }
    requires within { root.now.level + levels < most_levels scheme }
    ensures { result ≡ first_key_of scheme root.now levels }
{
    let index = index_of(scheme, root) * nodes_at(scheme, levels);
    let first = tile_at(scheme, root.level + levels, index);
    word_of(scheme, &first, 0)
}

// The words whose keys are among `count` words from `first` on.
fn words_from<'w>(words: &'w [Word], first: Word, count: u64) -> &'w [Word]
    requires sorted { IsNonDecreasingBy word_key words.now }
    requires index { word_index first + count < 2 ^ mask_place }
    ensures { result.now ≡ filter (is_key_in first count) words.now }
{
    let start = count_below(words, first);
    let end = count_below(words, word_after(first, count));
    &words[start..end]
}

// How many of the words have keys below a word. They stand before all others.
fn count_below(words: &[Word], key: Word) -> usize
    requires { IsNonDecreasingBy word_key words.now }
    ensures within { result ≤ length words.now }
    ensures below { All (λ w. word_key w < key) (take result words.now) }
    ensures others { All (λ w. key ≤ word_key w) (drop result words.now) }
{
    words.partition_point(|word| key_of(*word) < key)
}
