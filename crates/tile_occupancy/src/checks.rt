// The three conditions of an occupancy.
ghost use Rattle.std.specs.Prelude.{◌≡◌, ◌<◌};
ghost use Rattle.std.specs.Bool.{Decides};
ghost use Rattle.std.specs.List.{All};
ghost use Rattle.implicit_tiling.specs.Code.{IsWord};
ghost use Rattle.tile_occupancy.specs.Occupied.{AreWordsBelow, IsWordBelow, KeysRise, HaveParents};

use crate::search::has_tile;
use tile_coords::{Scheme, Word};
use tile_word::{is_word, key_of, level_of, word_tile};

// Whether each word is that of a tile of a level below `levels`.
pub(crate) fn are_words(scheme: Scheme, levels: u32, words: &[Word]) -> bool
    ensures { Decides result (AreWordsBelow scheme levels words.now) }
{
    words
        .iter()
        .all(|word| is_word_below(scheme, levels, *word))
}

// The same of one word.
fn is_word_below(scheme: Scheme, levels: u32, word: Word) -> bool
    ensures { Decides result (IsWordBelow scheme levels word) }
{
    is_word(scheme, word) && level_of(word) < u64::from(levels)
}

// Whether the keys of the words' tiles strictly rise.
pub(crate) fn keys_rise(scheme: Scheme, words: &[Word]) -> bool
    requires { All (IsWord scheme) words.now }
    ensures { Decides result (KeysRise scheme words.now) }
{
    words.is_sorted_by(|word, next| key_of(*word) < key_of(*next))
}

// Whether each tile but the root has its parent among the tiles.
pub(crate) fn have_parents(scheme: Scheme, words: &[Word]) -> bool
    requires words { All (IsWord scheme) words.now }
    requires rise { KeysRise scheme words.now }
    ensures { Decides result (HaveParents scheme words.now) }
{
    for &word in words {
        if let Some(parent) = word_tile(scheme, word).parent() {
            if !has_tile(scheme, words, &parent) {
                return false;
            }
        }
    }
    true
}
