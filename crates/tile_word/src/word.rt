// The words of tiles.
ghost use Rattle.std.specs.Prelude.{◌≡◌, ◌+◌, ◌*◌, ◌^◌, ◌<◌, ◌≤◌, ◌↔◌, IfSome, IsSome};
ghost use Rattle.std.specs.Bool.{Decides};
ghost use Rattle.implicit_tiling.specs.Limits.{most_levels};
ghost use Rattle.implicit_tiling.specs.Tile.{IsTile};
ghost use Rattle.implicit_tiling.specs.Code.{level_place, mask_place, word as word_for, word_tile as word_tile_of};
ghost use Rattle.implicit_tiling.specs.Code.{word_mask, word_level, word_index, IsWord};
ghost use Rattle.tile_word.specs.Words.{word_key, IsFurther};

use crate::index::{index_of, nodes_at, tile_at};
use tile_coords::{Scheme, Tile, Word};

// The mask stands in the lowest bits of a word's higher number, and the level above it.
const LEVEL_PLACE: u32 = 16;

const MASK_BITS: u64 = 0xFFFF;

/// A tile, and a mask of its contents: bit c for content c.
#[derive(Clone, Copy, Debug, PartialEq, Eq)]
pub struct WordTile {
    pub tile: Tile,
    pub mask: u16,
}

/// The word of a tile and a mask of its contents. Words of one mask are ordered as the keys of their tiles.
#[inline]
pub fn word_of(scheme: Scheme, tile: &Tile, mask: u16) -> Word
    requires within { tile.now.level < most_levels scheme }
    requires tile { IsTile scheme tile.now }
    ensures { result ≡ word_for scheme tile.now mask }
{
    word_at(tile.level, index_of(scheme, tile), mask)
}

/// The word of the tile of a level and a Morton index within it, and a mask of its contents.
#[inline]
pub fn word_at(level: u32, index: u64, mask: u16) -> Word
    ensures { result ≡ level * 2 ^ level_place + mask * 2 ^ mask_place + index }
{
    Word {
        high: u64::from(level) << LEVEL_PLACE | u64::from(mask),
        low: index,
    }
}

/// The word `count` places further than another one, of the same level and mask, as long as there is such an index.
#[inline]
pub fn word_after(word: Word, count: u64) -> Word
    requires index { word_index word + count < 2 ^ mask_place }
    ensures number { result ≡ word + count }
    ensures further { IsFurther word count result }
{
    Word {
        high: word.high,
        low: word.low + count,
    }
}

/// The tile and the mask of a word. None exactly where it is no tile's: its level is past the limit, or its index is
/// past its level.
#[inline]
pub fn tile_of(scheme: Scheme, word: Word) -> Option<WordTile>
    ensures accepted { IsSome result ↔ IsWord scheme word }
    ensures tile { IfSome result (λ t. t.tile ≡ word_tile_of scheme word) }
    ensures mask { IfSome result (λ t. t.mask ≡ word_mask word) }
    ensures is_tile { IfSome result (λ t. IsTile scheme t.tile) }
    ensures within { IfSome result (λ t. t.tile.level < most_levels scheme) }
{
    if !is_word(scheme, word) {
        return None;
    }
    Some(WordTile {
        tile: word_tile(scheme, word),
        mask: mask_of(word),
    })
}

/// Whether a word is a tile's: its level is within the limit, and its index is one of its level's.
#[inline]
pub fn is_word(scheme: Scheme, word: Word) -> bool
    ensures { Decides result (IsWord scheme word) }
{
    let level = level_of(word);
    level < u64::from(scheme.most_levels()) && word.low < nodes_at(scheme, level as u32)
}

/// The word of the same tile without contents. These are ordered as the keys of the tiles.
#[inline]
pub fn key_of(word: Word) -> Word
    ensures parts { result ≡ word_key word }
    ensures key { (scheme : Scheme) → IsWord scheme word → result ≡ word_for scheme (word_tile_of scheme word) 0 }
{
    Word {
        high: word.high & !MASK_BITS,
        low: word.low,
    }
}

/// The mask of a word: bit c for content c.
#[inline]
pub fn mask_of(word: Word) -> u16
    ensures { result ≡ word_mask word }
{
    (word.high & MASK_BITS) as u16
}

/// The level of a word's tile: below 2^48 for any word.
#[inline]
pub fn level_of(word: Word) -> u64
    ensures { result ≡ word_level word }
{
    word.high >> LEVEL_PLACE
}

/// The Morton index of a word's tile: below 2^64 for any word.
#[inline]
pub fn index_in(word: Word) -> u64
    ensures { result ≡ word_index word }
{
    word.low
}

/// The tile of a word, where it is known to be one.
#[inline]
pub fn word_tile(scheme: Scheme, word: Word) -> Tile
    requires { IsWord scheme word }
    ensures tile { result ≡ word_tile_of scheme word }
    ensures is_tile { IsTile scheme result }
    ensures within { result.level < most_levels scheme }
{
    tile_at(scheme, level_of(word) as u32, word.low)
}
