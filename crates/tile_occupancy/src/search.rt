// Tiles that are looked for among words in key order.
ghost use Rattle.std.specs.Prelude.{◌<◌};
ghost use Rattle.std.specs.Bool.{Decides};
ghost use Rattle.std.specs.List.{All, Contains};
ghost use Rattle.implicit_tiling.specs.Limits.{most_levels};
ghost use Rattle.implicit_tiling.specs.Tile.{IsTile};
ghost use Rattle.implicit_tiling.specs.Code.{IsWord};
ghost use Rattle.tile_occupancy.specs.Occupied.{KeysRise, tiles_of};

use tile_coords::{Scheme, Tile, Word};
use tile_word::{key_of, word_of};

// Whether a tile is among those of the words.
pub(crate) fn has_tile(scheme: Scheme, words: &[Word], tile: &Tile) -> bool
    requires words { All (IsWord scheme) words.now }
    requires rise { KeysRise scheme words.now }
    requires within { tile.now.level < most_levels scheme }
    requires tile { IsTile scheme tile.now }
    ensures { Decides result (Contains (tiles_of scheme words.now) tile.now) }
{
    let wanted = word_of(scheme, tile, 0);
    words
        .binary_search_by_key(&wanted, |word| key_of(*word))
        .is_ok()
}
