// The tile of a root's word.
ghost use Rattle.std.specs.Prelude.{◌≡◌, ◌≤◌};
ghost use Rattle.implicit_tiling.specs.Availability.{IsRootOf};
ghost use Rattle.implicit_tiling.specs.Code.{word_level, word_tile as word_tile_of};
ghost use Rattle.tile_word.specs.Roots.{IsRootWord};

use tile_coords::{Tile, Word};
use tile_word::word_tile;
use tileset_json::Layout;

/// The tile of a root's word: one with which a subtree of the layout may begin.
pub fn root_tile(layout: &Layout, root: Word) -> Tile
    requires { IsRootWord layout.now (word_level root) root }
    ensures tile { result ≡ word_tile_of layout.now.scheme root }
    ensures root { IsRootOf layout.now result }
    ensures level { result.level ≡ word_level root }
    ensures some_levels { 1 ≤ layout.now.subtree_levels }
{
    word_tile(layout.scheme, root)
}
