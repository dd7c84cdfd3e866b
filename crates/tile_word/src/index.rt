// The tiles of a level by their Morton indices.
ghost use Rattle.std.specs.Prelude.{◌≡◌, ◌^◌, ◌<◌, ◌≤◌};
ghost use Rattle.implicit_tiling.specs.Limits.{most_levels};
ghost use Rattle.implicit_tiling.specs.Tile.{IsTile, branching, index, tile_at as tile_at_of};

use morton::{coords2, coords3, index2, index3};
use tile_coords::{Scheme, Tile};

/// How many tiles a level has, N^level.
#[inline]
pub fn nodes_at(scheme: Scheme, level: u32) -> u64
    requires { level < most_levels scheme }
    ensures { result ≡ branching scheme ^ level }
{
    1 << (scheme.axes() * level)
}

/// The Morton index of a tile within its level (OGC 22-025r4, implicit tiling: Morton index).
#[inline]
pub fn index_of(scheme: Scheme, tile: &Tile) -> u64
    requires within { tile.now.level < most_levels scheme }
    requires tile { IsTile scheme tile.now }
    ensures { result ≡ index scheme tile.now }
{
    match scheme {
        Scheme::Quad => index2(tile.x, tile.y),
        Scheme::Oct => index3(tile.x, tile.y, tile.z),
    }
}

/// The tile of a level and a Morton index within it: the inverse of `index_of`.
#[inline]
pub fn tile_at(scheme: Scheme, level: u32, index: u64) -> Tile
    requires within { level < most_levels scheme }
    requires index { index < branching scheme ^ level }
    ensures { result ≡ tile_at_of scheme level index }
{
    match scheme {
        Scheme::Quad => {
            let (x, y) = coords2(index);
            Tile { level, x, y, z: 0 }
        }
        Scheme::Oct => {
            let (x, y, z) = coords3(index);
            Tile { level, x, y, z }
        }
    }
}
