// How many nodes stand above a level.
ghost use Rattle.std.specs.Prelude.{◌≡◌, ◌≤◌};
ghost use Rattle.implicit_tiling.specs.Limits.{most_subtree_levels};
ghost use Rattle.implicit_tiling.specs.Availability.{nodes_above as nodes_above_of};

use implicit_tiling::Scheme;
use tile_word::nodes_at;

/// How many nodes of a subtree stand above a local level: the first bit of that level has this place
/// (OGC 22-025r4, implicit tiling: availability).
#[inline]
pub fn nodes_above(scheme: Scheme, local: u32) -> u64
    requires { local ≤ most_subtree_levels scheme }
    ensures { result ≡ nodes_above_of scheme local }
{
    (nodes_at(scheme, local) - 1) / u64::from(scheme.children() - 1)
}
