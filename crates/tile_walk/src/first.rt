// Where a walk begins.
ghost use Rattle.std.specs.Prelude.{◌≡◌, ◌∷◌, [], IfOk};
ghost use Rattle.implicit_tiling.specs.Tile.{root};
ghost use Rattle.implicit_tiling.specs.Code.{word};

use std::alloc::{AllocError, Global};
use tile_coords::{Scheme, Tile, Word};
use tile_word::word_of;

/// The frontier of level 0: the root alone.
pub fn first_roots(alloc: Global, scheme: Scheme) -> Result<Vec<Word>, AllocError>
    ensures { IfOk result (λ roots. roots.items ≡ word scheme root 0 ∷ []) }
{
    let mut roots = Vec::new(alloc);
    roots.push(word_of(scheme, &Tile::root(), 0))?;
    Ok(roots)
}
