// The subtree of a root.
ghost use Rattle.std.specs.Prelude.{◌≡◌, ◌<◌, ◌≤◌, IfOk};
ghost use Rattle.tile_occupancy.specs.Occupied.{IsOccupancy};
ghost use Rattle.build_laws.specs.Holds.{AreWordsOf};
ghost use Rattle.build_laws.specs.Made.{made_subtree as made_subtree_of};
ghost use Rattle.implicit_tiling.specs.Availability.{IsRootOf};
ghost use Rattle.tile_builder.specs.Runs.{inner_words as inner_words_of};

use crate::bits::{child_bits, content_bits, node_bits, node_places};
use crate::runs::words_below;
use availability::Subtree;
use std::alloc::{AllocError, Global};
use tile_coords::{Tile, Word};
use tileset_json::Layout;

// The subtree that begins with a root, of the tiles of some words: the tiles in it, their contents, and the subtrees
// right below it (OGC 22-025r4, implicit tiling: subtrees).
pub(crate) fn made_subtree(
    alloc: Global,
    layout: &Layout,
    words: &[Word],
    root: Tile,
) -> Result<Subtree, AllocError>
    requires words { AreWordsOf layout.now words.now }
    requires root { IsRootOf layout.now root }
    ensures { IfOk result (λ subtree. subtree ≡ made_subtree_of layout.now words.now root) }
{
    let inner = inner_words(alloc, layout, words, &root)?;
    let places = node_places(alloc, layout, &inner)?;
    let roots = words_below(layout, words, &root, layout.subtree_levels);
    Ok(Subtree {
        scheme: layout.scheme,
        levels: layout.subtree_levels,
        cut: layout.levels,
        root,
        tiles: node_bits(alloc, layout, &places)?,
        contents: content_bits(alloc, layout, &inner, &places)?,
        child: child_bits(alloc, layout, roots)?,
    })
}

// The words of the tiles in the subtree of a root, level by level.
fn inner_words(
    alloc: Global,
    layout: &Layout,
    words: &[Word],
    root: &Tile,
) -> Result<Vec<Word>, AllocError>
    requires whole { IsOccupancy layout.now.scheme layout.now.levels words.now }
    requires root { IsRootOf layout.now root.now }
    ensures { IfOk result (λ inner. inner.items ≡ inner_words_of layout.now words.now root.now) }
{
    let mut inner = Vec::new(alloc);
    for level in 0..layout.subtree_levels {
        inner.extend_from_slice(words_below(layout, words, root, level))?;
    }
    Ok(inner)
}
