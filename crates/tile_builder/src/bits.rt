// The bits of a subtree that stand for the tiles of some words.
ghost use Rattle.std.specs.Prelude.{◌≡◌, ◌++◌, ◌<◌, ◌≤◌, ℕ, IfOk, OnOk, filter, map};
ghost use Rattle.std.specs.List.{All};
ghost use Rattle.implicit_tiling.specs.Code.{IsWord};
ghost use Rattle.implicit_tiling.specs.Limits.{most_contents};
ghost use Rattle.build_laws.specs.Made.{tile_in, child_bits as child_bits_of, child_place as child_place_of};
ghost use Rattle.build_laws.specs.Made.{has_content};
ghost use Rattle.implicit_tiling.specs.Availability.{place};
ghost use Rattle.implicit_tiling.specs.Subtree.{node_count};
ghost use Rattle.bitstream.specs.Bits.{bits_of_places};
ghost use Rattle.tile_builder.specs.Bits.{node_places as node_places_of, content_bits as content_bits_of};

use availability::nodes_above;
use bitstream::Bits;
use std::alloc::{AllocError, Global};
use tile_coords::Word;
use tile_word::{index_of, mask_of, nodes_at, word_tile};
use tileset_json::Layout;

// The places of the tiles of some words among the nodes of their subtrees.
pub(crate) fn node_places(
    alloc: Global,
    layout: &Layout,
    words: &[Word],
) -> Result<Vec<u64>, AllocError>
    requires { All (IsWord layout.now.scheme) words.now }
    ensures { IfOk result (λ places. places.items ≡ node_places_of layout.now words.now) }
{
    let mut places = Vec::with_capacity(alloc, words.len())?;
    for &word in words {
        places.push(node_place(layout, word))?;
    }
    Ok(places)
}

// The place of a tile among the nodes of its subtree.
fn node_place(layout: &Layout, word: Word) -> u64
    requires { IsWord layout.now.scheme word }
    ensures { result ≡ place layout.now (tile_in layout.now word) }
{
    let tile = word_tile(layout.scheme, word);
    let local = tile.level % layout.subtree_levels;
    nodes_above(layout.scheme, local)
        + index_of(layout.scheme, &tile) % nodes_at(layout.scheme, local)
}

// A bit for each node of a subtree: those at the places are 1 (OGC 22-025r4, tile availability).
pub(crate) fn node_bits(alloc: Global, layout: &Layout, places: &[u64]) -> Result<Bits, AllocError>
    requires { All (λ p. p < node_count layout.now.scheme layout.now.subtree_levels) places.now }
    ensures { IfOk result
        (λ bits. bits ≡ bits_of_places (node_count layout.now.scheme layout.now.subtree_levels) places.now) }
{
    Bits::of_places(
        alloc,
        nodes_above(layout.scheme, layout.subtree_levels),
        places,
    )
}

// A bit for each child subtree: those with the roots of the words are 1 (OGC 22-025r4, child subtree availability).
pub(crate) fn child_bits(alloc: Global, layout: &Layout, roots: &[Word]) -> Result<Bits, AllocError>
    requires { All (IsWord layout.now.scheme) roots.now }
    ensures { IfOk result (λ bits. bits ≡ child_bits_of layout.now roots.now) }
{
    let mut places = Vec::with_capacity(alloc, roots.len())?;
    for &root in roots {
        places.push(child_place(layout, root))?;
    }
    Bits::of_places(
        alloc,
        nodes_at(layout.scheme, layout.subtree_levels),
        &places,
    )
}

// The place of a root among the child subtrees of the subtree above.
fn child_place(layout: &Layout, root: Word) -> u64
    requires { IsWord layout.now.scheme root }
    ensures { result ≡ child_place_of layout.now root }
{
    let tile = word_tile(layout.scheme, root);
    index_of(layout.scheme, &tile) % nodes_at(layout.scheme, layout.subtree_levels)
}

// The bits of each content: one bit for each node of a subtree, which is 1 where a word with the content has its
// place there (OGC 22-025r4, content availability).
pub(crate) fn content_bits(
    alloc: Global,
    layout: &Layout,
    words: &[Word],
    places: &[u64],
) -> Result<Vec<Bits>, AllocError>
    requires { places.now ≡ node_places_of layout.now words.now }
    ensures { IfOk result (λ contents. contents.items ≡ content_bits_of layout.now words.now) }
{
    let mut contents = Vec::new(alloc);
    let mut held = Vec::new(alloc);
    for content in 0..layout.contents.len() {
        held.clear();
        append_held(words, places, content, &mut held)?;
        contents.push(node_bits(alloc, layout, &held)?)?;
    }
    Ok(contents)
}

// Appends the places of the words with a content.
fn append_held(
    words: &[Word],
    places: &[u64],
    content: usize,
    held: &mut Vec<u64>,
) -> Result<(), AllocError>
    requires { content < most_contents }
    ensures { (place : ℕ → ℕ) → places.now ≡ map place words.now
        → OnOk result (held.new.items ≡ held.old.items ++ map place (filter (has_content content) words.now)) }
{
    for (word, place) in words.iter().zip(places) {
        if mask_of(*word) >> content & 1 == 1 {
            held.push(*place)?;
        }
    }
    Ok(())
}
