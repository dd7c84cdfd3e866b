//! Tiles as words: a word has a tile's level, a mask of its contents and its Morton index, in the order of keys. No
//! other crate computes with the parts of a word.
#![tactic(auto)]

mod index;
mod word;
pub mod word_laws;

pub use index::{index_of, nodes_at, tile_at};
pub use tile_coords::Word;
pub use word::{
    WordTile, index_in, is_word, key_of, level_of, mask_of, tile_of, word_after, word_at, word_of,
    word_tile,
};

#[cfg(test)]
mod tests;
