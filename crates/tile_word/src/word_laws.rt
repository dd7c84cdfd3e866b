// Laws of the words of tiles (this project's own).
ghost use Rattle.tile_word.specs.Words.{WordsHaveTheirParts, PartsHaveTheirWord, WordsAreOrderedAsKeys};

/// A word gives its tile and its mask back, and has 64 bits.
pub fn a_word_has_its_parts()
    ensures { WordsHaveTheirParts }
{}

/// What is a word is that of its parts, which are a tile within the limits and a mask.
pub fn parts_have_their_word()
    ensures { PartsHaveTheirWord }
{}

/// Words of one mask are ordered as the keys of their tiles, and words of a higher level are greater for any masks.
pub fn words_are_ordered_as_keys()
    ensures { WordsAreOrderedAsKeys }
{}
