// Laws for callers that read the files of a layout (this project's own).
ghost use Rattle.region_cursor.specs.Laws.{WalksStay, NextRootIsOfTheKey, NextKeysAreOfRootTiles, OutcomesFit};
ghost use Rattle.region_cursor.specs.Laws.{WordsAreOfTheLayout, EndsAreWithinTheLayout};

/// A walk stays one of its layout and region.
pub fn a_walk_stays_of_its_layout()
    ensures { WalksStay }
{}

/// The root of the next step is the tile of the next key.
pub fn the_next_root_is_of_the_key()
    ensures { NextRootIsOfTheKey }
{}

/// The tile of the next key is one with which a subtree of the layout may begin.
pub fn the_tile_of_the_key_is_a_root()
    ensures { NextKeysAreOfRootTiles }
{}

/// What is read of the file of the next key's tile, from any source, fits the next step.
pub fn an_outcome_of_the_key_fits()
    ensures { OutcomesFit }
{}

/// The words of a step are those of tiles of the layout, whatever the outcome holds.
pub fn words_are_of_the_layout()
    ensures { WordsAreOfTheLayout }
{}

/// The fault of a step over what is read, from any source, has a root of the layout and a number of the table.
pub fn ends_are_within_the_layout()
    ensures { EndsAreWithinTheLayout }
{}
