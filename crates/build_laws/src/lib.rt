//! What follows for files that are made of given tiles: the files hold these tiles and no others, each with its
//! contents. Each law is the contract of a function that does nothing, and a lemma of `proofs/` to cite.
#![tactic(auto)]

ghost use Rattle.build_laws.specs.Laws.{MadeSubtreesAreGood, MadeFilesHoldTheTiles, AllTilesAreTheAnswer};

/// Each subtree that is made of whole words is one of the layout, and breaks no rule between its bits.
pub fn made_subtrees_are_good()
    ensures { MadeSubtreesAreGood }
{}

/// Where the files stand that are made of some tiles, these tiles are available and no others, each with its
/// contents, and no file that is reached has a fault.
pub fn made_files_hold_the_tiles()
    ensures { MadeFilesHoldTheTiles }
{}

/// Where files hold some tiles, the answer for all tiles is these, in key order and up to the most of an answer.
pub fn all_tiles_are_the_answer()
    ensures { AllTilesAreTheAnswer }
{}
