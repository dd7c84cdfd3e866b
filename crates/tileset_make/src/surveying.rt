// Surveys of recipes.
ghost use Rattle.std.specs.Prelude.{◌≡◌, ◌≤◌, ◌↔◌, length, sum_by, count_ones, IfOk, IfSome, IsSome, IsTrue};
ghost use Rattle.std.specs.List.{All};
ghost use Rattle.implicit_tiling.specs.Answer.{most_tiles};
ghost use Rattle.implicit_tiling.specs.Limits.{most_contents};
ghost use Rattle.implicit_tiling.specs.Code.{word_mask, IsWord};
ghost use Rattle.implicit_tileset.specs.Scene.{scene_of};
ghost use Rattle.walk_laws.specs.Regions.{whole};
ghost use Rattle.tile_word.specs.Answers.{IsAnswer};
ghost use Rattle.subtree_outcome.specs.Found.{AreTilesOf};
ghost use Rattle.tile_occupancy.specs.Occupied.{IsOccupancy};
ghost use Rattle.build_laws.specs.Holds.{HoldsTiles};
ghost use Rattle.tileset_make.specs.Recipes.{recipe_layout, recipe_words, recipe_files, survey_of};

use crate::found::Survey;
use crate::layout::layout_of;
use crate::making::make;
use crate::recipe::Recipe;
use framed_walk::framed;
use scene_ports::{FileSource, SureFiles, SureKeeper};
use std::alloc::{AllocError, Global};
use subtree_outcome::WalkStop;
use tile_builder::{BuildStop, Built};
use tile_coords::{WalkEnd, Word};
use tile_walk::whole_plan;
use tile_word::mask_of;
use tileset_json::Layout;

// The frames of the walk over all tiles.
const FRAMES: usize = 4;

/// Makes the tileset of a recipe in memory, and walks the region of all its tiles. An error is want of memory.
pub fn survey(alloc: Global, recipe: &Recipe) -> Result<Survey, AllocError>
    ensures { IfOk result (λ found. found ≡ survey_of recipe.now) }
{
    let (built, mut files) = made_in_memory(alloc, recipe)?;
    let layout = layout_of(alloc, recipe)?;
    let (words, end) = all_words(alloc, &mut files, &layout)?;
    Ok(Survey {
        files: built.files,
        tiles: built.tiles,
        listed: words.len() as u64,
        contents: count_contents(&words),
        more: is_cut(end),
    })
}

// The tileset of a recipe, as files in memory.
fn made_in_memory(alloc: Global, recipe: &Recipe) -> Result<(Built, SureFiles), AllocError>
    ensures files { IfOk result (λ made. made.0.files ≡ length (recipe_files recipe.now)) }
    ensures tiles { IfOk result (λ made. made.0.tiles ≡ length (recipe_words recipe.now)) }
    ensures told { IfOk result (λ made. IsSome (⟦<SureFiles as FileSource>⟧.told made.1)) }
    ensures holds { IfOk result (λ made. IfSome (⟦<SureFiles as FileSource>⟧.told made.1)
        (λ all. HoldsTiles (scene_of all (recipe_layout recipe.now)) (recipe_words recipe.now))) }
    ensures whole { IfOk result (λ made. IsOccupancy recipe.now.scheme recipe.now.levels (recipe_words recipe.now)) }
{
    let mut keeper = SureKeeper::new(alloc);
    let built = match make(alloc, recipe, &mut keeper) {
        Ok(built) => built,
        Err(BuildStop::Memory) => return Err(AllocError),
        Err(BuildStop::Failed) => unreachable!(),
    };
    match SureFiles::new(keeper.into_files()) {
        Some(files) => Ok((built, files)),
        None => unreachable!(),
    }
}

// The words of the answer for all tiles, and its end.
fn all_words(
    alloc: Global,
    files: &mut SureFiles,
    layout: &Layout,
) -> Result<(Vec<Word>, WalkEnd), AllocError>
    ensures answer { IfOk result (λ found. IfSome (⟦<SureFiles as FileSource>⟧.told files.old)
        (λ all. IsAnswer (scene_of all layout.now) (whole layout.now.scheme layout.now.levels) found.0.items
        found.1)) }
    ensures found { IfOk result (λ found. AreTilesOf layout.now found.0.items) }
{
    let mut words = Vec::new(alloc);
    let plan = whole_plan(layout);
    match framed(alloc, files, layout, &plan, FRAMES, &mut words) {
        Ok(end) => Ok((words, end)),
        Err(WalkStop::Memory) => Err(AllocError),
        Err(WalkStop::ReadFault) => unreachable!(),
    }
}

// Whether an answer ends at the most tiles, with more behind them.
fn is_cut(end: WalkEnd) -> bool
    ensures { IsTrue result ↔ (end ≡ WalkEnd.TooMany) }
{
    matches!(end, WalkEnd::TooMany)
}

// The contents of the tiles of some words.
fn count_contents(words: &[Word]) -> u64
    requires { length words.now ≤ most_tiles }
    ensures { result ≡ sum_by (λ w. count_ones (word_mask w)) words.now }
{
    let mut contents = 0;
    for word in words {
        contents += contents_at(*word);
    }
    contents
}

// The contents of the tile of a word.
fn contents_at(word: Word) -> u64
    ensures ones { result ≡ count_ones (word_mask word) }
    ensures few { result ≤ most_contents }
{
    u64::from(mask_of(word).count_ones())
}
