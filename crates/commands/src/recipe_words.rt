// The words of a recipe, which `make` and `survey` take.
ghost use Rattle.std.specs.Prelude.{◌≡◌, Some, None, Err, drop, map, string_bytes, IfOk};
ghost use Rattle.commands.specs.Words.{scheme_of_word, recipe_of_words, without_dashes};

use crate::words::{WordFault, matches_of};
use request_text::read_number;
use std::alloc::Global;
use tile_coords::Scheme;
use tileset_make::Recipe;

/// The recipe that the words behind a command's name write: SCHEME LEVELS SUBTREE CONTENTS POINTS NUMBER.
#[tactic(auto, using(crate::proofs::Given::no_recipe))]
pub(crate) fn recipe_of(alloc: Global, name: &str, words: &[String]) -> Result<Recipe, WordFault>
    ensures taken { IfOk result (λ recipe. recipe_of_words (without_dashes (drop 1 (map string_bytes words.now)))
        ≡ Some recipe) }
    ensures refused { result ≡ Err WordFault.Usage
        → recipe_of_words (without_dashes (drop 1 (map string_bytes words.now))) ≡ None }
{
    let matches = matches_of(alloc, name, words)?;
    let Some(values) = matches.get_strs("values") else {
        return Err(WordFault::Usage);
    };
    read_recipe(values).ok_or(WordFault::Usage)
}

// The recipe of six words of their forms, each number in its range.
fn read_recipe(words: &[&str]) -> Option<Recipe>
    ensures { result ≡ recipe_of_words (map (λ word. word.now) words.now) }
{
    match words {
        [scheme, levels, subtree_levels, contents, points, number] => Recipe::new(
            read_scheme(scheme)?,
            read_number(levels.as_bytes())?,
            read_number(subtree_levels.as_bytes())?,
            read_number(contents.as_bytes())?,
            read_number(points.as_bytes())?,
            read_number(number.as_bytes())?,
        ),
        _ => None,
    }
}

fn read_scheme(word: &str) -> Option<Scheme>
    ensures { result ≡ scheme_of_word word.now }
{
    match word {
        "quadtree" => Some(Scheme::Quad),
        "octree" => Some(Scheme::Oct),
        _ => None,
    }
}
