// What a tileset is generated from.
ghost use Rattle.std.specs.Prelude.{◌≡◌};
ghost use Rattle.tileset_make.specs.Ranges.{IsInRange, is_in_range as is_in_range_of};

use tile_coords::Scheme;
use tileset_json::MOST_CONTENTS;

// The most points of a recipe.
const MOST_POINTS: u32 = 10_000;

/// What a tileset is generated from (this project's own).
#[derive(Clone, Copy, Debug, PartialEq, Eq)]
pub struct Recipe {
    pub scheme: Scheme,
    /// The levels in all: 1 to 32 in a quadtree, 1 to 21 in an octree.
    pub levels: u32,
    /// The levels of a subtree: 1 to 10 in a quadtree, 1 to 7 in an octree.
    pub subtree_levels: u32,
    /// The contents: 0 to 16.
    pub contents: u32,
    /// The points of the last level: 1 to 10,000.
    pub points: u32,
    /// What spreads the points: any number.
    pub number: u32,
    ghost in_range: { IsInRange scheme levels subtree_levels contents points },
}

impl Recipe {
    ghost use Rattle.tileset_make.specs.Chosen.{recipe_of};

    /// The recipe of these numbers. None exactly where one is out of its range.
    pub fn new(
        scheme: Scheme,
        levels: u32,
        subtree_levels: u32,
        contents: u32,
        points: u32,
        number: u32,
    ) -> Option<Recipe>
        ensures { result ≡ recipe_of scheme levels subtree_levels contents points number }
    {
        if !is_in_range(scheme, levels, subtree_levels, contents, points) {
            return None;
        }
        Some(Recipe {
            scheme,
            levels,
            subtree_levels,
            contents,
            points,
            number,
        })
    }
}

fn is_in_range(scheme: Scheme, levels: u32, subtree_levels: u32, contents: u32, points: u32) -> bool
    ensures { result ≡ is_in_range_of scheme levels subtree_levels contents points }
{
    (1..=scheme.most_levels()).contains(&levels)
        && (1..=scheme.most_subtree_levels()).contains(&subtree_levels)
        && contents as usize <= MOST_CONTENTS
        && (1..=MOST_POINTS).contains(&points)
}
