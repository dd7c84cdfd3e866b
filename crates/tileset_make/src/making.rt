// Making the files of a recipe.
ghost use Rattle.std.specs.Prelude.{◌≡◌, ◌≤◌, length, Ok, Err, IfOk, IfErr};
ghost use Rattle.implicit_tileset.specs.Scene.{layout_in, scene_of};
ghost use Rattle.scene_ports.specs.Counts.{Rose};
ghost use Rattle.scene_ports.specs.Files.{HasDistinctNames};
ghost use Rattle.tile_occupancy.specs.Occupied.{IsOccupancy};
ghost use Rattle.build_laws.specs.Holds.{HoldsTiles};
ghost use Rattle.tile_builder.specs.Puts.{ArePut, Stops, IfTold};
ghost use Rattle.tileset_make.specs.Recipes.{recipe_layout, recipe_words, recipe_files};

use crate::layout::layout_of;
use crate::recipe::Recipe;
use crate::tileset::put_tileset;
use scene_ports::FileKeeper;
use std::alloc::Global;
use tile_builder::{BuildStop, Built, generate};

/// Puts the files of a recipe: the file of the root and of each subtree that has a tile, in key order, and
/// `tileset.json` as the last (OGC 22-025r4, implicit tiling: subtrees, implicit root tile). Then the files hold a
/// tileset of the recipe's layout, with the recipe's tiles and no others, each with its contents. After a stop the
/// files before the one at which it stopped were put, and no later one.
pub fn make<K: FileKeeper>(
    alloc: Global,
    recipe: &Recipe,
    keeper: &mut K,
) -> Result<Built, BuildStop>
    ensures kept { IfOk result
        (λ built. IfTold (K.kept keeper.old) (K.kept keeper.new) (ArePut (recipe_files recipe.now))) }
    ensures names { IfOk result (λ built. HasDistinctNames (recipe_files recipe.now)) }
    ensures layout { IfOk result (λ built. IfTold (K.kept keeper.old) (K.kept keeper.new)
        (λ before now. layout_in now ≡ Ok (recipe_layout recipe.now))) }
    ensures holds { IfOk result (λ built. IfTold (K.kept keeper.old) (K.kept keeper.new)
        (λ before now. HoldsTiles (scene_of now (recipe_layout recipe.now)) (recipe_words recipe.now))) }
    ensures whole { IfOk result (λ built. IsOccupancy recipe.now.scheme recipe.now.levels (recipe_words recipe.now)) }
    ensures files { IfOk result (λ built. built.files ≡ length (recipe_files recipe.now)) }
    ensures tiles { IfOk result (λ built. built.tiles ≡ length (recipe_words recipe.now)) }
    ensures stopped { IfErr result (λ stop. IfTold (K.kept keeper.old) (K.kept keeper.new)
        (λ before now. Stops (recipe_files recipe.now) before now stop)) }
    ensures failed { result ≡ Err BuildStop.Failed → Rose (K.faults keeper.old) (K.faults keeper.new) }
    ensures later { K.faults keeper.old ≤ K.faults keeper.new }
{
    let layout = layout_of(alloc, recipe)?;
    let occupancy = generate(
        alloc,
        recipe.scheme,
        recipe.levels,
        recipe.contents,
        recipe.points,
        recipe.number,
    )?;
    put_tileset(alloc, &occupancy, &layout, keeper)
}
