// The files of a tileset.
ghost use Rattle.std.specs.Prelude.{◌≡◌, ◌≢◌, ◌≤◌, ◌<◌, ◌^◌, codes, length, Ok, Err, OnOk, IfOk, IfErr};
ghost use Rattle.std.specs.List.{All};
ghost use Rattle.implicit_tiling.specs.Code.{word_mask};
ghost use Rattle.implicit_tiling.specs.Tile.{Tile};
ghost use Rattle.implicit_tileset.specs.Scene.{layout_in, scene_of, subtree_name};
ghost use Rattle.scene_ports.specs.Counts.{Rose};
ghost use Rattle.scene_ports.specs.Files.{HasDistinctNames};
ghost use Rattle.scene_ports.specs.Keeper.{PutsKnown};
ghost use Rattle.tileset_write.specs.LayoutText.{layout_text as text_of, IsLayout};
ghost use Rattle.build_laws.specs.Made.{made_files};
ghost use Rattle.build_laws.specs.Holds.{HoldsTiles};
ghost use Rattle.tile_builder.specs.Puts.{ArePut, Stops, IfTold};
ghost use Rattle.tileset_make.specs.Recipes.{tileset_files};

use scene_ports::{FileKeeper, Put};
use std::alloc::Global;
use tile_builder::{BuildStop, Built, Occupancy, build, layout_text};
use tileset_json::Layout;

// Puts the files of a layout and tiles: the subtree files, and `tileset.json` as the last, whose name is that of none
// of them. After a stop the files before the one at which it stopped were put, and no later one.
pub(crate) fn put_tileset<K: FileKeeper>(
    alloc: Global,
    occupancy: &Occupancy,
    layout: &Layout,
    keeper: &mut K,
) -> Result<Built, BuildStop>
    requires scheme { occupancy.now.scheme ≡ layout.now.scheme }
    requires levels { occupancy.now.levels ≡ layout.now.levels }
    requires masks { All (λ w. word_mask w < 2 ^ length layout.now.contents) occupancy.now.words }
    requires names { HasDistinctNames (made_files layout.now occupancy.now.words) }
    requires apart { (t : Tile) → subtree_name layout.now t ≢ codes "tileset.json" }
    requires layout { IsLayout layout.now }
    ensures kept { IfOk result
        (λ built. IfTold (K.kept keeper.old) (K.kept keeper.new)
        (ArePut (tileset_files layout.now occupancy.now.words))) }
    ensures layout { IfOk result (λ built. IfTold (K.kept keeper.old) (K.kept keeper.new)
        (λ before now. layout_in now ≡ Ok layout.now)) }
    ensures holds { IfOk result (λ built. IfTold (K.kept keeper.old) (K.kept keeper.new)
        (λ before now. HoldsTiles (scene_of now layout.now) occupancy.now.words)) }
    ensures files { IfOk result (λ built. built.files ≡ length (tileset_files layout.now occupancy.now.words)) }
    ensures tiles { IfOk result (λ built. built.tiles ≡ length occupancy.now.words) }
    ensures stopped { IfErr result (λ stop. IfTold (K.kept keeper.old) (K.kept keeper.new)
        (λ before now. Stops (tileset_files layout.now occupancy.now.words) before now stop)) }
    ensures failed { result ≡ Err BuildStop.Failed → Rose (K.faults keeper.old) (K.faults keeper.new) }
    ensures later { K.faults keeper.old ≤ K.faults keeper.new }
{
    let built = build(alloc, occupancy, layout, keeper)?;
    put_layout(alloc, layout, keeper)?;
    // Each subtree file has a tile, but for that of no tiles at all.
    prove!(occupancy.words().len() < usize::MAX);
    Ok(Built {
        files: built.files + 1,
        tiles: built.tiles,
    })
}

// Puts `tileset.json`.
fn put_layout<K: FileKeeper>(
    alloc: Global,
    layout: &Layout,
    keeper: &mut K,
) -> Result<(), BuildStop>
    ensures put { OnOk result (PutsKnown (codes "tileset.json") (text_of layout.now) (K.kept keeper.old)
        (K.kept keeper.new) Put.Kept) }
    ensures others { result ≡ Err BuildStop.Failed
        → PutsKnown (codes "tileset.json") (text_of layout.now) (K.kept keeper.old) (K.kept keeper.new) Put.Failed }
    ensures same { result ≡ Err BuildStop.Memory → K.kept keeper.new ≡ K.kept keeper.old }
    ensures failed { result ≡ Err BuildStop.Failed → Rose (K.faults keeper.old) (K.faults keeper.new) }
    ensures later { K.faults keeper.old ≤ K.faults keeper.new }
{
    let mut text = Vec::new(alloc);
    layout_text(alloc, layout, &mut text)?;
    match keeper.put("tileset.json", &text) {
        Put::Kept => Ok(()),
        Put::Failed => Err(BuildStop::Failed),
        Put::Memory => Err(BuildStop::Memory),
    }
}
