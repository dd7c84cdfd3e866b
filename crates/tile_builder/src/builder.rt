// The subtree files of an occupancy.
ghost use Rattle.std.specs.Prelude.{◌≡◌, ◌<◌, ◌≤◌, ◌^◌, length, Err, IfOk, IfErr, OnOk};
ghost use Rattle.std.specs.List.{All};
ghost use Rattle.implicit_tiling.specs.Code.{word_mask};
ghost use Rattle.implicit_tileset.specs.Scene.{scene_of, subtree_name};
ghost use Rattle.scene_ports.specs.Counts.{Rose};
ghost use Rattle.scene_ports.specs.Files.{HasDistinctNames};
ghost use Rattle.scene_ports.specs.Keeper.{PutsKnown};
ghost use Rattle.subtree_write.specs.Canonical.{canonical};
ghost use Rattle.build_laws.specs.Made.{made_files, made_roots, made_subtree};
ghost use Rattle.build_laws.specs.Holds.{AreWordsOf, HoldsTiles};
ghost use Rattle.tile_builder.specs.Puts.{ArePut, Stops, IfTold, put_of};
ghost use Rattle.implicit_tiling.specs.Availability.{IsRootOf};

use crate::file::MadeFile;
use scene_ports::{FileKeeper, Put};
use std::alloc::{AllocError, Global};
use tile_coords::{Tile, Word};
use tile_occupancy::Occupancy;
use tile_word::word_tile;
use tileset_json::Layout;

/// What was built.
#[derive(Clone, Copy, Debug, PartialEq, Eq)]
pub struct Built {
    /// The subtree files.
    pub files: u64,
    /// The tiles of the occupancy.
    pub tiles: u64,
}

/// Why files were not all put.
#[derive(Clone, Copy, Debug, PartialEq, Eq)]
pub enum BuildStop {
    /// The keeper failed at a file, and has counted a fault.
    Failed,
    /// There was no memory.
    Memory,
}

impl From<AllocError> for BuildStop {
    ghost use Rattle.tile_builder.specs.declared.builder.BuildStop.TheVariants.{Memory};

    ghost from_gives = { λ _ stop. stop ≡ Memory };

    fn from(_error: AllocError) -> BuildStop {
        BuildStop::Memory
    }
}

/// Puts the file of the root and of each subtree that has a tile, in key order, one of them in memory at a time (OGC
/// 22-025r4, implicit tiling: subtrees). Then the files hold the tiles of the occupancy and no others, each with its
/// contents. An occupancy of no tiles has the file of the root alone. After a stop the files before the one at which it
/// stopped were put, and no later one.
///
/// The occupancy has the scheme and the levels of the layout, its masks name contents of the layout alone, and the
/// names of the files differ. For each level of a subtree its tiles are found in as many steps as the number of tiles
/// has binary digits.
pub fn build<K: FileKeeper>(
    alloc: Global,
    occupancy: &Occupancy,
    layout: &Layout,
    keeper: &mut K,
) -> Result<Built, BuildStop>
    requires scheme { occupancy.now.scheme ≡ layout.now.scheme }
    requires levels { occupancy.now.levels ≡ layout.now.levels }
    requires masks { All (λ w. word_mask w < 2 ^ length layout.now.contents) occupancy.now.words }
    requires names { HasDistinctNames (made_files layout.now occupancy.now.words) }
    ensures kept { IfOk result
        (λ built. IfTold (K.kept keeper.old) (K.kept keeper.new)
        (ArePut (made_files layout.now occupancy.now.words))) }
    ensures holds { IfOk result (λ built. IfTold (K.kept keeper.old) (K.kept keeper.new)
        (λ before now. HoldsTiles (scene_of now layout.now) occupancy.now.words)) }
    ensures files { IfOk result (λ built. built.files ≡ length (made_roots layout.now occupancy.now.words)) }
    ensures tiles { IfOk result (λ built. built.tiles ≡ length occupancy.now.words) }
    ensures stopped { IfErr result (λ stop. IfTold (K.kept keeper.old) (K.kept keeper.new)
        (λ before now. Stops (made_files layout.now occupancy.now.words) before now stop)) }
    ensures failed { result ≡ Err BuildStop.Failed → Rose (K.faults keeper.old) (K.faults keeper.new) }
    ensures later { K.faults keeper.old ≤ K.faults keeper.new }
{
    prove_eq!(occupancy.levels(), layout.levels);
    let words = occupancy.words();
    let files = put_files(alloc, layout, words, keeper)?;
    Ok(Built {
        files,
        tiles: words.len() as u64,
    })
}

// Puts the file of the root and of each subtree that has a tile, and answers how many these are.
fn put_files<K: FileKeeper>(
    alloc: Global,
    layout: &Layout,
    words: &[Word],
    keeper: &mut K,
) -> Result<u64, BuildStop>
    requires words { AreWordsOf layout.now words.now }
    requires names { HasDistinctNames (made_files layout.now words.now) }
    ensures kept { IfOk result
        (λ files. IfTold (K.kept keeper.old) (K.kept keeper.new) (ArePut (made_files layout.now words.now))) }
    ensures files { IfOk result (λ files. files ≡ length (made_roots layout.now words.now)) }
    ensures stopped { IfErr result (λ stop. IfTold (K.kept keeper.old) (K.kept keeper.new)
        (λ before now. Stops (made_files layout.now words.now) before now stop)) }
    ensures failed { result ≡ Err BuildStop.Failed → Rose (K.faults keeper.old) (K.faults keeper.new) }
    ensures later { K.faults keeper.old ≤ K.faults keeper.new }
{
    let mut file = MadeFile::new(alloc);
    if words.is_empty() {
        put_file(alloc, layout, words, Tile::root(), &mut file, keeper)?;
        return Ok(1);
    }
    let mut files = 0;
    for &word in words {
        let tile = word_tile(layout.scheme, word);
        if tile.level % layout.subtree_levels == 0 {
            put_file(alloc, layout, words, tile, &mut file, keeper)?;
            files += 1;
        }
    }
    Ok(files)
}

// Makes the file of a root and puts it.
fn put_file<K: FileKeeper>(
    alloc: Global,
    layout: &Layout,
    words: &[Word],
    root: Tile,
    file: &mut MadeFile,
    keeper: &mut K,
) -> Result<(), BuildStop>
    requires words { AreWordsOf layout.now words.now }
    requires root { IsRootOf layout.now root }
    ensures kept { OnOk result (PutsKnown (subtree_name layout.now root)
        (canonical (made_subtree layout.now words.now root)) (K.kept keeper.old) (K.kept keeper.new) Put.Kept) }
    ensures stopped { IfErr result
        (λ stop. PutsKnown (subtree_name layout.now root) (canonical (made_subtree layout.now words.now root))
        (K.kept keeper.old) (K.kept keeper.new) (put_of stop)) }
    ensures failed { result ≡ Err BuildStop.Failed → Rose (K.faults keeper.old) (K.faults keeper.new) }
    ensures later { K.faults keeper.old ≤ K.faults keeper.new }
{
    file.make(alloc, layout, words, root)?;
    match keeper.put(file.name.as_str(), &file.bytes) {
        Put::Kept => Ok(()),
        Put::Failed => Err(BuildStop::Failed),
        Put::Memory => Err(BuildStop::Memory),
    }
}
