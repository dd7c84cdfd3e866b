// The file of one subtree, made in memory that is used again for the next.
ghost use Rattle.std.specs.Prelude.{◌≡◌, [], OnOk, string_bytes};
ghost use Rattle.implicit_tileset.specs.Scene.{subtree_name};
ghost use Rattle.subtree_write.specs.Canonical.{canonical};
ghost use Rattle.build_laws.specs.Holds.{AreWordsOf};
ghost use Rattle.build_laws.specs.Made.{made_subtree as made_subtree_of};
ghost use Rattle.implicit_tiling.specs.Availability.{IsRootOf};

use crate::subtree::made_subtree;
use std::alloc::{AllocError, Global};
use subtree_write::encode;
use tile_coords::{Tile, Word};
use tileset_json::Layout;

// The name and the bytes of a file.
#[derive(Drop)]
pub(crate) struct MadeFile {
    pub name: String,
    pub bytes: Vec<u8>,
}

impl MadeFile {
    pub fn new(alloc: Global) -> MadeFile
        ensures name { string_bytes result.name ≡ [] }
        ensures bytes { result.bytes.items ≡ [] }
    {
        MadeFile {
            name: String::new(alloc),
            bytes: Vec::new(alloc),
        }
    }

    // Makes it the file of a root. An Err leaves any name and bytes.
    pub fn make(
        &mut self,
        alloc: Global,
        layout: &Layout,
        words: &[Word],
        root: Tile,
    ) -> Result<(), AllocError>
        requires words { AreWordsOf layout.now words.now }
        requires root { IsRootOf layout.now root }
        ensures name { OnOk result (string_bytes self.new.name ≡ subtree_name layout.now root) }
        ensures bytes { OnOk result (self.new.bytes.items ≡ canonical (made_subtree_of layout.now words.now root)) }
    {
        self.name.clear();
        let coordinates = [root.x, root.y, root.z];
        layout.subtree.fill(
            layout.scheme.axes(),
            root.level,
            coordinates,
            &mut self.name,
        )?;
        let subtree = made_subtree(alloc, layout, words, root)?;
        self.bytes.clear();
        encode(alloc, &subtree, &mut self.bytes)
    }
}
