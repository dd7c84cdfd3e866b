// The folder of the file of a subtree root.
ghost use Rattle.std.specs.Prelude.{◌≡◌, IfOk, option_map, string_bytes};
ghost use Rattle.implicit_tileset.specs.BufferFiles.{folder_of as stated_folder, root_folder as stated_root_folder};
ghost use Rattle.subtree_file.specs.Needed.{joined};

use std::alloc::{AllocError, Global};
use tile_coords::Tile;
use tileset_json::Layout;

// The front of the name of a root's file, up to and with its last slash.
pub(crate) fn root_folder(alloc: Global, layout: &Layout, root: Tile) -> Result<String, AllocError>
    ensures { IfOk result (λ folder. string_bytes folder ≡ stated_root_folder layout.now root) }
{
    let mut name = String::new(alloc);
    let coordinates = [root.x, root.y, root.z];
    layout
        .subtree
        .fill(layout.scheme.axes(), root.level, coordinates, &mut name)?;
    folder_of(alloc, name.as_str())
}

// A name up to and with its last slash; nothing where it has none.
fn folder_of(alloc: Global, name: &str) -> Result<String, AllocError>
    ensures { IfOk result (λ folder. string_bytes folder ≡ stated_folder name.now) }
{
    let split = name.rsplit_once('/');
    folder_from(alloc, split)
}

// The folder, by the two texts around the last slash.
fn folder_from(alloc: Global, split: Option<(&str, &str)>) -> Result<String, AllocError>
    ensures { IfOk result (λ folder. string_bytes folder ≡ joined (option_map (λ x. (x.0.now, x.1.now)) split.entry)) }
{
    match split {
        None => Ok(String::new(alloc)),
        Some((front, _)) => {
            let mut folder = String::from_str(alloc, front)?;
            folder.push_str("/")?;
            Ok(folder)
        }
    }
}
