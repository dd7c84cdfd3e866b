// The subtree of the bits that a record names.
ghost use Rattle.std.specs.Prelude.{◌≡◌, ◌<◌, false};
ghost use Rattle.std.specs.List.{All, list_any};
ghost use Rattle.implicit_tiling.specs.Tile.{IsTile};
ghost use Rattle.implicit_tileset.specs.SubtreeFile.{names_no_view};
ghost use Rattle.implicit_tileset.specs.FileOutcome.{held_at};
ghost use Rattle.subtree_file.specs.Buffers.{sources_seen};
ghost use Rattle.subtree_file.specs.Decoding.{Decodes, AreUsed, IsPlaced, subtree_counted, subtree_placed};

use crate::bits::{read_all, read_one};
use crate::fault::DecodeFault;
use crate::sources::Sources;
use crate::used::Used;
use availability::Subtree;
use std::alloc::Global;
use tile_coords::Tile;
use tileset_json::Layout;

// The subtree of a record with the bytes of its buffers, or the first of the faults 14 to 18.
pub(crate) fn decode_sources(
    alloc: Global,
    layout: &Layout,
    root: Tile,
    sources: &Sources,
    used: &[Used],
) -> Result<Subtree, DecodeFault>
    requires below { root.level < layout.now.levels }
    requires tile { IsTile layout.now.scheme root }
    requires used { AreUsed layout.now sources.now.parts used.now }
    requires named { list_any (λ u. names_no_view (held_at (sources_seen sources.now) u.availability) u.availability) used.now ≡ false }
    ensures { Decodes (subtree_placed layout.now root (sources_seen sources.now) used.now) result }
{
    sources.check_views(used)?;
    let subtree = read_subtree(alloc, layout, root, sources, used)?;
    subtree.check()?;
    Ok(subtree)
}

// The subtree of the bits that are used: of tiles first, then of contents, last of child subtrees.
fn read_subtree(
    alloc: Global,
    layout: &Layout,
    root: Tile,
    sources: &Sources,
    used: &[Used],
) -> Result<Subtree, DecodeFault>
    requires below { root.level < layout.now.levels }
    requires tile { IsTile layout.now.scheme root }
    requires used { AreUsed layout.now sources.now.parts used.now }
    requires placed { All (λ u. IsPlaced (held_at (sources_seen sources.now) u.availability) u) used.now }
    ensures { Decodes (subtree_counted layout.now root (sources_seen sources.now)) result }
{
    let last = used.len() - 1;
    let tiles = read_one(alloc, sources, &used[0])?;
    let contents = read_all(alloc, sources, &used[1..last])?;
    let child = read_one(alloc, sources, &used[last])?;
    Ok(Subtree {
        scheme: layout.scheme,
        levels: layout.subtree_levels,
        cut: layout.levels,
        root,
        tiles,
        contents,
        child,
    })
}
