// Layouts, and reading one from the bytes of `tileset.json`.
ghost use Rattle.std.specs.Prelude.{◌≡◌, codes, option_and_then, IfOk};
ghost use Rattle.serde_json.specs.Find.{get};
ghost use Rattle.serde_json.specs.View.{view};
ghost use Rattle.implicit_tileset.specs.Json.{number_at as number_in, text_at as text_in};
ghost use Rattle.implicit_tileset.specs.Tileset.{layout_of, layout_of_value, template_of, scheme_named, from_one_to};
ghost use Rattle.tileset_json.specs.Reading.{ReadsLayout};

use crate::contents::{read_contents, read_template};
use crate::fault::{LayoutFault, TilesetFault};
use implicit_tileset::{JsonFault, has_member, number_at, object_at, read_value, text_at};
use serde_json::Value;
use std::alloc::{AllocError, Global};
use std::marker::Model;
use tile_coords::Scheme;
use uri_template::Template;

/// The most contents of a layout.
pub const MOST_CONTENTS: usize = 16;

/// What `tileset.json` says of the implicit tiles (OGC 22-025r4, implicit tiling: implicit root tile, subtrees).
#[derive(Debug, Drop)]
pub struct Layout {
    pub scheme: Scheme,
    /// The levels of a subtree: 1 to 10 in a quadtree, 1 to 7 in an octree.
    pub subtree_levels: u32,
    /// The levels in all: 1 to 32 in a quadtree, 1 to 21 in an octree.
    pub levels: u32,
    /// The names of subtree files, filled with the subtree's root tile.
    pub subtree: Template,
    /// The names of contents, at most 16.
    pub contents: Vec<Template>,
}

impl Model for Layout {
    ghost use Rattle.implicit_tiling.specs.Scene.{Layout as layout};
    ghost use Rattle.tileset_json.specs.Limits.{IsWithinLimits};

    ghost Value = { layout };

    ghost view = { λ l. record {
      scheme = l.scheme;
      subtree_levels = l.subtree_levels;
      levels = l.levels;
      subtree =
          l.subtree;
      contents = l.contents.items;
    } };

    ghost invariant = { λ l. IsWithinLimits
        (record {
          scheme = l.scheme;
          subtree_levels = l.subtree_levels;
          levels = l.levels;
          subtree = l.subtree;
          contents = l.contents.items;
        }) };
}

impl Layout {
    /// The layout that the bytes of `tileset.json` state. `Number` has the first fault of the table that holds,
    /// from 3 on. A member of one name that stands twice counts as `serde_json` keeps it, so the last does.
    pub fn read(alloc: Global, bytes: &[u8]) -> Result<Layout, LayoutFault>
        ensures { ReadsLayout (layout_of bytes.now) result }
    {
        match read_value(alloc, bytes) {
            Ok(value) => read_layout(alloc, &value),
            Err(JsonFault::NotJson) => Err(LayoutFault::from(TilesetFault::BadJson)),
            Err(JsonFault::Memory) => Err(LayoutFault::Memory),
        }
    }
}

// The layout that a value states: one step for each row of the table, in its order.
fn read_layout(alloc: Global, value: &Value) -> Result<Layout, LayoutFault>
    ensures { ReadsLayout (layout_of_value (view value.now)) result }
{
    let tile = object_at(value, "root").ok_or(TilesetFault::NotObject)?;
    let implicit = object_at(tile, "implicitTiling").ok_or(TilesetFault::NoImplicit)?;
    let scheme = read_scheme(implicit).ok_or(TilesetFault::BadScheme)?;
    let subtree_levels = count_at(implicit, "subtreeLevels", scheme.most_subtree_levels());
    let subtree_levels = subtree_levels.ok_or(TilesetFault::BadSubtreeLevels)?;
    let levels = count_at(implicit, "availableLevels", scheme.most_levels());
    let levels = levels.ok_or(TilesetFault::BadAvailableLevels)?;
    let subtree = read_subtree(alloc, implicit)?.ok_or(TilesetFault::BadSubtreeTemplate)?;
    if has_member(tile, "content") && has_member(tile, "contents") {
        return Err(LayoutFault::from(TilesetFault::BothContents));
    }
    let contents = read_contents(alloc, tile)?.ok_or(TilesetFault::BadContent)?;
    if contents.len() > MOST_CONTENTS {
        return Err(LayoutFault::from(TilesetFault::TooManyContents));
    }
    Ok(Layout {
        scheme,
        subtree_levels,
        levels,
        subtree,
        contents,
    })
}

fn read_scheme(implicit: &Value) -> Option<Scheme>
    ensures { result ≡ option_and_then scheme_named (text_in (codes "subdivisionScheme") (view implicit.now)) }
{
    match text_at(implicit, "subdivisionScheme")? {
        "QUADTREE" => Some(Scheme::Quad),
        "OCTREE" => Some(Scheme::Oct),
        _ => None,
    }
}

// A member that is a whole number from 1 to `most`.
fn count_at(implicit: &Value, name: &str, most: u32) -> Option<u32>
    ensures { result ≡ from_one_to most (number_in name.now (view implicit.now)) }
{
    let count = number_at(implicit, name)?;
    if count < 1 || count > most as u64 {
        return None;
    }
    Some(count as u32)
}

fn read_subtree(alloc: Global, implicit: &Value) -> Result<Option<Template>, AllocError>
    ensures { IfOk result (λ found. found ≡ option_and_then template_of (get (codes "subtrees") (view implicit.now))) }
{
    match implicit.get("subtrees") {
        Some(subtrees) => read_template(alloc, subtrees),
        None => Ok(None),
    }
}
