// The text of `tileset.json`.
ghost use Rattle.std.specs.Prelude.{◌≡◌, ◌++◌, Ok, IfOk, OnOk, OnErr, map};
ghost use Rattle.std.specs.List.{All};
ghost use Rattle.serde_json.specs.Data.{string};
ghost use Rattle.serde_json.specs.View.{view, members_view};
ghost use Rattle.implicit_tileset.specs.Tileset.{layout_of};
ghost use Rattle.tileset_write.specs.LayoutText.{uri_value as uri_value_of, asset_value as asset_value_of};
ghost use Rattle.tileset_write.specs.LayoutText.{box_value as box_value_of, implicit_value as implicit_value_of};
ghost use Rattle.tileset_write.specs.LayoutText.{root_value as root_value_of, layout_value as layout_value_of};
ghost use Rattle.tileset_write.specs.LayoutText.{layout_text as layout_text_of, scheme_name as name_of, IsLayout};
ghost use Rattle.tileset_write.specs.LayoutText.{IsTemplateText};
ghost use Rattle.tileset_write.specs.LayoutMembers.{put_contents as with_contents, row};

use serde_json::{Map, Value, put};
use std::alloc::{AllocError, Global};
use tile_coords::Scheme;
use tileset_json::Layout;
use uri_template::Template;

/// Appends the text of a `tileset.json` for a layout (OGC 22-025r4, implicit tiling: implicit root tile, subtrees),
/// which states the layout without a fault. An Err, which comes of memory alone, leaves `out` as it was.
pub fn layout_text(alloc: Global, layout: &Layout, out: &mut Vec<u8>) -> Result<(), AllocError>
    ensures ok { OnOk result (out.new.items ≡ out.old.items ++ layout_text_of layout.now) }
    ensures stated { OnOk result (layout_of (layout_text_of layout.now) ≡ Ok layout.now) }
    ensures err { OnErr result (out.new.items ≡ out.old.items) }
{
    let text = layout_value(alloc, layout)?.to_vec(alloc)?;
    out.extend_from_slice(&text)
}

fn layout_value(alloc: Global, layout: &Layout) -> Result<Value, AllocError>
    ensures value { IfOk result (λ value. view value ≡ layout_value_of layout.now) }
    ensures layout { OnOk result (IsLayout layout.now) }
{
    let mut members = Map::new(alloc);
    put(&mut members, alloc, "asset", asset_value(alloc)?)?;
    put(&mut members, alloc, "geometricError", Value::from(1u64))?;
    put(&mut members, alloc, "root", root_value(alloc, layout)?)?;
    Ok(Value::Object(members))
}

fn asset_value(alloc: Global) -> Result<Value, AllocError>
    ensures { IfOk result (λ value. view value ≡ asset_value_of) }
{
    let mut members = Map::new(alloc);
    put(&mut members, alloc, "version", text_value(alloc, "1.1")?)?;
    Ok(Value::Object(members))
}

// The root tile. What was put into it is within the limits, and its templates are templates.
fn root_value(alloc: Global, layout: &Layout) -> Result<Value, AllocError>
    ensures value { IfOk result
        (λ value. view value ≡ root_value_of layout.now.contents
        (implicit_value_of layout.now.scheme layout.now.subtree_levels layout.now.levels layout.now.subtree)) }
    ensures layout { OnOk result (IsLayout layout.now) }
{
    let mut members = Map::new(alloc);
    put(&mut members, alloc, "boundingVolume", box_value(alloc)?)?;
    put_contents(&mut members, alloc, &layout.contents)?;
    put(&mut members, alloc, "geometricError", Value::from(1u64))?;
    let implicit = implicit_value(
        alloc,
        layout.scheme,
        layout.subtree_levels,
        layout.levels,
        &layout.subtree,
    )?;
    put(&mut members, alloc, "implicitTiling", implicit)?;
    put(&mut members, alloc, "refine", text_value(alloc, "ADD")?)?;
    Ok(Value::Object(members))
}

// The unit box.
fn box_value(alloc: Global) -> Result<Value, AllocError>
    ensures { IfOk result (λ value. view value ≡ box_value_of) }
{
    let mut numbers = Vec::new(alloc);
    push_row(&mut numbers, 0, 0, 0)?;
    push_row(&mut numbers, 1, 0, 0)?;
    push_row(&mut numbers, 0, 1, 0)?;
    push_row(&mut numbers, 0, 0, 1)?;
    let mut members = Map::new(alloc);
    put(&mut members, alloc, "box", Value::Array(numbers))?;
    Ok(Value::Object(members))
}

// Appends three numbers.
fn push_row(numbers: &mut Vec<Value>, x: u64, y: u64, z: u64) -> Result<(), AllocError>
    ensures { OnOk result (map view numbers.new.items ≡ map view numbers.old.items ++ row x y z) }
{
    numbers.push(Value::from(x))?;
    numbers.push(Value::from(y))?;
    Ok(numbers.push(Value::from(z))?)
}

fn implicit_value(
    alloc: Global,
    scheme: Scheme,
    subtree_levels: u32,
    levels: u32,
    subtree: &Template,
) -> Result<Value, AllocError>
    ensures value { IfOk result (λ value. view value ≡ implicit_value_of scheme subtree_levels levels subtree.now) }
    ensures template { OnOk result (IsTemplateText subtree.now) }
{
    let mut members = Map::new(alloc);
    put(
        &mut members,
        alloc,
        "availableLevels",
        Value::from(u64::from(levels)),
    )?;
    let name = text_value(alloc, scheme_name(scheme))?;
    put(&mut members, alloc, "subdivisionScheme", name)?;
    put(
        &mut members,
        alloc,
        "subtreeLevels",
        Value::from(u64::from(subtree_levels)),
    )?;
    put(&mut members, alloc, "subtrees", uri_value(alloc, subtree)?)?;
    Ok(Value::Object(members))
}

fn scheme_name(scheme: Scheme) -> &'static str
    ensures { result.now ≡ name_of scheme }
{
    match scheme {
        Scheme::Quad => "QUADTREE",
        Scheme::Oct => "OCTREE",
    }
}

fn text_value(alloc: Global, text: &str) -> Result<Value, AllocError>
    ensures { IfOk result (λ value. view value ≡ string text.now) }
{
    Ok(Value::String(String::from_str(alloc, text)?))
}

// An object whose `uri` is a template.
fn uri_value(alloc: Global, template: &Template) -> Result<Value, AllocError>
    ensures value { IfOk result (λ value. view value ≡ uri_value_of template.now) }
    ensures template { OnOk result (IsTemplateText template.now) }
{
    let mut members = Map::new(alloc);
    put(
        &mut members,
        alloc,
        "uri",
        text_value(alloc, template.as_str())?,
    )?;
    Ok(Value::Object(members))
}

// Puts no member for no content, `content` for one, `contents` for more.
fn put_contents(
    members: &mut Map<String, Value>,
    alloc: Global,
    contents: &[Template],
) -> Result<(), AllocError>
    ensures members { OnOk result (members_view members.new.entries ≡ with_contents contents.now
        (members_view members.old.entries)) }
    ensures templates { OnOk result (All IsTemplateText contents.now) }
{
    if contents.is_empty() {
        return Ok(());
    }
    if contents.len() == 1 {
        return put(members, alloc, "content", uri_value(alloc, &contents[0])?);
    }
    put(
        members,
        alloc,
        "contents",
        Value::Array(uri_values(alloc, contents)?),
    )
}

fn uri_values(alloc: Global, contents: &[Template]) -> Result<Vec<Value>, AllocError>
    ensures values { IfOk result (λ values. map view values.items ≡ map uri_value_of contents.now) }
    ensures templates { OnOk result (All IsTemplateText contents.now) }
{
    let mut values = Vec::new(alloc);
    for template in contents {
        values.push(uri_value(alloc, template)?)?;
    }
    Ok(values)
}
