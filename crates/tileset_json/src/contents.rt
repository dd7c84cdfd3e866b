// Reading the templates of contents.
ghost use Rattle.std.specs.Prelude.{◌≡◌, [], ◌∷◌, IfOk, option_map, option_and_then};
ghost use Rattle.serde_json.specs.Find.{as_array};
ghost use Rattle.serde_json.specs.View.{view};
ghost use Rattle.implicit_tileset.specs.Json.{list_of};
ghost use Rattle.implicit_tileset.specs.Tileset.{contents_of, template_of, templates_of};

use implicit_tileset::text_at;
use serde_json::Value;
use std::alloc::{AllocError, Global};
use uri_template::Template;

/// The template that an object has as its `uri`.
pub(crate) fn read_template(alloc: Global, value: &Value) -> Result<Option<Template>, AllocError>
    ensures { IfOk result (λ found. found ≡ template_of (view value.now)) }
{
    let Some(text) = text_at(value, "uri") else {
        return Ok(None);
    };
    let text = String::from_str(alloc, text)?;
    Ok(Template::new(text).ok())
}

/// The content templates of a root tile: that of `content`, or those of `contents`, or none.
pub(crate) fn read_contents(
    alloc: Global,
    tile: &Value,
) -> Result<Option<Vec<Template>>, AllocError>
    ensures { IfOk result (λ found. option_map (λ v. v.items) found ≡ contents_of (view tile.now)) }
{
    if let Some(content) = tile.get("content") {
        return read_one(alloc, content);
    }
    match tile.get("contents") {
        Some(list) => read_list(alloc, list),
        None => Ok(Some(Vec::new(alloc))),
    }
}

fn read_one(alloc: Global, content: &Value) -> Result<Option<Vec<Template>>, AllocError>
    ensures { IfOk result (λ found. option_map (λ v. v.items) found ≡ option_map
        (λ t. t ∷ []) (template_of (view content.now))) }
{
    let Some(template) = read_template(alloc, content)? else {
        return Ok(None);
    };
    let mut templates = Vec::new(alloc);
    templates.push(template)?;
    Ok(Some(templates))
}

fn read_list(alloc: Global, list: &Value) -> Result<Option<Vec<Template>>, AllocError>
    ensures { IfOk result (λ found. option_map (λ v. v.items) found ≡ option_and_then
        (λ items. templates_of (list_of items)) (as_array (view list.now))) }
{
    let Some(values) = list.as_array() else {
        return Ok(None);
    };
    let mut templates = Vec::new(alloc);
    for value in values {
        let Some(template) = read_template(alloc, value)? else {
            return Ok(None);
        };
        templates.push(template)?;
    }
    Ok(Some(templates))
}
