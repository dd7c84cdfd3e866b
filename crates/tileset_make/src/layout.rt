// The layouts of recipes.
ghost use Rattle.std.specs.Prelude.{◌≡◌, ◌≤◌, ◌<◌, ◌++◌, codes, IfOk, IsTrue, string_bytes, map};
ghost use Rattle.std.specs.Fmt.{decimal};
ghost use Rattle.implicit_tiling.specs.Limits.{most_contents};
ghost use Rattle.implicit_tiling.specs.Template.{is_template};
ghost use Rattle.tileset_make.specs.Recipes.{recipe_layout, subtree_template as subtree_template_of};
ghost use Rattle.tileset_make.specs.Recipes.{content_template as content_template_of, content_end as content_end_of};
ghost use Rattle.tileset_make.specs.Recipes.{content_templates as content_templates_of};

use crate::recipe::Recipe;
use std::alloc::{AllocError, Global};
use tile_coords::Scheme;
use tileset_json::Layout;
use uri_template::Template;

// The layout that the tileset of a recipe has.
pub(crate) fn layout_of(alloc: Global, recipe: &Recipe) -> Result<Layout, AllocError>
    ensures { IfOk result (λ layout. layout ≡ recipe_layout recipe.now) }
{
    let subtree = String::from_str(alloc, subtree_template(recipe.scheme))?;
    Ok(Layout {
        scheme: recipe.scheme,
        subtree_levels: recipe.subtree_levels,
        levels: recipe.levels,
        subtree: template(subtree),
        contents: content_templates(alloc, recipe.scheme, recipe.contents)?,
    })
}

fn content_templates(
    alloc: Global,
    scheme: Scheme,
    contents: u32,
) -> Result<Vec<Template>, AllocError>
    requires { contents ≤ most_contents }
    ensures { IfOk result (λ templates. templates.items ≡ content_templates_of scheme contents) }
{
    let mut templates = Vec::new(alloc);
    for content in 0..contents {
        templates.push(content_template(alloc, scheme, content)?)?;
    }
    Ok(templates)
}

fn content_template(alloc: Global, scheme: Scheme, content: u32) -> Result<Template, AllocError>
    requires { content < most_contents }
    ensures { IfOk result (λ found. found ≡ content_template_of scheme content) }
{
    let text = format!(in alloc; "c{content}{}", content_end(scheme))?;
    Ok(template(text))
}

fn subtree_template(scheme: Scheme) -> &'static str
    ensures { result.now ≡ subtree_template_of scheme }
{
    match scheme {
        Scheme::Quad => "s.{level}.{x}.{y}.subtree",
        Scheme::Oct => "s.{level}.{x}.{y}.{z}.subtree",
    }
}

fn content_end(scheme: Scheme) -> &'static str
    ensures { result.now ≡ content_end_of scheme }
{
    match scheme {
        Scheme::Quad => ".{level}.{x}.{y}.glb",
        Scheme::Oct => ".{level}.{x}.{y}.{z}.glb",
    }
}

// A text that is known to be a template.
fn template(text: String) -> Template
    requires { IsTrue (is_template (string_bytes text)) }
    ensures { result ≡ string_bytes text }
{
    match Template::new(text) {
        Ok(made) => made,
        Err(_) => unreachable!(),
    }
}
