// The text of a worked layout.
use std::test::Fail;
use tile_coords::Scheme;
use tileset_json::Layout;
use tileset_write::layout_text;
use uri_template::Template;

const TILESET: &str =
    "{\"asset\":{\"version\":\"1.1\"},\"geometricError\":1,\"root\":{\"boundingVolume\":{\"box\":[0,0,0,1,0,0,0,1,0,0,0,1]},\"content\":{\"uri\":\"c0.{level}.{x}.{y}.glb\"},\"geometricError\":1,\"implicitTiling\":{\"availableLevels\":3,\"subdivisionScheme\":\"QUADTREE\",\"subtreeLevels\":2,\"subtrees\":{\"uri\":\"s.{level}.{x}.{y}.subtree\"}},\"refine\":\"ADD\"}}";

#[test]
fn text_of_a_layout(rt: HostRuntime) -> Result<(), Fail> {
    let alloc = rt.alloc();
    let mut contents = Vec::new(alloc);
    contents.push(Template::new(String::from_str(alloc, "c0.{level}.{x}.{y}.glb")?)?)?;
    let layout = Layout {
        scheme: Scheme::Quad,
        subtree_levels: 2,
        levels: 3,
        subtree: Template::new(String::from_str(alloc, "s.{level}.{x}.{y}.subtree")?)?,
        contents,
    };
    let mut out = Vec::new(alloc);
    layout_text(alloc, &layout, &mut out)?;
    assert!(rt; out.as_slice() == TILESET.as_bytes());
    Ok(())
}
