// What no clause says: with ample memory each row of the table is met. A member that stands twice counts as
// `serde_json` keeps it, the last one, so each row states what it has besides this tileset.
use std::alloc::{AllocError, Global};
use std::test::Fail;
use tile_coords::Scheme;
use tileset_json::{Layout, LayoutFault, MOST_CONTENTS, TilesetFault};
use uri_template::Template;

const HEAD: &str =
    "{\"asset\":{\"version\":\"1.1\"},\"root\":{\"boundingVolume\":{\"box\":[0.5,-1e3]},\"children\":[{\"implicitTiling\":1}],\"implicitTiling\":{\"subdivisionScheme\":\"QUADTREE\",\"subtreeLevels\":3,\"availableLevels\":5,\"subtrees\":{\"uri\":\"s/{level}/{x}/{y}\"}";

const OCTREE: &str = ",\"subdivisionScheme\":\"OCTREE\",\"subtreeLevels\":7,\"availableLevels\":21";

const LARGEST: &str = ",\"subtreeLevels\":10,\"availableLevels\":32";

type Read = Result<(Scheme, u32, u32, usize), u64>;

fn tileset(alloc: Global, implicit: &str, root: &str) -> Result<String, AllocError> {
    let mut text = String::from_str(alloc, HEAD)?;
    text.push_str(implicit)?;
    text.push('}')?;
    text.push_str(root)?;
    text.push_str("}}")?;
    Ok(text)
}

fn read(alloc: Global, bytes: &[u8]) -> Result<Read, LayoutFault> {
    match Layout::read(alloc, bytes) {
        Ok(layout) => Ok(Ok((
            layout.scheme,
            layout.subtree_levels,
            layout.levels,
            layout.contents.len(),
        ))),
        Err(LayoutFault::Number(number)) => Ok(Err(number)),
        Err(LayoutFault::Memory) => Err(LayoutFault::Memory),
    }
}

#[test]
fn rows_of_the_table(rt: HostRuntime) -> Result<(), Fail> {
    let alloc = rt.alloc();
    let quad = |contents: usize| Ok((Scheme::Quad, 3, 5, contents));
    let rows: [(&str, &str, Read); 40] = [
        ("", "", quad(0)),
        ("", ",\"implicitTiling\":null", Err(5)),
        ("", ",\"implicitTiling\":[]", Err(5)),
        (",\"subdivisionScheme\":\"quadtree\"", "", Err(6)),
        (",\"subdivisionScheme\":1", "", Err(6)),
        (OCTREE, "", Ok((Scheme::Oct, 7, 21, 0))),
        (LARGEST, "", Ok((Scheme::Quad, 10, 32, 0))),
        (
            ",\"subtreeLevels\":1,\"availableLevels\":1",
            "",
            Ok((Scheme::Quad, 1, 1, 0)),
        ),
        (",\"subtreeLevels\":0,\"availableLevels\":0", "", Err(7)),
        (",\"subtreeLevels\":11", "", Err(7)),
        (
            ",\"subdivisionScheme\":\"OCTREE\",\"subtreeLevels\":8",
            "",
            Err(7),
        ),
        (",\"subtreeLevels\":null", "", Err(7)),
        (",\"availableLevels\":0", "", Err(8)),
        (",\"availableLevels\":33", "", Err(8)),
        (
            ",\"subdivisionScheme\":\"OCTREE\",\"availableLevels\":22",
            "",
            Err(8),
        ),
        (",\"availableLevels\":1.0", "", Err(8)),
        (",\"availableLevels\":-1", "", Err(8)),
        (",\"availableLevels\":\"5\"", "", Err(8)),
        (",\"availableLevels\":4294967297", "", Err(8)),
        (",\"availableLevels\":7,\"availableLevels\":5", "", quad(0)),
        (",\"subtrees\":\"s\"", "", Err(9)),
        (",\"subtrees\":{}", "", Err(9)),
        (",\"subtrees\":{\"uri\":null}", "", Err(9)),
        (
            ",\"subtrees\":{\"uri\":\"s\\u0001\"}",
            ",\"content\":1,\"contents\":1",
            Err(9),
        ),
        (
            "",
            ",\"content\":{\"uri\":\"c\"},\"contents\":[{\"uri\":\"c\"}]",
            Err(10),
        ),
        ("", ",\"content\":null,\"contents\":null", Err(10)),
        ("", ",\"content\":{\"uri\":\"c/{level}\"}", quad(1)),
        ("", ",\"content\":null", Err(11)),
        ("", ",\"content\":{\"uri\":\"\\u007f\"}", Err(11)),
        ("", ",\"contents\":{\"uri\":\"c\"}", Err(11)),
        ("", ",\"contents\":[{\"uri\":\"c\"},{\"uri\":2}]", Err(11)),
        ("", ",\"contents\":[]", quad(0)),
        (
            "",
            ",\"contents\":[{\"uri\":\"a\"},{\"uri\":\"b\"}]",
            quad(2),
        ),
        (
            "",
            ",\"contents\":[{\"uri\":\"\"},{\"uri\":\"\"},{\"uri\":\"\"},{\"uri\":\"\"},{\"uri\":\"\"},{\"uri\":\"\"},{\"uri\":\"\"},{\"uri\":\"\"},{\"uri\":\"\"},{\"uri\":\"\"},{\"uri\":\"\"},{\"uri\":\"\"},{\"uri\":\"\"},{\"uri\":\"\"},{\"uri\":\"\"},{\"uri\":\"\"}]",
            quad(16),
        ),
        (
            "",
            ",\"contents\":[{\"uri\":\"\"},{\"uri\":\"\"},{\"uri\":\"\"},{\"uri\":\"\"},{\"uri\":\"\"},{\"uri\":\"\"},{\"uri\":\"\"},{\"uri\":\"\"},{\"uri\":\"\"},{\"uri\":\"\"},{\"uri\":\"\"},{\"uri\":\"\"},{\"uri\":\"\"},{\"uri\":\"\"},{\"uri\":\"\"},{\"uri\":\"\"},{\"uri\":\"\"}]",
            Err(12),
        ),
        (
            "",
            ",\"contents\":[{\"uri\":\"\"},{\"uri\":\"\"},{\"uri\":\"\"},{\"uri\":\"\"},{\"uri\":\"\"},{\"uri\":\"\"},{\"uri\":\"\"},{\"uri\":\"\"},{\"uri\":\"\"},{\"uri\":\"\"},{\"uri\":\"\"},{\"uri\":\"\"},{\"uri\":\"\"},{\"uri\":\"\"},{\"uri\":\"\"},{\"uri\":\"\"},1]",
            Err(11),
        ),
        ("", "},\"root\":{", Err(5)),
        ("", "},\"root\":null,\"children\":{", Err(4)),
        ("", ",", Err(3)),
        ("", "}", Err(3)),
    ];
    for (implicit, root, wanted) in rows {
        let text = tileset(alloc, implicit, root)?;
        assert!(rt; read(alloc, text.as_bytes())? == wanted);
    }
    assert!(rt; read(alloc, b"[1]".as_slice())? == Err(4));
    assert!(rt; read(alloc, b"{\"root\":\"\xff\"}".as_slice())? == Err(3));
    Ok(())
}

#[test]
fn layout_of_its_fields(rt: HostRuntime) -> Result<(), Fail> {
    let alloc = rt.alloc();
    let layout = Layout {
        scheme: Scheme::Oct,
        subtree_levels: Scheme::Oct.most_subtree_levels(),
        levels: Scheme::Oct.most_levels(),
        subtree: Template::new(String::from_str(alloc, "{z}.subtree")?)?,
        contents: Vec::new(alloc),
    };
    assert!(rt; layout.subtree.as_str() == "{z}.subtree");
    assert!(rt; layout.contents.len() < MOST_CONTENTS);
    assert!(rt; TilesetFault::TooManyContents.number() == 12);
    Ok(())
}
