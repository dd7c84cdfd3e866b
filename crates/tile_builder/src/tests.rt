// What no clause says: each call succeeds with ample memory, and the worked files have the bytes that they were
// worked out to have.
ghost use Rattle.std.specs.Prelude.{◌≡◌, ◌∷◌, [], IfOk, codes};

use crate::{BuildStop, Built, Occupancy, build};
use scene_ports::MemoryKeeper;
use std::alloc::{AllocError, Global};
use std::test::Fail;
use tile_coords::{Scheme, Word};
use tileset_json::Layout;
use uri_template::Template;

// The words of the tiles (0,0,0), (1,0,1), (2,0,2) and (2,1,3) of a quadtree, each with the first content.
const WORDS: [Word; 4] = [
    Word { high: 1, low: 0 },
    Word {
        high: 1 << 16 | 1,
        low: 2,
    },
    Word {
        high: 2 << 16 | 1,
        low: 8,
    },
    Word {
        high: 2 << 16 | 1,
        low: 11,
    },
];

const ROOT_JSON: &str =
    "{\"bufferViews\":[{\"buffer\":0,\"byteLength\":1,\"byteOffset\":0},{\"buffer\":0,\"byteLength\":1,\"byteOffset\":8},{\"buffer\":0,\"byteLength\":2,\"byteOffset\":16}],\"buffers\":[{\"byteLength\":24}],\"childSubtreeAvailability\":{\"availableCount\":2,\"bitstream\":2},\"contentAvailability\":[{\"availableCount\":2,\"bitstream\":1}],\"tileAvailability\":{\"availableCount\":2,\"bitstream\":0}}";

const LEAF_JSON: &str =
    "{\"bufferViews\":[{\"buffer\":0,\"byteLength\":1,\"byteOffset\":0},{\"buffer\":0,\"byteLength\":1,\"byteOffset\":8}],\"buffers\":[{\"byteLength\":16}],\"childSubtreeAvailability\":{\"constant\":0},\"contentAvailability\":[{\"availableCount\":1,\"bitstream\":1}],\"tileAvailability\":{\"availableCount\":1,\"bitstream\":0}}";

// Three levels, two of them in a subtree, and one content.
fn layout(alloc: Global) -> Result<Layout, Fail>
    ensures { IfOk result
        (λ l. l ≡ record {
          scheme = Scheme.Quad;
          subtree_levels = 2;
          levels = 3;
          subtree = codes
              "s.{level}.{x}.{y}.subtree";
          contents = codes "c0.{level}.{x}.{y}.glb" ∷ [];
        }) }
{
    let mut contents = Vec::new(alloc);
    contents.push(Template::new(String::from_str(alloc, "c0.{level}.{x}.{y}.glb")?)?)?;
    Ok(Layout {
        scheme: Scheme::Quad,
        subtree_levels: 2,
        levels: 3,
        subtree: Template::new(String::from_str(alloc, "s.{level}.{x}.{y}.subtree")?)?,
        contents,
    })
}

fn build_worked(
    alloc: Global,
    keeper: &mut MemoryKeeper,
) -> Result<Result<Built, BuildStop>, Fail> {
    let words = Vec::from_array(alloc, WORDS)?;
    let occupancy = Occupancy::new(Scheme::Quad, 3, words)?;
    Ok(build(alloc, &occupancy, &layout(alloc)?, keeper))
}

// A file of a header, a text and some bytes; the sizes have the low bytes of the two lengths.
fn file(alloc: Global, json: &str, sizes: [u8; 3], bytes: &[u8]) -> Result<Vec<u8>, AllocError> {
    let mut file = Vec::new(alloc);
    file.extend_from_slice(b"subt")?;
    file.extend_from_slice(&[1, 0, 0, 0, sizes[0], sizes[1], 0, 0, 0, 0, 0, 0])?;
    file.extend_from_slice(&[sizes[2], 0, 0, 0, 0, 0, 0, 0])?;
    file.extend_from_slice(json.as_bytes())?;
    file.extend_from_slice(bytes)?;
    Ok(file)
}

#[test]
fn three_files(rt: HostRuntime) -> Result<(), Fail> {
    let alloc = rt.alloc();
    let mut keeper = MemoryKeeper::new(alloc, Vec::new(alloc));
    let built = build_worked(alloc, &mut keeper)?;
    assert!(rt; built == Ok(Built { files: 3, tiles: 4 }));
    let nodes = [
        9, 0, 0, 0, 0, 0, 0, 0, 9, 0, 0, 0, 0, 0, 0, 0, 0, 9, 0, 0, 0, 0, 0, 0,
    ];
    let root = file(alloc, ROOT_JSON, [96, 1, 24], &nodes)?;
    let one = [1, 0, 0, 0, 0, 0, 0, 0, 1, 0, 0, 0, 0, 0, 0, 0];
    let leaf = file(alloc, LEAF_JSON, [32, 1, 16], &one)?;
    let wanted = [
        ("s.0.0.0.subtree", &root),
        ("s.2.0.2.subtree", &leaf),
        ("s.2.1.3.subtree", &leaf),
    ];
    let files = keeper.files();
    assert!(rt; files.len() == 3);
    for (file, (name, bytes)) in files.iter().zip(wanted) {
        assert!(rt; file.0.as_str() == name);
        assert!(rt; file.1.as_slice() == bytes.as_slice());
    }
    Ok(())
}

#[test]
fn a_keeper_that_fails_at_the_second_put(rt: HostRuntime) -> Result<(), Fail> {
    let alloc = rt.alloc();
    let mut keeper = MemoryKeeper::new(alloc, vec![in alloc; 2]?);
    let built = build_worked(alloc, &mut keeper)?;
    assert!(rt; built == Err(BuildStop::Failed));
    let files = keeper.files();
    assert!(rt; files.len() == 1);
    assert!(rt; files[0].0.as_str() == "s.0.0.0.subtree");
    Ok(())
}

#[test]
fn no_tiles(rt: HostRuntime) -> Result<(), Fail> {
    let alloc = rt.alloc();
    let mut keeper = MemoryKeeper::new(alloc, Vec::new(alloc));
    let none = Occupancy::new(Scheme::Quad, 3, Vec::new(alloc))?;
    let built = build(alloc, &none, &layout(alloc)?, &mut keeper);
    assert!(rt; built == Ok(Built { files: 1, tiles: 0 }));
    let files = keeper.files();
    assert!(rt; files.len() == 1);
    assert!(rt; files[0].0.as_str() == "s.0.0.0.subtree");
    Ok(())
}
