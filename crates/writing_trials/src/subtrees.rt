// What no clause says: each call succeeds, and the worked files have the sizes that they were worked out to have.
ghost use Rattle.std.specs.Prelude.{◌≡◌, IfOk, length};

use availability::Subtree;
use bitstream::Bits;
use std::alloc::{AllocError, Global};
use std::test::Fail;
use subtree_write::encode;
use tile_coords::{Scheme, Tile};

fn bits(alloc: Global, bytes: [u8; 2], count: u64) -> Result<Bits, AllocError>
    ensures { IfOk result (λ bits. length bits ≡ count) }
{
    let bytes = Vec::from_array(alloc, bytes)?;
    match Bits::of_bytes(bytes, count) {
        Some(bits) => Ok(bits),
        None => Ok(Bits::constant(false, count)),
    }
}

// Two levels of a quadtree, with one content that stands on each tile.
fn subtree(alloc: Global, nodes: [u8; 2], children: [u8; 2]) -> Result<Subtree, AllocError> {
    let mut contents = Vec::new(alloc);
    contents.push(bits(alloc, nodes, 5)?)?;
    Ok(Subtree {
        scheme: Scheme::Quad,
        levels: 2,
        cut: 3,
        root: Tile::root(),
        tiles: bits(alloc, nodes, 5)?,
        contents,
        child: bits(alloc, children, 16)?,
    })
}

#[test]
fn sizes(rt: HostRuntime) -> Result<(), Fail> {
    let rows: [([u8; 2], [u8; 2], usize); 3] = [
        ([0x09, 0], [0, 0x09], 400),
        ([0x01, 0], [0, 0], 328),
        ([0x1f, 0], [0xff, 0xff], 144),
    ];
    for (nodes, children, size) in rows {
        let mut file = vec![in rt.alloc(); 7u8; 1]?;
        encode(
            rt.alloc(),
            &subtree(rt.alloc(), nodes, children)?,
            &mut file,
        )?;
        assert!(rt; file.len() == 1 + size && file.first() == Some(&7));
    }
    Ok(())
}
