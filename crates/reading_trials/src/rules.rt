// The rules broken at the first, a middle and the last node of a level.
ghost use Rattle.std.specs.Prelude.{◌≡◌, ◌≤◌, IfOk, length};

use availability::{RuleFault, Subtree};
use bitstream::Bits;
use std::alloc::{AllocError, Global};
use std::test::Fail;
use tile_coords::{Scheme, Tile};

// The bits of the 21 nodes of three levels of a quadtree.
fn nodes(alloc: Global, bits: u32) -> Result<Bits, AllocError>
    ensures { IfOk result (λ bits. length bits ≡ 21) }
{
    let bytes = Vec::from_array(alloc, bits.to_le_bytes())?;
    match Bits::of_bytes(bytes, 21) {
        Some(bits) => Ok(bits),
        None => Ok(Bits::constant(false, 21)),
    }
}

// Three levels of a quadtree with one content, of which the last level may be cut off.
fn subtree(alloc: Global, tiles: Bits, content: Bits, is_cut: bool) -> Result<Subtree, AllocError>
    requires tiles { length tiles ≡ 21 }
    requires content { length content ≡ 21 }
    ensures { IfOk result (λ s. (s.scheme ≡ Scheme.Quad) × (s.levels ≡ 3)) }
{
    let mut contents = Vec::new(alloc);
    contents.push(content)?;
    Ok(Subtree {
        scheme: Scheme::Quad,
        levels: 3,
        cut: levels_in_all(is_cut),
        root: Tile::root(),
        tiles,
        contents,
        child: Bits::constant(true, 64),
    })
}

fn levels_in_all(is_cut: bool) -> u32
    ensures { (2 ≤ result) × (result ≤ 3) }
{
    if is_cut {
        return 2;
    }
    3
}

#[test]
fn rules(rt: HostRuntime) -> Result<(), Fail> {
    // the tile bits of three levels, those of a content, whether the last level is cut off, and the rule that is broken
    let parent = Err(RuleFault::ParentMissing);
    let alone = Err(RuleFault::ContentWithoutTile);
    let rows: [(u32, u32, bool, Result<(), RuleFault>); 14] = [
        (0x1F_FFFF, 0x1F_FFFF, false, Ok(())),
        (0, 0, false, Ok(())),
        (0x23, 0x21, false, Ok(())),
        (1 << 1, 0, false, parent),
        (1 << 4, 0, false, parent),
        (1 | 1 << 5, 0, false, parent),
        (1 | 1 << 12, 0, false, parent),
        (1 | 1 << 20, 0, false, parent),
        (1 | 1 << 20, 1 << 20, true, Ok(())),
        (1 | 1 << 2, 1 << 1, false, alone),
        (1 | 1 << 2, 1 << 3, false, alone),
        (1 | 1 << 2, 1 << 4, false, alone),
        (1 | 1 << 20, 1 << 3, false, parent),
        (1, 1 << 7, true, Ok(())),
    ];
    for (tiles, content, is_cut, wanted) in rows {
        let alloc = rt.alloc();
        let subtree = subtree(alloc, nodes(alloc, tiles)?, nodes(alloc, content)?, is_cut)?;
        assert!(rt; subtree.check() == wanted);
        assert!(rt; subtree.tile_at(0, 0) == (tiles & 1 == 1));
        assert!(rt; subtree.contents_at(0, 0) == (content & 1) as u16);
        assert!(rt; !subtree.child_at(63));
    }
    Ok(())
}
