// Worked words.
use crate::{tile_of, word_after, word_at, word_of};
use std::test::Fail;
use tile_coords::{Scheme, Tile, Word};

#[test]
fn words(rt: HostRuntime) -> Result<(), Fail> {
    let tile = Tile {
        level: 1,
        x: 1,
        y: 1,
        z: 0,
    };
    let word = word_of(Scheme::Quad, &tile, 1);
    assert!(rt;
        word == Word {
            high: 65537,
            low: 3
        }
    );
    assert!(rt; word_at(1, 3, 1) == word);
    assert!(rt; word_after(word_at(1, 0, 1), 3) == word);
    match tile_of(Scheme::Quad, word) {
        Some(found) => assert!(rt; found.tile == tile && found.mask == 1),
        None => assert!(rt; false),
    }
    let refused: [(Scheme, u64, u64); 6] = [
        (Scheme::Quad, 0, 4),
        (Scheme::Quad, 0, 1),
        (Scheme::Quad, 32 << 16, 0),
        (Scheme::Oct, 21 << 16, 0),
        (Scheme::Quad, 31 << 16, 1 << 62),
        (Scheme::Quad, u64::MAX, u64::MAX),
    ];
    for (scheme, high, low) in refused {
        assert!(rt; tile_of(scheme, Word { high, low }).is_none());
    }
    Ok(())
}

#[test]
fn last_words(rt: HostRuntime) -> Result<(), Fail> {
    let side = u32::MAX >> 1;
    match tile_of(
        Scheme::Quad,
        Word {
            high: 31 << 16 | 0xFFFF,
            low: u64::MAX >> 2,
        },
    ) {
        Some(found) => {
            assert!(rt; found.tile.level == 31 && found.tile.x == side && found.tile.y == side);
            assert!(rt; found.mask == u16::MAX);
        }
        None => assert!(rt; false),
    }
    match tile_of(
        Scheme::Oct,
        Word {
            high: 20 << 16,
            low: u64::MAX >> 4,
        },
    ) {
        Some(found) => assert!(rt; found.tile.level == 20 && found.tile.z == u32::MAX >> 12),
        None => assert!(rt; false),
    }
    Ok(())
}
