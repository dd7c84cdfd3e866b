// Worked lists of words, and generated ones.
use std::alloc::{AllocError, Global};
use std::test::Fail;
use tile_coords::{Scheme, Tile, Word};
use tile_occupancy::{Occupancy, OccupancyFault, generate};
use tile_word::{word_at, word_of};

// The words of tiles of these levels, indices and contents.
fn words_of(alloc: Global, tiles: &[(u32, u64, u16)]) -> Result<Vec<Word>, AllocError> {
    let mut words = Vec::new(alloc);
    for (level, index, mask) in tiles {
        words.push(word_at(*level, *index, *mask))?;
    }
    Ok(words)
}

#[test]
fn first_faults(rt: HostRuntime) -> Result<(), Fail> {
    // the levels in all, the level, index and mask of words of a quadtree, and what is wrong with them
    let bad = Some(OccupancyFault::BadWord);
    let order = Some(OccupancyFault::Order);
    let missing = Some(OccupancyFault::ParentMissing);
    let rows: [(u32, &[(u32, u64, u16)], Option<OccupancyFault>); 16] = [
        (2, &[], None),
        (2, &[(0, 0, 0)], None),
        (2, &[(1, 0, 0)], missing),
        (2, &[(0, 0, 0), (0, 0, 0)], order),
        (2, &[(0, 0, 0), (0, 0, 1)], order),
        (2, &[(2, 0, 0)], bad),
        (2, &[(0, 0, 0), (1, 0, 0), (2, 0, 0)], bad),
        (3, &[(0, 0, 0), (1, 0, 0), (2, 0, 0)], None),
        (3, &[(0, 0, 0), (1, 0, 1), (1, 3, 0), (2, 15, 0)], None),
        (3, &[(0, 0, 0), (1, 0, 0), (1, 3, 0), (2, 4, 0)], missing),
        (3, &[(0, 0, 0), (2, 0, 0)], missing),
        (3, &[(0, 0, 0), (1, 3, 0), (1, 2, 1)], order),
        (3, &[(1, 0, 0), (0, 0, 0)], order),
        (2, &[(1, 4, 0), (0, 0, 0)], bad),
        (0, &[(0, 0, 0)], bad),
        (33, &[(32, 0, 0)], bad),
    ];
    let alloc = rt.alloc();
    for (levels, tiles, wanted) in rows {
        match Occupancy::new(Scheme::Quad, levels, words_of(alloc, tiles)?) {
            Ok(occupancy) => {
                assert!(rt; wanted.is_none());
                assert!(rt; occupancy.words() == words_of(alloc, tiles)?.as_slice());
                assert!(rt; occupancy.scheme() == Scheme::Quad);
                assert!(rt; occupancy.levels() == levels);
            }
            Err(fault) => assert!(rt; wanted == Some(fault)),
        }
    }
    Ok(())
}

#[test]
fn a_tile_without_the_root(rt: HostRuntime) -> Result<(), Fail> {
    let tile = Tile {
        level: 1,
        x: 0,
        y: 0,
        z: 0,
    };
    let mut words = Vec::new(rt.alloc());
    words.push(word_of(Scheme::Quad, &tile, 1))?;
    match Occupancy::new(Scheme::Quad, 2, words) {
        Ok(_) => assert!(rt; false),
        Err(fault) => assert!(rt; fault == OccupancyFault::ParentMissing),
    }
    Ok(())
}

#[test]
fn a_whole_octree(rt: HostRuntime) -> Result<(), Fail> {
    let mut words = Vec::new(rt.alloc());
    for level in 0..4u32 {
        for index in 0..1u64 << (3 * level) {
            words.push(word_at(level, index, 0))?;
        }
    }
    match Occupancy::new(Scheme::Oct, 4, words) {
        Ok(occupancy) => assert!(rt; occupancy.words().len() == 585),
        Err(_) => assert!(rt; false),
    }
    Ok(())
}

#[test]
fn generated(rt: HostRuntime) -> Result<(), Fail> {
    let alloc = rt.alloc();
    let quad = generate(alloc, Scheme::Quad, 3, 1, 2, 1)?;
    let wanted = words_of(alloc, &[(0, 0, 1), (1, 2, 1), (2, 8, 1), (2, 11, 1)])?;
    assert!(rt; quad.words() == wanted.as_slice());
    let oct = generate(alloc, Scheme::Oct, 2, 2, 1, 5)?;
    let wanted = words_of(alloc, &[(0, 0, 3), (1, 7, 1)])?;
    assert!(rt; oct.words() == wanted.as_slice());
    assert!(rt;
        generate(alloc, Scheme::Oct, 21, 16, 0, 0)?
            .words()
            .is_empty()
    );
    let many = generate(alloc, Scheme::Quad, 32, 16, 200, u32::MAX)?;
    assert!(rt; many.words().len() > 200);
    assert!(rt; many.words().len() < 200 * 32);
    Ok(())
}
