// What no clause says: each call succeeds on good arguments, and equality and hash are there.
use std::test::Fail;
use tile_coords::{Plan, Region, RegionFault, Scheme, Tile, Word};

#[test]
fn tiles_and_regions(rt: HostRuntime) -> Result<(), Fail> {
    let tile = Tile::new(Scheme::Quad, 2, 3, 1, 0);
    assert!(rt;
        tile == Some(Tile {
            level: 2,
            x: 3,
            y: 1,
            z: 0
        })
    );
    assert!(rt; Tile::new(Scheme::Quad, 2, 4, 1, 0).is_none());
    assert!(rt; Tile::new(Scheme::Quad, 2, 3, 1, 1).is_none());
    assert!(rt; Tile::new(Scheme::Oct, 2, 3, 1, 1).is_some());
    assert!(rt; Tile::new(Scheme::Oct, 32, 0, 0, 0).is_none());
    let rows: [(u32, [u32; 3], [u32; 3], Result<(), RegionFault>); 5] = [
        (1, [0, 0, 0], [1, 1, 0], Ok(())),
        (2, [1, 0, 0], [0, 0, 0], Err(RegionFault::LevelHigh)),
        (1, [1, 0, 0], [0, 2, 0], Err(RegionFault::BoxOrder)),
        (1, [0, 0, 0], [2, 0, 0], Err(RegionFault::BoxOut)),
        (0, [0, 0, 0], [0, 0, 0], Ok(())),
    ];
    for (level, lo, hi, wanted) in rows {
        match Region::new(Scheme::Quad, 2, level, lo, hi) {
            Ok(region) => {
                assert!(rt; wanted == Ok(()));
                let plan = Plan {
                    scheme: Scheme::Quad,
                    region,
                };
                assert!(rt; plan == plan);
                assert!(rt; region.meets(&Tile::root()));
            }
            Err(fault) => assert!(rt; wanted == Err(fault)),
        }
    }
    Ok(())
}

#[test]
fn words_in_order(rt: HostRuntime) -> Result<(), Fail> {
    let rows: [(u64, u64); 4] = [(0, 0), (0, u64::MAX), (1, 0), (1, 1)];
    for (place, (high, low)) in rows.iter().enumerate() {
        let word = Word {
            high: *high,
            low: *low,
        };
        for (other, (high, low)) in rows.iter().enumerate() {
            let next = Word {
                high: *high,
                low: *low,
            };
            assert!(rt; (word < next) == (place < other));
            assert!(rt; (word == next) == (place == other));
        }
    }
    Ok(())
}
