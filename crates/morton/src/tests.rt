// Values of the standard's formula, and the greatest ones.
use crate::{coords2, coords3, index2, index3};
use std::test::Fail;

#[test]
fn worked_values(rt: HostRuntime) -> Result<(), Fail> {
    let pairs: [(u32, u32, u64); 3] = [
        (5, 3, 27),
        (33554431, 33554431, 1125899906842623),
        (u32::MAX, u32::MAX, u64::MAX),
    ];
    for (x, y, index) in pairs {
        assert!(rt; index2(x, y) == index);
        assert!(rt; coords2(index) == (x, y));
    }
    assert!(rt; index3(1, 2, 3) == 53);
    assert!(rt; coords3(53) == (1, 2, 3));
    assert!(rt; index3(2097151, 2097151, 2097151) == 9223372036854775807);
    assert!(rt; coords3(9223372036854775807) == (2097151, 2097151, 2097151));
    Ok(())
}
