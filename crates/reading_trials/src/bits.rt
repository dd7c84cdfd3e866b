// What no clause says: each call succeeds on good arguments. The bits, the counts and the places are also compared
// with a plain loop over the bits.
use bitstream::Bits;
use std::test::Fail;

#[test]
fn bits(rt: HostRuntime) -> Result<(), Fail> {
    // of so many bytes, all 0 but the last, so many bits: their first 1, and how many they have
    let rows: [(usize, u64, Option<u64>, u64); 3] = [
        (33, 264, Some(263), 1),
        (33, 263, None, 0),
        (133, 1064, Some(1063), 1),
    ];
    for (length, count, found, ones) in rows {
        let mut bytes = vec![in rt.alloc(); 0u8; length]?;
        if let Some(last) = bytes.last_mut() {
            *last = 0x80;
        }
        let Some(bits) = Bits::of_bytes(bytes, count) else {
            return Err(Fail::new("the bytes are enough"));
        };
        let end = bits.count();
        assert!(rt; end == count);
        assert!(rt; bits.next_one(0, end) == found);
        assert!(rt; bits.next_one(0, end.saturating_sub(1)).is_none());
        assert!(rt; bits.ones(end) == ones && bits.ones(end.saturating_sub(1)) == 0);
    }
    assert!(rt; Bits::of_bytes(vec![in rt.alloc(); 0u8; 33]?, 265).is_none());
    for (bit, count) in [(false, u64::MAX), (true, u64::MAX)] {
        let bits = Bits::constant(bit, count);
        let end = bits.count();
        assert!(rt; end == count);
        assert!(rt; bits.ones(end) == if bit { end } else { 0 });
        assert!(rt; bits.next_one(0, end).is_some() == bit);
    }
    Ok(())
}

#[test]
fn a_plain_loop_agrees(rt: HostRuntime) -> Result<(), Fail> {
    let mut bytes = vec![in rt.alloc(); 0u8; 33]?;
    let mut state = 1u8;
    for byte in bytes.iter_mut() {
        state = state.wrapping_mul(197).wrapping_add(59);
        *byte = state & state >> 2;
    }
    let Some(bits) = Bits::of_bytes(bytes, 261) else {
        return Err(Fail::new("33 bytes are enough"));
    };
    let mut ones = 0u64;
    for n in 0..bits.count() {
        let bit = bits.get(n);
        assert!(rt; bits.ones(n) == ones);
        assert!(rt; bits.next_one(n, n + 1).is_some() == bit);
        ones = ones.wrapping_add(u64::from(bit));
    }
    let mut written = vec![in rt.alloc(); 7u8; 1]?;
    bits.append_bytes(&mut written)?;
    Bits::constant(true, 3).append_bytes(&mut written)?;
    assert!(rt; written.len() == 35 && written.first() == Some(&7) && written.last() == Some(&7));
    Ok(())
}

#[test]
fn ones_at_places(rt: HostRuntime) -> Result<(), Fail> {
    let mut written = Vec::new(rt.alloc());
    Bits::of_places(rt.alloc(), 20, &[19, 3, 0, 3])?.append_bytes(&mut written)?;
    Bits::of_places(rt.alloc(), 8, &[7])?.append_bytes(&mut written)?;
    Bits::of_places(rt.alloc(), 9, &[])?.append_bytes(&mut written)?;
    Bits::of_places(rt.alloc(), 0, &[])?.append_bytes(&mut written)?;
    assert_eq!(rt; written.as_slice(), [9, 0, 8, 128, 0, 0].as_slice());
    Ok(())
}
