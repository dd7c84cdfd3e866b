// Whether the ones of some bytes are ones of others.
ghost use Rattle.std.specs.Prelude.{◌*◌, ◌≤◌, MatchBool, length};
ghost use Rattle.bitstream.specs.Bits.{IsWithin, HasOneAlone};
ghost use Rattle.implicit_tiling.specs.Bits.{bit_of_bytes};

use crate::words::{first_word, word_of};

// Whether each of the first n bits that is 1 is 1 in the other bytes too.
pub(crate) fn has_all_of(other: &[u8], bytes: &[u8], n: u64) -> bool
    requires own { n ≤ 8 * length bytes.now }
    requires others { n ≤ 8 * length other.now }
    ensures { MatchBool result (IsWithin (bit_of_bytes bytes.now) (bit_of_bytes other.now) n)
        (HasOneAlone (bit_of_bytes bytes.now) (bit_of_bytes other.now) n) }
{
    let whole = (n / 64) as usize;
    let words = &bytes.as_chunks::<8>().0[..whole];
    let others = other.as_chunks::<8>().0;
    for (index, word) in words.iter().enumerate() {
        let alone = word_of(*word) & !word_of(others[index]);
        if alone != 0 {
            return false;
        }
    }
    let alone = first_word(&bytes[8 * whole..]) & !first_word(&other[8 * whole..]);
    alone & ((1 << (n % 64)) - 1) == 0
}
