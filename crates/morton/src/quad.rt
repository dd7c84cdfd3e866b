// Two coordinates: places of two bits, x in the lower one.
ghost use Rattle.std.specs.Prelude.{ℕ, ◌≡◌, ◌*◌, ◌^◌, ◌<◌};
ghost use Rattle.implicit_tiling.specs.Tile.{interleaved, bit};

use implicit_tiling::Scheme;

// The bits of a 32-bit number stand together in runs of 16, 8, 4, 2 and 1, each run followed by as many zeros.
const RUNS_OF_16: u64 = 0x0000_FFFF_0000_FFFF;

const RUNS_OF_8: u64 = 0x00FF_00FF_00FF_00FF;

const RUNS_OF_4: u64 = 0x0F0F_0F0F_0F0F_0F0F;

const RUNS_OF_2: u64 = 0x3333_3333_3333_3333;

const RUNS_OF_1: u64 = 0x5555_5555_5555_5555;

const LOW_32: u64 = 0xFFFF_FFFF;

/// The Morton index of two coordinates: bit 2j is bit j of `x`, and bit 2j+1 is bit j of `y`
/// (OGC 22-025r4, Morton index).
#[inline]
pub fn index2(x: u32, y: u32) -> u64
    ensures { result ≡ interleaved Scheme.Quad 32 x y 0 }
{
    spread(x) | spread(y) << 1
}

/// The coordinates, x and y, whose Morton index is `m`: the inverse of `index2`.
#[inline]
pub fn coords2(m: u64) -> (u32, u32)
    ensures index { interleaved Scheme.Quad 32 result.0 result.1 0 ≡ m }
    ensures only { (x y : ℕ) → x < 2 ^ 32 → y < 2 ^ 32 → interleaved Scheme.Quad 32 x y 0 ≡ m → (result.0 ≡ x)
        × (result.1 ≡ y) }
{
    (gather(m), gather(m >> 1))
}

// The bits of `x`, each in the lower bit of its place.
#[inline]
fn spread(x: u32) -> u64
    ensures { result ≡ interleaved Scheme.Quad 32 x 0 0 }
{
    let word = x as u64;
    let word = (word | word << 16) & RUNS_OF_16;
    let word = (word | word << 8) & RUNS_OF_8;
    let word = (word | word << 4) & RUNS_OF_4;
    let word = (word | word << 2) & RUNS_OF_2;
    (word | word << 1) & RUNS_OF_1
}

// The lower bits of all places.
#[inline]
fn gather(m: u64) -> u32
    ensures { (j : ℕ) → j < 32 → bit j result ≡ bit (2 * j) m }
{
    let word = m & RUNS_OF_1;
    let word = (word | word >> 1) & RUNS_OF_2;
    let word = (word | word >> 2) & RUNS_OF_4;
    let word = (word | word >> 4) & RUNS_OF_8;
    let word = (word | word >> 8) & RUNS_OF_16;
    ((word | word >> 16) & LOW_32) as u32
}
