// Three coordinates: places of three bits, x in the lowest one.
ghost use Rattle.std.specs.Prelude.{ℕ, ◌≡◌, ◌*◌, ◌^◌, ◌<◌};
ghost use Rattle.implicit_tiling.specs.Tile.{interleaved, bit};

use implicit_tiling::Scheme;

// The bits of a 21-bit number stand together in runs of 16, 8, 4, 2 and 1, each run followed by twice as many zeros.
const RUNS_OF_16: u64 = 0x001F_0000_0000_FFFF;

const RUNS_OF_8: u64 = 0x001F_0000_FF00_00FF;

const RUNS_OF_4: u64 = 0x100F_00F0_0F00_F00F;

const RUNS_OF_2: u64 = 0x10C3_0C30_C30C_30C3;

const RUNS_OF_1: u64 = 0x1249_2492_4924_9249;

const LOW_21: u64 = 0x001F_FFFF;

/// The Morton index of three coordinates, each below 2^21: bits 3j, 3j+1 and 3j+2 are bit j of `x`, `y` and `z`
/// (OGC 22-025r4, Morton index).
#[inline]
pub fn index3(x: u32, y: u32, z: u32) -> u64
    requires x_fits { x < 2 ^ 21 }
    requires y_fits { y < 2 ^ 21 }
    requires z_fits { z < 2 ^ 21 }
    ensures { result ≡ interleaved Scheme.Oct 21 x y z }
{
    spread(x) | spread(y) << 1 | spread(z) << 2
}

/// The coordinates, x, y and z, whose Morton index is `m`, which is below 2^63: the inverse of `index3`.
#[inline]
pub fn coords3(m: u64) -> (u32, u32, u32)
    requires { m < 2 ^ 63 }
    ensures x_fits { result.0 < 2 ^ 21 }
    ensures y_fits { result.1 < 2 ^ 21 }
    ensures z_fits { result.2 < 2 ^ 21 }
    ensures index { interleaved Scheme.Oct 21 result.0 result.1 result.2 ≡ m }
    ensures only { (x y z : ℕ) → x < 2 ^ 21 → y < 2 ^ 21 → z < 2 ^ 21 → interleaved Scheme.Oct 21 x y z ≡ m
        → (result.0 ≡ x) × (result.1 ≡ y) × (result.2 ≡ z) }
{
    (gather(m), gather(m >> 1), gather(m >> 2))
}

// The bits of `x`, each in the lowest bit of its place.
#[inline]
fn spread(x: u32) -> u64
    requires { x < 2 ^ 21 }
    ensures { result ≡ interleaved Scheme.Oct 21 x 0 0 }
{
    let word = x as u64;
    let word = (word | word << 32) & RUNS_OF_16;
    let word = (word | word << 16) & RUNS_OF_8;
    let word = (word | word << 8) & RUNS_OF_4;
    let word = (word | word << 4) & RUNS_OF_2;
    (word | word << 2) & RUNS_OF_1
}

// The lowest bits of the 21 places.
#[inline]
fn gather(m: u64) -> u32
    ensures fits { result < 2 ^ 21 }
    ensures bits { (j : ℕ) → j < 21 → bit j result ≡ bit (3 * j) m }
{
    let word = m & RUNS_OF_1;
    let word = (word | word >> 2) & RUNS_OF_2;
    let word = (word | word >> 4) & RUNS_OF_4;
    let word = (word | word >> 8) & RUNS_OF_8;
    let word = (word | word >> 16) & RUNS_OF_16;
    ((word | word >> 32) & LOW_21) as u32
}
