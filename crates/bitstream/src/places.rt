// Bytes by the places of their ones.
ghost use Rattle.std.specs.Prelude.{◌<◌, All, IfOk};
ghost use Rattle.bitstream.specs.Places.{HasOnesAt};

use std::alloc::{AllocError, Global};

// As few bytes as `count` bits fill, in which the bits at the places are 1 and the others are 0.
pub(crate) fn bytes_of_places(
    alloc: Global,
    count: u64,
    places: &[u64],
) -> Result<Vec<u8>, AllocError>
    requires { All (λ p. p < count) places.now }
    ensures { IfOk result (λ bytes. HasOnesAt bytes.items count places.now) }
{
    let mut bytes = vec![in alloc; 0; count.div_ceil(8) as usize]?;
    for &place in places {
        bytes[(place / 8) as usize] |= 1 << (place % 8);
    }
    Ok(bytes)
}
