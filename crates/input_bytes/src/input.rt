// Taking an input whole.
ghost use Rattle.std.specs.Prelude.{◌≡◌, ◌≢◌, ◌≤◌, length, Err, IfOk};
ghost use Rattle.scene_ports.specs.Counts.{Rose, more_by};
ghost use Rattle.input_bytes.specs.Input.{most_input_bytes, IsWhole, IsLong, IsShort};

use scene_ports::{Inlet, Take};
use std::alloc::{AllocError, Global};

/// The most bytes of an input.
pub const MOST_INPUT_BYTES: usize = 1_048_576;

// So many bytes are asked for at once.
const BLOCK: usize = 16_384;

/// Why an input was not taken whole.
#[derive(Clone, Copy, Debug, PartialEq, Eq)]
pub enum InputStop {
    /// The inlet failed, and has counted a fault.
    Failed,
    /// More than `MOST_INPUT_BYTES` were taken.
    Long,
    /// There was no memory.
    Memory,
}

impl From<AllocError> for InputStop {
    ghost use Rattle.std.specs.Prelude.{◌≡◌};
    ghost use Rattle.input_bytes.specs.declared.input.InputStop.TheVariants.{Memory};

    ghost from_gives = { λ _ stop. stop ≡ Memory };

    fn from(_error: AllocError) -> InputStop {
        InputStop::Memory
    }
}

/// Takes all that an inlet has left, up to `MOST_INPUT_BYTES`. Long comes exactly where more bytes were taken, of which
/// the inlet may have some left; Failed only where the inlet has counted a fault.
pub fn take_input<I: Inlet>(alloc: Global, input: &mut I) -> Result<Vec<u8>, InputStop>
    ensures whole { IfOk result (λ bytes. IsWhole (I.left input.old) (I.left input.new) bytes.items) }
    ensures counted { IfOk result (λ bytes. I.taken input.new ≡ more_by (length bytes.items) (I.taken input.old)) }
    ensures few { IfOk result (λ bytes. length bytes.items ≤ most_input_bytes) }
    ensures long { result ≡ Err InputStop.Long → IsLong (I.taken input.old) (I.taken input.new) }
    ensures short { result ≢ Err InputStop.Long → IsShort (I.taken input.old) (I.taken input.new) }
    ensures failed { result ≡ Err InputStop.Failed → Rose (I.faults input.old) (I.faults input.new) }
    ensures sure { result ≢ Err InputStop.Failed → I.faults input.new ≡ I.faults input.old }
    ensures later { I.faults input.old ≤ I.faults input.new }
    ensures aside { I.given_aside input.new ≡ I.given_aside input.old }
{
    let mut bytes = Vec::new(alloc);
    let mut block = [0; BLOCK];
    loop {
        match input.take(&mut block) {
            Take::Got(count) => {
                if bytes.len() + count > MOST_INPUT_BYTES {
                    return Err(InputStop::Long);
                }
                bytes.extend_from_slice(&block[..count])?;
            }
            Take::End => return Ok(bytes),
            Take::Failed => return Err(InputStop::Failed),
        }
    }
}
