// Giving texts to an outlet.
ghost use Rattle.std.specs.Prelude.{◌≡◌, ◌≢◌, ◌≤◌, ◌<◌, [], IsOk, OnOk, OnErr, string_bytes, string_len};
ghost use Rattle.std.specs.Io.KnownBytes.{Appends};
ghost use Rattle.scene_ports.specs.Counts.{Rose};
ghost use Rattle.scene_ports.specs.Output.{GivesFront, GivesAllBut};

use crate::{Give, Outlet};
use std::alloc::AllocError;

/// Why a text was not given whole.
#[derive(Clone, Copy, Debug, PartialEq, Eq)]
pub enum GiveFault {
    /// The outlet failed, and has counted a fault.
    WriteFault,
    /// There was no memory.
    Memory,
}

impl From<AllocError> for GiveFault {
    ghost use Rattle.scene_ports.specs.declared.output.GiveFault.TheVariants.{Memory};

    ghost from_gives = { λ _ fault. fault ≡ Memory };

    fn from(_error: AllocError) -> GiveFault {
        GiveFault::Memory
    }
}

/// So many bytes make a piece that is worth a call of an outlet. Pieces stay below twice as many, 65,536, where no line
/// has more than this.
pub const FULL: usize = 32768;

/// Gives all bytes of a piece. After an `Err` some front of it was given.
pub fn give_all<O: Outlet>(out: &mut O, bytes: &[u8]) -> Result<(), GiveFault>
    ensures given { OnOk result (Appends (O.given out.old) (O.given out.new) bytes.now) }
    ensures front { GivesFront (O.given out.old) (O.given out.new) bytes.now }
    ensures failed { result ≡ Err GiveFault.WriteFault → Rose (O.faults out.old) (O.faults out.new) }
    ensures sure { result ≢ Err GiveFault.WriteFault → O.faults out.new ≡ O.faults out.old }
    ensures later { O.faults out.old ≤ O.faults out.new }
    ensures aside { O.inlet_aside out.new ≡ O.inlet_aside out.old }
{
    let mut rest = bytes;
    while !rest.is_empty() {
        match out.give(rest) {
            Give::Took(n) => rest = &rest[n..],
            Give::Failed => return Err(GiveFault::WriteFault),
            Give::Memory => return Err(GiveFault::Memory),
        }
    }
    Ok(())
}

/// Gives the piece that is held back, and empties it. After an `Err` some front of it was given, and the piece is as
/// it was.
pub fn give_rest<O: Outlet>(out: &mut O, piece: &mut String) -> Result<(), GiveFault>
    ensures given { OnOk result (Appends (O.given out.old) (O.given out.new) (string_bytes piece.old)) }
    ensures emptied { OnOk result (string_bytes piece.new ≡ []) }
    ensures held { OnErr result (string_bytes piece.new ≡ string_bytes piece.old) }
    ensures front { GivesFront (O.given out.old) (O.given out.new) (string_bytes piece.old) }
    ensures failed { result ≡ Err GiveFault.WriteFault → Rose (O.faults out.old) (O.faults out.new) }
    ensures sure { result ≢ Err GiveFault.WriteFault → O.faults out.new ≡ O.faults out.old }
    ensures later { O.faults out.old ≤ O.faults out.new }
    ensures aside { O.inlet_aside out.new ≡ O.inlet_aside out.old }
{
    give_all(out, piece.as_bytes())?;
    piece.clear();
    Ok(())
}

/// Gives the piece that is held back once it holds `FULL` bytes, and empties it then; a shorter piece waits, and the
/// outlet isn't called. Called after each line that a text gains, it makes few calls of the outlet. After an `Err`
/// some front of the piece was given, and the piece is as it was.
pub fn give_when_full<O: Outlet>(out: &mut O, piece: &mut String) -> Result<(), GiveFault>
    ensures given { OnOk result (GivesAllBut (O.given out.old) (O.given out.new) (string_bytes piece.new)
        (string_bytes piece.old)) }
    ensures waits { string_len piece.old < FULL → out.new ≡ out.old }
    ensures ok { string_len piece.old < FULL → IsOk result }
    ensures kept { string_len piece.old < FULL → string_bytes piece.new ≡ string_bytes piece.old }
    ensures emptied { FULL ≤ string_len piece.old → OnOk result (string_bytes piece.new ≡ []) }
    ensures short { OnOk result (string_len piece.new < FULL) }
    ensures held { OnErr result (string_bytes piece.new ≡ string_bytes piece.old) }
    ensures front { GivesFront (O.given out.old) (O.given out.new) (string_bytes piece.old) }
    ensures failed { result ≡ Err GiveFault.WriteFault → Rose (O.faults out.old) (O.faults out.new) }
    ensures sure { result ≢ Err GiveFault.WriteFault → O.faults out.new ≡ O.faults out.old }
    ensures later { O.faults out.old ≤ O.faults out.new }
    ensures aside { O.inlet_aside out.new ≡ O.inlet_aside out.old }
{
    if piece.len() < FULL {
        return Ok(());
    }
    give_rest(out, piece)
}
