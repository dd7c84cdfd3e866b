// The text of a check of a whole tileset.
ghost use Rattle.std.specs.Prelude.{◌≡◌, ◌≤◌, ◌++◌, Err, OnOk, string_bytes, length};
ghost use Rattle.std.specs.List.{All};
ghost use Rattle.std.specs.Io.KnownBytes.{Appends};
ghost use Rattle.implicit_tiling.specs.Code.{IsWord};
ghost use Rattle.implicit_tiling.specs.Text.{fault_line, check_end_line};
ghost use Rattle.scene_ports.specs.Counts.{Rose};
ghost use Rattle.scene_ports.specs.Output.{GivesFront};
ghost use Rattle.request_text.specs.Found.{fault_seen, found_text};

use crate::fields::{push_field, push_place};
use scene_ports::{GiveFault, Outlet, give_rest, give_when_full};
use std::alloc::{AllocError, Global};
use tile_coords::{CheckEnd, FoundFault, Scheme};

/// Gives the text of a check: a line for each fault that it found, and the end line, in pieces of up to 98,304 bytes.
/// After an `Err` some front of the text was given.
pub fn write_check<O: Outlet>(
    alloc: Global,
    scheme: Scheme,
    found: &[FoundFault],
    end: CheckEnd,
    out: &mut O,
) -> Result<(), GiveFault>
    requires { All (λ f. IsWord scheme f.root) found.now }
    ensures given { OnOk result (Appends (O.given out.old) (O.given out.new) (found_text scheme found.now end)) }
    ensures front { GivesFront (O.given out.old) (O.given out.new) (found_text scheme found.now end) }
    ensures failed { result ≡ Err GiveFault.WriteFault → Rose (O.faults out.old) (O.faults out.new) }
    ensures later { O.faults out.old ≤ O.faults out.new }
    ensures aside { O.inlet_aside out.new ≡ O.inlet_aside out.old }
{
    let mut piece = String::new(alloc);
    for fault in found {
        push_fault_line(scheme, *fault, &mut piece)?;
        give_when_full(out, &mut piece)?;
    }
    push_check_end(end, found.len(), &mut piece)?;
    give_rest(out, &mut piece)
}

// Appends the line of a fault.
fn push_fault_line(scheme: Scheme, fault: FoundFault, piece: &mut String) -> Result<(), AllocError>
    requires { IsWord scheme fault.root }
    ensures { OnOk result (string_bytes piece.new ≡ string_bytes piece.old
        ++ fault_line scheme (fault_seen scheme fault)) }
{
    piece.push_str("fault")?;
    push_field(fault.number, piece)?;
    piece.push('\t')?;
    push_place(scheme, fault.root, piece)?;
    piece.push('\n')
}

// Appends the end line of a check that found so many faults.
fn push_check_end(end: CheckEnd, faults: usize, piece: &mut String) -> Result<(), AllocError>
    ensures { OnOk result (string_bytes piece.new ≡ string_bytes piece.old
        ++ check_end_line end.more end.looked faults) }
{
    piece.push_str(if end.more {
        "end\ttoo-many"
    } else {
        "end\tchecked"
    })?;
    push_field(end.looked, piece)?;
    push_field(faults as u64, piece)?;
    piece.push('\n')
}
