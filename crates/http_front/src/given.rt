// Replies that are given in one piece.
ghost use Rattle.std.specs.Prelude.{◌≡◌, ◌≢◌, ◌≤◌, ◌<◌, ◌++◌, ◌^◌, [], OnOk, if◌then◌else◌, length, string_bytes};
ghost use Rattle.std.specs.Io.KnownBytes.{Appends};
ghost use Rattle.scene_ports.specs.Counts.{Rose};
ghost use Rattle.scene_ports.specs.Output.{GivesFront};
ghost use Rattle.http_text.specs.Replies.{IsReplyStatus, reply_head as head_of};
ghost use Rattle.http_front.specs.Table.{whole_reply};

use http_text::reply_head;
use scene_ports::{GiveFault, Outlet, give_all};
use std::alloc::AllocError;

/// Gives a reply with this body, head and body together, so that a short one leaves in one piece. `quiet`: the head
/// alone, with the length that the body would have, as a reply to HEAD is. `piece` is where the reply is put together;
/// what it held before is gone. After an `Err` some front of the reply was given.
pub fn give_reply<O: Outlet>(
    status: u16,
    body: &str,
    close: bool,
    quiet: bool,
    piece: &mut String,
    out: &mut O,
) -> Result<(), GiveFault>
    requires status { IsReplyStatus status }
    ensures given { OnOk result (Appends (O.given out.old) (O.given out.new)
        (whole_reply status body.now close quiet)) }
    ensures front { GivesFront (O.given out.old) (O.given out.new) (whole_reply status body.now close quiet) }
    ensures failed { result ≡ Err GiveFault.WriteFault → Rose (O.faults out.old) (O.faults out.new) }
    ensures sure { result ≢ Err GiveFault.WriteFault → O.faults out.new ≡ O.faults out.old }
    ensures later { O.faults out.old ≤ O.faults out.new }
    ensures aside { O.inlet_aside out.new ≡ O.inlet_aside out.old }
{
    put_together(status, body, close, quiet, piece)?;
    give_all(out, piece.as_bytes())
}

// A reply, in place of what the piece held.
fn put_together(
    status: u16,
    body: &str,
    close: bool,
    quiet: bool,
    piece: &mut String,
) -> Result<(), AllocError>
    requires status { IsReplyStatus status }
    ensures { OnOk result (string_bytes piece.new ≡ whole_reply status body.now close quiet) }
{
    piece.clear();
    reply_head(status, body.len() as u64, close, piece)?;
    if quiet {
        return Ok(());
    }
    piece.push_str(body)
}
