// The serving of a connection.
ghost use Rattle.std.specs.Prelude.{◌≡◌, ◌≢◌, ◌≤◌};
ghost use Rattle.scene_ports.specs.Counts.{Rose};
ghost use Rattle.http_front.specs.Table.{most_replies};
ghost use Rattle.http_front.specs.Talk.{IsClosed, IsCutShort};

use crate::desk::{Desk, MOST_REPLIES};
use crate::next::Next;
use crate::served::{Served, ServedEnd};
use crate::viewers::Viewers;
use scene_ports::Link;
use std::alloc::Global;

/// Serves a connection to its end (RFC 9112, section 9.3): the requests of the bytes that are taken from the link are
/// replied to in order, one reply for each whole, bad or too long head, up to the first reply that closes the
/// connection. Pipelined requests need no take of their own. After LinkFault and Memory what was given is a front of
/// the replies. `replies`: how many were given whole before the end.
pub fn serve_connection<V: Viewers, L: Link>(alloc: Global, viewers: &mut V, link: &mut L) -> Served
    ensures closed { result.end ≡ ServedEnd.Closed → IsClosed V.may viewers.old viewers.new (L.left link.old)
        (L.left link.new) (L.given link.old) (L.given link.new) result.replies }
    ensures cut_short { result.end ≢ ServedEnd.Closed → IsCutShort V.may viewers.old viewers.new (L.left link.old)
        (L.left link.new) (L.given link.old) (L.given link.new) result.replies }
    ensures failed { result.end ≡ ServedEnd.LinkFault → Rose (L.Inlet.faults link.old) (L.Inlet.faults link.new) }
    ensures later { L.Inlet.faults link.old ≤ L.Inlet.faults link.new }
    ensures most { result.replies ≤ most_replies }
{
    let mut replies = 0;
    let Ok(mut desk) = Desk::new(alloc) else {
        return ended(ServedEnd::Memory, replies);
    };
    loop {
        match desk.serve_next(replies + 1, viewers, link) {
            Next::Open => replies += 1,
            Next::Closed => return ended(ServedEnd::Closed, replies + 1),
            Next::Ended => return ended(ServedEnd::Closed, replies),
            Next::LinkFault => return ended(ServedEnd::LinkFault, replies),
            Next::Memory => return ended(ServedEnd::Memory, replies),
        }
    }
}

fn ended(end: ServedEnd, replies: u32) -> Served
    ensures end { result.end ≡ end }
    ensures replies { result.replies ≡ replies }
{
    Served { end, replies }
}
