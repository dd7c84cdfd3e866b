// Replies on a link.
ghost use Rattle.std.specs.Prelude.{◌≡◌, ◌≤◌, ◌++◌, true, false, OnOk, string_bytes, length as length_of};
ghost use Rattle.implicit_tiling.specs.Text.{refused_text};
ghost use Rattle.scene_ports.specs.Counts.{Rose};
ghost use Rattle.http_text.specs.Replies.{IsReplyStatus};
ghost use Rattle.http_front.specs.Table.{whole_reply};
ghost use Rattle.http_connection.specs.Steps.{GivesReply, GivesAsked};

use crate::answers::ViewersAnswer;
use crate::next::Next;
use crate::viewers::Viewers;
use http_front::give_reply;
use http_text::{Route, reply_head};
use itoa::Buffer;
use scene_ports::{GiveFault, Link};
use std::alloc::{AllocError, Global};

// Gives a reply with this body, after which the connection is closed or not. `quiet`: its head alone.
pub(crate) fn give<L: Link>(
    status: u16,
    body: &str,
    close: bool,
    quiet: bool,
    piece: &mut String,
    link: &mut L,
) -> Next
    requires status { IsReplyStatus status }
    ensures reply { GivesReply (L.given link.old) (L.given link.new) (whole_reply status body.now close quiet) close
        result }
    ensures left { L.left link.new ≡ L.left link.old }
    ensures failed { result ≡ Next.LinkFault → Rose (L.Inlet.faults link.old) (L.Inlet.faults link.new) }
    ensures later { L.Inlet.faults link.old ≤ L.Inlet.faults link.new }
{
    match give_reply(status, body, close, quiet, piece, link) {
        Ok(()) => after_reply(close),
        Err(GiveFault::WriteFault) => Next::LinkFault,
        Err(GiveFault::Memory) => Next::Memory,
    }
}

// Asks the viewers, and gives the reply to what they answer.
pub(crate) fn ask<V: Viewers, L: Link>(
    alloc: Global,
    route: Route,
    line: &[u8],
    close: bool,
    piece: &mut String,
    viewers: &mut V,
    link: &mut L,
) -> Next
    ensures asked { GivesAsked V.may viewers.old viewers.new route line.now (L.given link.old) (L.given link.new) close
        result }
    ensures left { L.left link.new ≡ L.left link.old }
    ensures failed { result ≡ Next.LinkFault → Rose (L.Inlet.faults link.old) (L.Inlet.faults link.new) }
    ensures later { L.Inlet.faults link.old ≤ L.Inlet.faults link.new }
{
    match viewers.answer(route, line) {
        ViewersAnswer::Refused(number) => give_refusal(alloc, number, close, piece, link),
        ViewersAnswer::Busy => give(503, "busy\n", close, false, piece, link),
        ViewersAnswer::ReadFault => give(502, "read fault\n", close, false, piece, link),
        ViewersAnswer::Text(length) => give_text(viewers, length, close, piece, link),
        ViewersAnswer::Memory => Next::Memory,
    }
}

// Gives the reply with the text that stands ready, which has this length.
fn give_text<V: Viewers, L: Link>(
    viewers: &V,
    length: u64,
    close: bool,
    piece: &mut String,
    link: &mut L,
) -> Next
    requires length { length ≡ length_of (V.text viewers.now) }
    ensures reply { GivesReply (L.given link.old) (L.given link.new)
        (whole_reply 200 (V.text viewers.now) close false) close result }
    ensures left { L.left link.new ≡ L.left link.old }
    ensures failed { result ≡ Next.LinkFault → Rose (L.Inlet.faults link.old) (L.Inlet.faults link.new) }
    ensures later { L.Inlet.faults link.old ≤ L.Inlet.faults link.new }
{
    piece.clear();
    if reply_head(200, length, close, piece).is_err() {
        return Next::Memory;
    }
    match viewers.write_text(piece, link) {
        Ok(()) => after_reply(close),
        Err(GiveFault::WriteFault) => Next::LinkFault,
        Err(GiveFault::Memory) => Next::Memory,
    }
}

// Appends the text of a line that this rule refuses.
fn push_refusal(number: u64, body: &mut String) -> Result<(), AllocError>
    ensures { OnOk result (string_bytes body.new ≡ string_bytes body.old ++ refused_text number) }
{
    let mut digits = Buffer::new();
    body.push_str("refused\t")?;
    body.push_str(digits.format(number))?;
    body.push('\n')
}

// Gives the reply to a line that this rule refuses.
fn give_refusal<L: Link>(
    alloc: Global,
    number: u64,
    close: bool,
    piece: &mut String,
    link: &mut L,
) -> Next
    ensures reply { GivesReply (L.given link.old) (L.given link.new)
        (whole_reply 400 (refused_text number) close false) close result }
    ensures left { L.left link.new ≡ L.left link.old }
    ensures failed { result ≡ Next.LinkFault → Rose (L.Inlet.faults link.old) (L.Inlet.faults link.new) }
    ensures later { L.Inlet.faults link.old ≤ L.Inlet.faults link.new }
{
    let mut body = String::new(alloc);
    if push_refusal(number, &mut body).is_err() {
        return Next::Memory;
    }
    give(400, &body, close, false, piece, link)
}

// What a reply that was given leaves the connection in.
fn after_reply(close: bool) -> Next
    ensures open { close ≡ false → result ≡ Next.Open }
    ensures closed { close ≡ true → result ≡ Next.Closed }
{
    if close { Next::Closed } else { Next::Open }
}
