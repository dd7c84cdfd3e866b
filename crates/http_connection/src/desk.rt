// What a connection is served with.
ghost use Rattle.std.specs.Prelude.{◌≡◌, ◌≤◌, ◌==◌, ◌||◌, ◌++◌, true, false, [], IfOk, IfSome, length, drop};
ghost use Rattle.std.specs.Prelude.{slice_range};
ghost use Rattle.scene_ports.specs.Counts.{Rose};
ghost use Rattle.http_front.specs.Reading.{IsReading, TakesOn};
ghost use Rattle.http_front.specs.Requests.{whole};
ghost use Rattle.http_front.specs.Table.{most_replies};
ghost use Rattle.http_front.specs.Deciding.{decision_of};
ghost use Rattle.http_connection.specs.Steps.{ActsOn, RepliesTo, ServesNext, WantsBody};

use crate::giving::{ask, give};
use crate::next::Next;
use crate::viewers::Viewers;
use http_front::{Decided, HeadBuffer, Reading, decide};
use http_text::HeadParts;
use scene_ports::Link;
use std::alloc::{AllocError, Global};

/// The most replies to one connection: the last of them closes it.
pub const MOST_REPLIES: u32 = 1000;

// The bytes that were taken and not yet looked at, the request line that the viewers are asked for, and the piece in
// which a reply is put together.
#[derive(Drop)]
pub(crate) struct Desk {
    alloc: Global,
    buffer: HeadBuffer,
    line: Vec<u8>,
    piece: String,
}

impl Desk {
    // A desk for a connection from which nothing was taken.
    pub(crate) fn new(alloc: Global) -> Result<Desk, AllocError>
        ensures { IfOk result (λ desk. desk.buffer ≡ []) }
    {
        Ok(Desk {
            alloc,
            buffer: HeadBuffer::new(alloc)?,
            line: Vec::new(alloc),
            piece: String::new(alloc),
        })
    }

    // Takes the next request and gives its reply, the n-th of the connection.
    pub(crate) fn serve_next<V: Viewers, L: Link>(
        &mut self,
        n: u32,
        viewers: &mut V,
        link: &mut L,
    ) -> Next
        ensures next { ServesNext V.may viewers.old viewers.new (L.left link.old) (L.left link.new) self.old.buffer
            self.new.buffer (L.given link.old) (L.given link.new) n result }
        ensures failed { result ≡ Next.LinkFault → Rose (L.Inlet.faults link.old) (L.Inlet.faults link.new) }
        ensures later { L.Inlet.faults link.old ≤ L.Inlet.faults link.new }
    {
        match read_next(&mut self.buffer, link) {
            Reading::Head(parts) => self.reply_to(&parts, n, viewers, link),
            Reading::TooLong => give(431, "head too long\n", true, false, &mut self.piece, link),
            Reading::Bad => give(400, "bad request\n", true, false, &mut self.piece, link),
            Reading::End => Next::Ended,
            Reading::Failed => Next::LinkFault,
        }
    }

    // Hands out the head, and gives the reply to it, the n-th of the connection.
    fn reply_to<V: Viewers, L: Link>(
        &mut self,
        parts: &HeadParts,
        n: u32,
        viewers: &mut V,
        link: &mut L,
    ) -> Next
        requires ordered { parts.now.target_start ≤ parts.now.target_end }
        requires inside { parts.now.target_end ≤ length self.old.buffer }
        requires within { parts.now.length ≤ length self.old.buffer }
        requires one_method { parts.now.get ≡ true → parts.now.head ≡ false }
        ensures reply { RepliesTo V.may viewers.old viewers.new (whole parts.now (slice_range self.old.buffer
            parts.now.target_start parts.now.target_end)) (L.given link.old) (L.given link.new) n result }
        ensures behind { self.new.buffer ≡ drop parts.now.length self.old.buffer }
        ensures left { L.left link.new ≡ L.left link.old }
        ensures failed { result ≡ Next.LinkFault → Rose (L.Inlet.faults link.old) (L.Inlet.faults link.new) }
        ensures later { L.Inlet.faults link.old ≤ L.Inlet.faults link.new }
    {
        let close = closes(parts, n);
        let decided = decide(self.buffer.held(), parts, &mut self.line);
        self.buffer.consume(parts.length);
        match decided {
            Ok(decided) => self.act(decided, close, parts.head, viewers, link),
            Err(_) => Next::Memory,
        }
    }

    // Does what was decided: gives the reply, or asks the viewers for it. The request line stands on the desk.
    // `close`: the request or the number of replies ends the connection. `quiet`: no body is wanted.
    fn act<V: Viewers, L: Link>(
        &mut self,
        decided: Decided,
        close: bool,
        quiet: bool,
        viewers: &mut V,
        link: &mut L,
    ) -> Next
        requires { WantsBody decided quiet }
        ensures acts { ActsOn V.may viewers.old viewers.new (decision_of decided self.old.line.items)
            (L.given link.old) (L.given link.new) close quiet result }
        ensures same { self.new.buffer ≡ self.old.buffer }
        ensures left { L.left link.new ≡ L.left link.old }
        ensures failed { result ≡ Next.LinkFault → Rose (L.Inlet.faults link.old) (L.Inlet.faults link.new) }
        ensures later { L.Inlet.faults link.old ≤ L.Inlet.faults link.new }
    {
        let piece = &mut self.piece;
        match decided {
            Decided::BadRequest => give(400, "bad request\n", true, quiet, piece, link),
            Decided::NotFound => give(404, "not found\n", close, quiet, piece, link),
            Decided::NotAllowed => give(405, "method not allowed\n", close, quiet, piece, link),
            Decided::Asks(route) => ask(self.alloc, route, &self.line, close, piece, viewers, link),
        }
    }
}

// The request asks for an end of the connection, or its reply, the n-th, is the last one.
fn closes(parts: &HeadParts, n: u32) -> bool
    ensures { result ≡ (parts.now.http10 || parts.now.close) || n == most_replies }
{
    parts.http10 || parts.close || n == MOST_REPLIES
}

// What is next on the link.
fn read_next<L: Link>(buffer: &mut HeadBuffer, link: &mut L) -> Reading
    ensures reading { IsReading buffer.new result }
    ensures taken { TakesOn (L.left link.old) (L.left link.new) buffer.old buffer.new }
    ensures end { result ≡ Reading.End → IfSome (L.left link.old) (λ left. buffer.new ≡ buffer.old ++ left) }
    ensures given { L.given link.new ≡ L.given link.old }
    ensures failed { result ≡ Reading.Failed → Rose (L.Inlet.faults link.old) (L.Inlet.faults link.new) }
    ensures later { L.Inlet.faults link.old ≤ L.Inlet.faults link.new }
{
    buffer.next_head(link)
}
