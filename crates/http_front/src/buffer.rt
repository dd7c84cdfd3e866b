// The bytes of a connection that were taken and not yet handed out.
ghost use Rattle.std.specs.Prelude.{◌≡◌, ◌≢◌, ◌≤◌, ◌<◌, ◌-◌, ◌++◌, ℕ, List, [], IfOk, IfSome, length, take, drop};
ghost use Rattle.std.specs.Prelude.{slice_range};
ghost use Rattle.scene_ports.specs.Counts.{Rose};
ghost use Rattle.http_text.specs.Limits.{most_head_bytes};
ghost use Rattle.http_front.specs.Filling.{Fills};
ghost use Rattle.http_front.specs.Reading.{FindsNext, IsReading, TakesOn};

use crate::reading::Reading;
use http_text::{HeadAnswer, MOST_HEAD_BYTES, head};
use scene_ports::{Inlet, Take};
use std::alloc::{AllocError, Global};
use std::marker::Model;

/// The bytes that were taken from a connection and aren't handed out yet, at most `MOST_HEAD_BYTES`. What stands behind
/// a head belongs to the next request. Contracts see the list of these bytes.
#[derive(Drop)]
pub struct HeadBuffer {
    bytes: Vec<u8>,
    start: usize,
    end: usize,
}

impl Model for HeadBuffer {
    ghost Value = { List ℕ };

    ghost view = { λ b. slice_range b.bytes.items b.start b.end };

    ghost invariant = { λ b. (b.start ≤ b.end) × (b.end ≤ most_head_bytes)
        × (length b.bytes.items ≡ most_head_bytes) };
}

impl HeadBuffer {
    /// A buffer that holds nothing. All memory that it needs is taken here.
    pub fn new(alloc: Global) -> Result<HeadBuffer, AllocError>
        ensures { IfOk result (λ buffer. buffer ≡ []) }
    {
        let bytes = vec![in alloc; 0u8; MOST_HEAD_BYTES]?;
        Ok(HeadBuffer {
            bytes,
            start: 0,
            end: 0,
        })
    }

    /// The bytes that stand there.
    pub fn held(&self) -> &[u8]
        ensures held { result.now ≡ self.now }
        ensures within { length self.now ≤ most_head_bytes }
    {
        &self.bytes[self.start..self.end]
    }

    /// Hands out the first bytes: they stand there no more. `count`: at most as many as stand there.
    pub fn consume(&mut self, count: usize)
        requires { count ≤ length self.old }
        ensures { self.new ≡ drop count self.old }
    {
        self.start += count;
    }

    /// Reads what is next on the connection: takes bytes until they begin with a whole head, or with none, or
    /// `MOST_HEAD_BYTES` of them are there, or the inlet ends or fails. A head stays there; `consume` hands it out.
    /// Where bytes stand there already, they are looked at first, and taking stops as soon as they tell.
    pub fn next_head<I: Inlet>(&mut self, inlet: &mut I) -> Reading
        ensures reading { IsReading self.new result }
        ensures found { FindsNext self.new result }
        ensures taken { TakesOn (I.left inlet.old) (I.left inlet.new) self.old self.new }
        ensures end { result ≡ Reading.End → IfSome (I.left inlet.old) (λ left. self.new ≡ self.old ++ left) }
        ensures failed { result ≡ Reading.Failed → Rose (I.faults inlet.old) (I.faults inlet.new) }
        ensures sure { result ≢ Reading.Failed → I.faults inlet.new ≡ I.faults inlet.old }
        ensures later { I.faults inlet.old ≤ I.faults inlet.new }
        ensures aside { I.given_aside inlet.new ≡ I.given_aside inlet.old }
    {
        loop {
            match head(self.held()) {
                HeadAnswer::Whole(parts) => return Reading::Head(parts),
                HeadAnswer::Bad => return Reading::Bad,
                HeadAnswer::More => {}
            }
            if self.held().len() == MOST_HEAD_BYTES {
                return Reading::TooLong;
            }
            match self.fill(inlet) {
                Take::Got(_) => {}
                Take::End => return Reading::End,
                Take::Failed => return Reading::Failed,
            }
        }
    }

    // Takes some of the next bytes, behind those that stand there.
    fn fill<I: Inlet>(&mut self, inlet: &mut I) -> Take
        requires room { length self.old < most_head_bytes }
        ensures next { Fills (I.left inlet.old) (I.left inlet.new) self.old self.new result }
        ensures failed { result ≡ Take.Failed → Rose (I.faults inlet.old) (I.faults inlet.new) }
        ensures sure { result ≢ Take.Failed → I.faults inlet.new ≡ I.faults inlet.old }
        ensures later { I.faults inlet.old ≤ I.faults inlet.new }
        ensures aside { I.given_aside inlet.new ≡ I.given_aside inlet.old }
    {
        move_to_front(&mut self.bytes, self.start, self.end);
        self.end -= self.start;
        self.start = 0;
        let answer = inlet.take(&mut self.bytes[self.end..]);
        if let Take::Got(count) = answer {
            self.end += count;
        }
        answer
    }
}

// Moves a part of the bytes to their front.
fn move_to_front(bytes: &mut Vec<u8>, start: usize, end: usize)
    requires ordered { start ≤ end }
    requires within { end ≤ length bytes.old.items }
    ensures moved { take (end - start) bytes.new.items ≡ slice_range bytes.old.items start end }
    ensures long { length bytes.new.items ≡ length bytes.old.items }
{
    if start > 0 {
        bytes.copy_within(start..end, 0);
    }
}
