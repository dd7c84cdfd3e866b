//! The order of the frames, the last asked first.
ghost use Rattle.std.specs.Prelude.{◌≡◌, ◌≤◌, ℕ, eqb, count_by, length, IfOk};
ghost use Rattle.std.specs.List.{range_with_len};
ghost use Rattle.std.specs.Iterator.{at_most};
ghost use Rattle.std.specs.Map.Iter.{TakesFirst, TakesLast, GivesInOrder, GivesInReverse};
ghost use Rattle.frame_pool.specs.Frames.{most_frames};
ghost use Rattle.frame_pool.specs.Moves.{asked_last};

use lru::LruCache;
use std::alloc::{AllocError, Global};
use std::marker::Model;
use std::num::NonZeroUsize;

// The numbers of the frames in a linked list, so that a frame comes to the front without a move of the others.
#[derive(Drop)]
pub(crate) struct FrameOrder {
    frames: LruCache<u32, ()>,
}

impl Model for FrameOrder {
    ghost use Rattle.std.specs.Prelude.{ℕ, List};
    ghost use Rattle.std.specs.Map.{keys_of};

    ghost Value = { List ℕ };

    ghost view = { λ o. keys_of o.frames.entries };
}

impl FrameOrder {
    // This many frames, in the order of their numbers.
    pub(crate) fn new(alloc: Global, frames: usize) -> Result<FrameOrder, AllocError>
        requires { (1 ≤ frames) × (frames ≤ most_frames) }
        ensures { IfOk result (λ order. order ≡ range_with_len 0 frames) }
    {
        let Some(capacity) = NonZeroUsize::new(frames) else {
            unreachable!()
        };
        let mut order = LruCache::new(alloc, capacity)?;
        for frame in (0..frames).rev() {
            order.put(frame as u32, ())?;
        }
        Ok(FrameOrder { frames: order })
    }

    // Moves the frame to the front.
    pub(crate) fn move_to_front(&mut self, frame: u32)
        requires { count_by (λ g. eqb g frame) self.old ≡ 1 }
        ensures { self.new ≡ asked_last frame self.old }
    {
        self.frames.promote(&frame);
    }

    pub(crate) fn iter(&self) -> Order<'_>
        ensures rest { result ≡ self.now }
        ensures runs { GivesInOrder ℕ }
        ensures runs_back { GivesInReverse ℕ }
    {
        Order {
            frames: self.frames.iter(),
        }
    }
}

/// The numbers of the frames, the last asked first. It is seen as the list of those that are left.
#[derive(Drop)]
pub struct Order<'a> {
    frames: lru::Iter<'a, u32, ()>,
}

impl<'a> Model for Order<'a> {
    ghost use Rattle.std.specs.Prelude.{ℕ, List};
    ghost use Rattle.std.specs.Map.{keys_of};

    ghost Value = { List ℕ };

    ghost view = { λ o. keys_of o.frames };
}

impl<'a> Iterator for Order<'a> {
    type Item = u32;

    ghost next_gives = { TakesFirst (λ frame. frame) };

    ghost remaining = { λ left. at_most (length left) };

    fn next(&mut self) -> Option<u32> {
        let (frame, _) = self.frames.next()?;
        Some(*frame)
    }
}

impl<'a> DoubleEndedIterator for Order<'a> {
    ghost next_back_gives = { TakesLast (λ frame. frame) };

    fn next_back(&mut self) -> Option<u32> {
        let (frame, _) = self.frames.next_back()?;
        Some(*frame)
    }
}
