//! The pool and its calls.
ghost use Rattle.std.specs.Prelude.{◌≡◌, ◌-◌, ◌^◌, ◌<◌, ◌≤◌, ℕ, length, replicate, slice_get, IfOk, IfSome, IfNone, Some, None};
ghost use Rattle.std.specs.List.{range_with_len};
ghost use Rattle.std.specs.List.Sorted.{IsPermutation};
ghost use Rattle.std.specs.Map.Iter.{GivesInOrder, GivesInReverse};
ghost use Rattle.frame_pool.specs.States.{pins_of};
ghost use Rattle.frame_pool.specs.Frames.{most_frames, EachFrame, IsLoadingAt, IsReadyAt, IsPinnedAt, HasKeysOnce};
ghost use Rattle.frame_pool.specs.Frames.{KeepsPinned, empty_frames};
ghost use Rattle.frame_pool.specs.Moves.{IsAskAnswer, MayGoOn, after_ask, after_settle, after_unpin};
ghost use Rattle.frame_pool.specs.Moves.{settled as settled_of};
ghost use Rattle.frame_pool.specs.declared.frame.FrameState.TheVariants.{Empty as empty, Loading as loading};
ghost use Rattle.frame_pool.specs.declared.frame.Asked.{Asked as asked};
ghost use Rattle.frame_pool.specs.declared.frame.Asked.TheVariants.{Hit as hit};

use crate::frame::{Asked, FrameState};
use crate::key_notes::{holder, note};
use crate::order::{FrameOrder, Order};
use crate::victim::{least_empty_after, victim};
use std::alloc::{AllocError, Global};
use std::collections::HashMap;
use std::hash::Hash;
use std::marker::Model;

/// Frames for values with keys, of which each value stands in one frame and stays there while it is pinned.
#[derive(Drop)]
pub struct Pool<K: Copy + Eq + Hash, V: Drop> {
    census: Vec<FrameState<K>>,
    values: Vec<Option<V>>,
    order: FrameOrder,
    // Of each key, the frame that it was given last.
    notes: HashMap<K, u32>,
    // No frame below it is empty.
    least_empty: usize,
}

impl<K: Copy + Eq + Hash, V: Drop> Model for Pool<K, V> {
    ghost use Rattle.frame_pool.specs.Frames.{Frames};
    ghost use Rattle.frame_pool.specs.Finding.{IsKept};

    ghost Value = { Frames K V };

    ghost view = { λ p. record { census = p.census.items; values = p.values.items; order = p.order } };

    ghost invariant = { λ p. IsKept K.eq p.census.items p.values.items p.order p.notes p.least_empty };
}

impl<K: Copy + Eq + Hash, V: Drop> Pool<K, V> {
    /// A pool of this many empty frames, in the order of their numbers. All memory of the pool is taken here; an
    /// error is want of it.
    pub fn new(alloc: Global, frames: usize) -> Result<Pool<K, V>, AllocError>
        requires { (1 ≤ frames) × (frames ≤ most_frames) }
        ensures { IfOk result (λ pool. pool ≡ empty_frames frames) }
    {
        Ok(Pool {
            census: empty_states(alloc, frames)?,
            values: no_values(alloc, frames)?,
            order: FrameOrder::new(alloc, frames)?,
            // Twice the room that the frames need, so that the notes are seldom made anew.
            notes: HashMap::with_capacity(alloc, 2 * frames)?,
            least_empty: 0,
        })
    }

    /// The state of each frame, by its number. No two frames have one key.
    pub fn census(&self) -> &[FrameState<K>]
        ensures states { result.now ≡ self.now.census }
        ensures keys { HasKeysOnce K.eq self.now.census }
    {
        &self.census
    }

    /// The numbers of the frames, the last asked first.
    pub fn order(&self) -> Order<'_>
        ensures order { result ≡ self.now.order }
        ensures runs { GivesInOrder ℕ }
        ensures runs_back { GivesInReverse ℕ }
        ensures numbers { IsPermutation (range_with_len 0 (length self.now.census)) self.now.order }
    {
        self.order.iter()
    }

    /// The frame that a hit of the key would answer. Nothing is asked, and nothing changes.
    pub fn find(&self, key: K) -> Option<u32>
        ensures found { IfSome result (λ frame. IsAskAnswer K.eq key self.now (hit frame)) }
        ensures none { IfNone result ((f : ℕ) → ¬ IsAskAnswer K.eq key self.now (hit f)) }
    {
        match holder(&self.census, &self.notes, key) {
            Some(frame) => match self.census[frame as usize] {
                FrameState::Ready { .. } => Some(frame),
                _ => None,
            },
            None => None,
        }
    }

    /// Asks for the value of the key. A hit is one more pin of its frame, which `unpin` ends. A granted frame waits
    /// for the value, which `settle` brings. Where another one is loading the key, or every frame is pinned, nothing
    /// changes.
    pub fn ask(&mut self, key: K) -> Asked
        requires { EachFrame (λ state. pins_of state < 2 ^ 32 - 1) self.old.census }
        ensures answer { IsAskAnswer K.eq key self.old result }
        ensures only { (other : asked) → IsAskAnswer K.eq key self.old other → other ≡ result }
        ensures after { self.new ≡ after_ask key self.old result }
        ensures count { length self.new.census ≡ length self.old.census }
        ensures pinned { KeepsPinned self.old self.new }
        ensures next { MayGoOn result self.new.census }
    {
        match holder(&self.census, &self.notes, key) {
            Some(frame) => match self.census[frame as usize] {
                FrameState::Ready { key: own, pins } => {
                    self.census[frame as usize] = FrameState::Ready {
                        key: own,
                        pins: pins + 1,
                    };
                    self.order.move_to_front(frame);
                    Asked::Hit(frame)
                }
                _ => Asked::Loading,
            },
            None => match victim(&self.census, &self.order, &mut self.least_empty) {
                Some(frame) => {
                    note(&self.census, &mut self.notes, key, frame);
                    self.census[frame as usize] = FrameState::Loading { key };
                    self.values[frame as usize] = None;
                    self.order.move_to_front(frame);
                    Asked::Granted(frame)
                }
                None => Asked::Busy,
            },
        }
    }

    /// Ends the loading of the frame. With a value it is ready, with one pin; without one it is empty.
    pub fn settle(&mut self, frame: u32, value: Option<V>)
        requires { IsLoadingAt self.old.census frame }
        ensures after { self.new ≡ after_settle frame value self.old }
        ensures count { length self.new.census ≡ length self.old.census }
        ensures next { IfSome value (λ _. IsPinnedAt self.new.census frame) }
    {
        let at = frame as usize;
        let FrameState::Loading { key } = self.census[at] else {
            unreachable!()
        };
        let state = settled(key, &value);
        self.least_empty = least_empty_after(self.least_empty, at, &state);
        self.census[at] = state;
        self.values[at] = value;
    }

    /// Ends one pin of the frame.
    pub fn unpin(&mut self, frame: u32)
        requires { IsPinnedAt self.old.census frame }
        ensures after { self.new ≡ after_unpin frame self.old }
        ensures count { length self.new.census ≡ length self.old.census }
    {
        let at = frame as usize;
        let FrameState::Ready { key, pins } = self.census[at] else {
            unreachable!()
        };
        self.census[at] = FrameState::Ready {
            key,
            pins: pins - 1,
        };
    }

    /// The value in the frame.
    pub fn look(&self, frame: u32) -> &V
        requires { IsReadyAt self.now.census frame }
        ensures { slice_get self.now.values frame ≡ Some (Some result.now) }
    {
        self.values[frame as usize].as_ref().unwrap()
    }
}

// What a frame is that was loading the key, once the value has come or has not.
fn settled<K: Copy + Eq, V: Drop>(key: K, value: &Option<V>) -> FrameState<K>
    ensures { result ≡ settled_of value.now (loading key) }
{
    match value {
        Some(_) => FrameState::Ready { key, pins: 1 },
        None => FrameState::Empty,
    }
}

fn empty_states<K: Copy + Eq>(
    alloc: Global,
    frames: usize,
) -> Result<Vec<FrameState<K>>, AllocError>
    ensures { IfOk result (λ states. states.items ≡ replicate frames empty) }
{
    let mut states = Vec::with_capacity(alloc, frames)?;
    for _ in 0..frames {
        states.push(FrameState::Empty)?;
    }
    Ok(states)
}

fn no_values<V: Drop>(alloc: Global, frames: usize) -> Result<Vec<Option<V>>, AllocError>
    ensures { IfOk result (λ values. values.items ≡ replicate frames None) }
{
    let mut values = Vec::with_capacity(alloc, frames)?;
    for _ in 0..frames {
        values.push(None)?;
    }
    Ok(values)
}
