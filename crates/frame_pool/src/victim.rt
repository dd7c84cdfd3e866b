//! The frame that is given up for a new key.
ghost use Rattle.std.specs.Prelude.{◌≡◌, ◌≤◌, min, length, position, slice_get, if◌then◌else◌};
ghost use Rattle.frame_pool.specs.States.{is_empty};
ghost use Rattle.frame_pool.specs.Frames.{most_frames, victim as victim_of, last_free as last_free_of, is_free_frame};
ghost use Rattle.frame_pool.specs.Finding.{NoneEmptyBelow};

use crate::frame::FrameState;
use crate::order::FrameOrder;

/// The frame that is given up for a new key. No frame below `least_empty` is empty. This number rises to that of the
/// least empty frame, so that no later call looks at the frames below it.
pub(crate) fn victim<K: Copy + Eq>(
    census: &[FrameState<K>],
    order: &FrameOrder,
    least_empty: &mut usize,
) -> Option<u32>
    requires few { length census.now ≤ most_frames }
    requires below { NoneEmptyBelow least_empty.old census.now }
    ensures victim { result ≡ victim_of census.now order.now }
    ensures below { NoneEmptyBelow least_empty.new census.now }
{
    match first_empty(census, *least_empty) {
        Some(frame) => {
            *least_empty = frame;
            Some(frame as u32)
        }
        None => {
            *least_empty = census.len();
            last_free(census, order)
        }
    }
}

/// The number below which no frame is empty, once the frame has changed to the state.
pub(crate) fn least_empty_after<K: Copy + Eq>(
    least_empty: usize,
    frame: usize,
    state: &FrameState<K>,
) -> usize
    ensures { result ≡ (if is_empty state.now then min least_empty frame else least_empty) }
{
    if state.is_empty() {
        least_empty.min(frame)
    } else {
        least_empty
    }
}

fn first_empty<K: Copy + Eq>(census: &[FrameState<K>], from: usize) -> Option<usize>
    requires { NoneEmptyBelow from census.now }
    ensures { result ≡ position is_empty census.now }
{
    for frame in from..census.len() {
        if census[frame].is_empty() {
            return Some(frame);
        }
    }
    None
}

fn last_free<K: Copy + Eq>(census: &[FrameState<K>], order: &FrameOrder) -> Option<u32>
    ensures { result ≡ last_free_of census.now order.now }
{
    order.iter().rev().find(|frame| is_free(census, *frame))
}

fn is_free<K: Copy + Eq>(census: &[FrameState<K>], frame: u32) -> bool
    ensures { result ≡ is_free_frame (slice_get census.now frame) }
{
    match census.get(frame as usize) {
        Some(state) => state.is_free(),
        None => false,
    }
}
