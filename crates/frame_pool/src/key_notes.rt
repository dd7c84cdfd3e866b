//! Which frame each key was last given, noted in a map, so that a key is found without a look at each frame.
//!
//! A note may be stale: the census says whether the frame still has the key. Stale notes stay until there is no more
//! room in the map, which is then filled anew, since the removal of a single note need not leave room for another.
ghost use Rattle.std.specs.Prelude.{◌≡◌, ℕ, ◌+◌, ◌<◌, ◌≤◌, cond, length, position, slice_set, Some};
ghost use Rattle.std.specs.HashMap.{get, spare, hash_map_len};
ghost use Rattle.frame_pool.specs.Frames.{most_frames};
ghost use Rattle.frame_pool.specs.States.{has_key};
ghost use Rattle.frame_pool.specs.Moves.{NoneHas};
ghost use Rattle.frame_pool.specs.Finding.{AreNoted, HasRoom};
ghost use Rattle.frame_pool.specs.declared.frame.FrameState.TheVariants.{Loading as loading};

use crate::frame::FrameState;
use std::collections::HashMap;
use std::hash::Hash;

/// The frame that has the key.
pub(crate) fn holder<K: Copy + Eq + Hash>(
    census: &[FrameState<K>],
    notes: &HashMap<K, u32>,
    key: K,
) -> Option<u32>
    requires { AreNoted K.eq census.now notes.now }
    ensures { result ≡ position (has_key K.eq key) census.now }
{
    let frame = *notes.get(&key)?;
    let state = census.get(frame as usize)?;
    if state.has(key) { Some(frame) } else { None }
}

/// Notes the frame that is given a key that no frame has.
pub(crate) fn note<K: Copy + Eq + Hash>(
    census: &[FrameState<K>],
    notes: &mut HashMap<K, u32>,
    key: K,
    frame: u32,
)
    requires noted { AreNoted K.eq census.now notes.old }
    requires room { HasRoom (length census.now) notes.old }
    requires given { NoneHas K.eq key census.now }
    requires few { length census.now ≤ most_frames }
    ensures noted { AreNoted K.eq (slice_set census.now frame (loading key)) notes.new }
    ensures room { HasRoom (length census.now) notes.new }
{
    make_room(census, notes);
    put(notes, key, frame);
}

// Where there is no room for one more note, notes the keys of the frames anew and no others.
fn make_room<K: Copy + Eq + Hash>(census: &[FrameState<K>], notes: &mut HashMap<K, u32>)
    requires noted { AreNoted K.eq census.now notes.old }
    requires room { HasRoom (length census.now) notes.old }
    requires few { length census.now ≤ most_frames }
    ensures noted { AreNoted K.eq census.now notes.new }
    ensures room { HasRoom (length census.now) notes.new }
    ensures spare { 0 < spare notes.new }
{
    if notes.len() < notes.capacity() {
        return;
    }
    notes.clear();
    for (frame, state) in census.iter().enumerate() {
        if let Some(key) = state.key() {
            put(notes, key, frame as u32);
        }
    }
}

// Notes the frame of the key, in place of the one that was noted.
fn put<K: Copy + Eq + Hash>(notes: &mut HashMap<K, u32>, key: K, frame: u32)
    requires { 0 < spare notes.old }
    ensures noted { (other : K)
        → get K.eq notes.new other ≡ cond (K.eq key other) (Some frame) (get K.eq notes.old other) }
    ensures used { spare notes.old ≤ spare notes.new + 1 }
    ensures room { hash_map_len notes.old + spare notes.old ≤ hash_map_len notes.new + spare notes.new }
{
    match notes.get_mut(&key) {
        Some(noted) => *noted = frame,
        None => {
            let noted: Result<_, _> = notes.insert(key, frame);
            noted.unwrap();
        }
    }
}
