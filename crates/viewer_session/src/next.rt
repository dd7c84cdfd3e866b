// The next step of a walk, as a seat finds it.
ghost use Rattle.std.specs.Prelude.{◌≡◌, ◌<◌, [], ◌∷◌, ◌++◌, IfSome, IfNone, true, false};
ghost use Rattle.published_prefix.specs.Heads.{head};
ghost use Rattle.walk_course.specs.Course.{IsHead, Fits};
ghost use Rattle.viewer_session.specs.Looks.{HasLooked, HasTaken, IsNext, IsTaken};

use crate::scene::Cursor;
use published_prefix::Page;
use std::hint::spin_loop;
use std::sync::Wait;
use std::thread;
use tile_coords::{WalkEnd, Word};
use walk_course::Paused;

// How often a walk that another seat has is looked at before its thread yields.
const LOOKS: u32 = 100;

// What a seat finds of its walk.
pub enum Next {
    // The walk had ended.
    AtEnd,
    // Its steps have risen.
    Moved,
    // This seat has the work, whose next step reads the file of this root.
    Step { work: Paused, key: Word },
}

/// Looks at the head, and takes the work where it has no end.
pub(crate) fn next_step(rt: &impl Wait, cursor: &mut Cursor) -> Next
    requires at_rest { cursor.old.seat.has_work ≡ false }
    ensures looked { HasLooked cursor.old.seat cursor.new.seat }
    ensures plan { cursor.new.plan ≡ cursor.old.plan }
    ensures next { IsNext cursor.old.seat cursor.new.seat result }
{
    let first = look(cursor);
    match first.end {
        WalkEnd::Partial => {}
        WalkEnd::Complete | WalkEnd::TooMany | WalkEnd::Fault { .. } => return Next::AtEnd,
    }
    match claim(rt, cursor, first.steps) {
        Some(work) => next_of(cursor, work),
        None => Next::Moved,
    }
}

// The next step of the work that was taken. Where there is none the work is given back.
fn next_of(cursor: &mut Cursor, work: Paused) -> Next
    requires out { cursor.old.seat.has_work ≡ true }
    requires course { IsHead cursor.old.seat.tag cursor.old.seat.steps cursor.old.seat.length cursor.old.seat.end }
    requires fits { Fits cursor.old.seat.tag cursor.old.seat.steps cursor.old.seat.length cursor.old.seat.end work }
    ensures next { IsTaken cursor.old.seat cursor.new.seat result }
    ensures plan { cursor.new.plan ≡ cursor.old.plan }
{
    match work.next_key() {
        Some(key) => Next::Step { work, key },
        None => {
            cursor.give_back(work);
            Next::Moved
        }
    }
}

// Takes the work of the cursor's walk. While another seat has it, the head is looked at: None means that the steps have
// risen.
fn claim(rt: &impl Wait, cursor: &mut Cursor, first: u64) -> Option<Paused>
    requires first { first ≡ cursor.old.seat.steps }
    requires none_out { cursor.old.seat.has_work ≡ false }
    ensures looked { HasLooked cursor.old.seat cursor.new.seat }
    ensures plan { cursor.new.plan ≡ cursor.old.plan }
    ensures taken { IfSome result (HasTaken cursor.new.seat) }
    ensures risen { IfNone result ((cursor.old.seat.steps < cursor.new.seat.steps)
        × (cursor.new.seat.has_work ≡ false)) }
{
    for _ in rt.forever() {
        if let Some(work) = try_claim(cursor) {
            return Some(work);
        }
        if has_moved(cursor, first) {
            return None;
        }
        thread::yield_now();
    }
    unreachable!()
}

// Looks at the head for a short while: whether the steps have risen.
fn has_moved(cursor: &mut Cursor, first: u64) -> bool
    requires first { first ≡ cursor.old.seat.steps }
    requires none_out { cursor.old.seat.has_work ≡ false }
    ensures looked { HasLooked cursor.old.seat cursor.new.seat }
    ensures plan { cursor.new.plan ≡ cursor.old.plan }
    ensures at_rest { cursor.new.seat.has_work ≡ false }
    ensures risen { result ≡ true → cursor.old.seat.steps < cursor.new.seat.steps }
    ensures not_risen { result ≡ false → cursor.new.seat.steps ≡ cursor.old.seat.steps }
{
    for _ in 0..LOOKS {
        if look(cursor).steps != first {
            return true;
        }
        spin_loop();
    }
    false
}

// One try to take the work.
fn try_claim(cursor: &mut Cursor) -> Option<Paused>
    requires none_out { cursor.old.seat.has_work ≡ false }
    ensures looked { HasLooked cursor.old.seat cursor.new.seat }
    ensures plan { cursor.new.plan ≡ cursor.old.plan }
    ensures taken { IfSome result (HasTaken cursor.new.seat) }
    ensures missed { IfNone result ((cursor.new.seat.steps ≡ cursor.old.seat.steps)
        × (cursor.new.seat.has_work ≡ false)) }
{
    cursor.try_claim()
}

// One look at the head.
fn look(cursor: &mut Cursor) -> Page
    ensures looked { HasLooked cursor.old.seat cursor.new.seat }
    ensures head { cursor.new.seat.heads ≡ cursor.old.seat.heads ++ head result.steps result.length result.end ∷ [] }
    ensures seen { (cursor.new.seat.steps ≡ result.steps) × (cursor.new.seat.end ≡ result.end) }
    ensures same { (cursor.new.plan ≡ cursor.old.plan) × (cursor.new.seat.has_work ≡ cursor.old.seat.has_work) }
{
    cursor.page(0, &mut [])
}
