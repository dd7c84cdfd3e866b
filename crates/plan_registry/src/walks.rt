// What is done with the walks while the turn is had.
ghost use Rattle.std.specs.Prelude.{◌≡◌};
ghost use Rattle.plan_registry.specs.Registries.{IsByPlan, HasLooked, HasNone, HasPut, IsNew, most_plans};

use crate::cursor::Cursor;
use crate::looked::Looked;
use lru::LruCache;
use published_prefix::Course;
use std::alloc::AllocError;
use tile_coords::Plan;

/// A new seat on the walk of the plan, which comes to the front, if it is there.
pub(crate) fn find<C: Course>(
    walks: &mut LruCache<Plan, Cursor<C>>,
    plan: Plan,
) -> Looked<Cursor<C>>
    requires by_plan { IsByPlan walks.old }
    ensures room { walks.new.cap ≡ walks.old.cap }
    ensures looked { HasLooked plan walks.old walks.new result }
{
    let Some(walk) = walks.peek_mut(&plan) else {
        return Looked::Absent;
    };
    let Ok(cursor) = walk.another() else {
        return Looked::Memory;
    };
    walks.promote(&plan);
    Looked::There(cursor)
}

// What isn't in use after a walk was put in: the walk that has left, or the new one. It is dropped outside the turn.
type Left<C> = Option<(Plan, Cursor<C>)>;

/// The new walk comes to the front, with a cursor on it, if the plan isn't there. If it is, the cursor is on the walk
/// that is there.
pub(crate) fn put<C: Course>(
    walks: &mut LruCache<Plan, Cursor<C>>,
    plan: Plan,
    walk: Cursor<C>,
    cursor: Cursor<C>,
) -> (Result<Cursor<C>, AllocError>, Left<C>)
    requires by_plan { IsByPlan walks.old }
    requires room { walks.old.cap ≡ most_plans }
    requires new { IsNew cursor.seat.tag plan cursor × (walk ≡ cursor) }
    ensures room { walks.new.cap ≡ most_plans }
    ensures put { HasPut cursor.seat.tag plan walks.old walks.new result.0 }
{
    match find(walks, plan) {
        Looked::There(found) => (Ok(found), Some((plan, walk))),
        Looked::Memory => (Err(AllocError), Some((plan, walk))),
        Looked::Absent => push(walks, plan, walk, cursor),
    }
}

// The new walk comes to the front. The only memory that is taken is that of its node.
fn push<C: Course>(
    walks: &mut LruCache<Plan, Cursor<C>>,
    plan: Plan,
    walk: Cursor<C>,
    cursor: Cursor<C>,
) -> (Result<Cursor<C>, AllocError>, Left<C>)
    requires absent { HasNone plan walks.old }
    requires room { walks.old.cap ≡ most_plans }
    requires new { IsNew cursor.seat.tag plan cursor × (walk ≡ cursor) }
    ensures room { walks.new.cap ≡ most_plans }
    ensures put { HasPut cursor.seat.tag plan walks.old walks.new result.0 }
{
    match walks.push(plan, walk) {
        Ok(left) => (Ok(cursor), left),
        Err(failed) => (Err(AllocError), Some(failed.value)),
    }
}
