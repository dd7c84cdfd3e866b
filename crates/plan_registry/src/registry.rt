// The registry and its calls.
ghost use Rattle.std.specs.Prelude.{◌≡◌, Some, None, IfOk, IfErr, All};
ghost use Rattle.turn_lock.specs.Seats.{fresh};
ghost use Rattle.plan_registry.specs.Registries.{HasAsked, HasAttached, HasKept, IsNew, IsOn, IsRegistry, most_plans};

use crate::cursor::Cursor;
use crate::looked::Looked;
use crate::planned::{Planned, Starts};
use crate::rule::{MOST_PLANS, Nothing, Opening, Walks};
use crate::walks::{find, put};
use contract_tokens::Tells;
use lru::LruCache;
use std::alloc::{AllocError, Global};
use std::marker::Model;
use std::num::NonZeroUsize;
use std::sync::Wait;
use tile_coords::Plan;
use turn_lock::{Seat, TurnLock};

/// A seat of a registry, by which a thread asks for walks. Contracts see the scene as its tag, and in `last` and `gave`
/// the registry as its last call took it and gave it back.
pub type RegistrySeat<C> = Seat<Walks<C>>;

/// The walks of the 64 plans that were asked for last. Contracts see it as the name of its table, which each of its
/// seats has too.
#[derive(Drop)]
pub struct Registry<C: Planned> {
    lock: TurnLock<Walks<C>>,
}

impl<C: Planned> Model for Registry<C> {
    ghost use Rattle.atomic_table.specs.Seated.{TableId};

    ghost Value = { TableId };

    ghost view = { λ r. r.lock };
}

impl<C: Planned> Registry<C> {
    /// A registry with no walk yet, and its first seat. The scene is told by `J`. An error is want of memory.
    pub fn new<J: Tells<C::Scene>>(
        alloc: Global,
    ) -> Result<(Registry<C>, RegistrySeat<C>), AllocError>
        ensures { IfOk result (λ r. r.1 ≡ fresh r.0 J.told tt) }
    {
        let Some(most) = NonZeroUsize::new(MOST_PLANS) else {
            unreachable!()
        };
        let walks = LruCache::new(alloc, most)?;
        let (lock, seat) = TurnLock::<Walks<C>>::new::<Opening<J>>(alloc, walks)?;
        Ok((Registry { lock }, seat))
    }

    /// A new seat, which has asked for nothing yet.
    pub fn split(&self, seat: &mut RegistrySeat<C>) -> RegistrySeat<C>
        requires own { seat.old.table ≡ self.now }
        ensures left { seat.new ≡ record seat.old { note = seat.new.note } }
        ensures right { result ≡ fresh seat.old.table seat.old.tag tt }
    {
        self.lock.split::<Nothing>(seat)
    }

    /// A cursor on the walk of the plan, which comes to the front. If it isn't there, `starts` makes it outside the
    /// turn, and it is put in front, but for the case that another seat has put it in meanwhile: then that one is used,
    /// and this one dropped. The last of 64 walks leaves for a new one, and cursors on it stay good. An error is want of
    /// memory, and the registry is then as it was.
    pub fn attach<M: Starts<C>>(
        &self,
        rt: &impl Wait,
        alloc: Global,
        seat: &mut RegistrySeat<C>,
        plan: Plan,
        starts: &M,
    ) -> Result<Cursor<C>, AllocError>
        requires own { seat.old.table ≡ self.now }
        requires nothing_out { seat.old.out ≡ None }
        requires scene { M.scene starts.now ≡ seat.old.tag }
        requires has_walk { M.has_walk starts.now plan }
        ensures same { seat.new
            ≡ record seat.old {
              tries = seat.new.tries;
              note = seat.new.note;
              last = seat.new.last;
              gave = seat.new.gave;
            } }
        ensures attached { IfOk result
            (λ cursor. HasAttached C.tag_of seat.old.tag plan seat.new.last seat.new.gave cursor) }
        ensures memory { IfErr result (λ _. HasKept C.tag_of seat.old.tag seat.new.last seat.new.gave) }
    {
        match self.look(rt, seat, plan) {
            Looked::There(cursor) => Ok(cursor),
            Looked::Memory => Err(AllocError),
            Looked::Absent => self.attach_new(rt, alloc, seat, plan, starts),
        }
    }

    // One look for the plan.
    fn look(&self, rt: &impl Wait, seat: &mut RegistrySeat<C>, plan: Plan) -> Looked<Cursor<C>>
        requires own { seat.old.table ≡ self.now }
        requires nothing_out { seat.old.out ≡ None }
        ensures same { seat.new
            ≡ record seat.old {
              tries = seat.new.tries;
              note = seat.new.note;
              last = seat.new.last;
              gave = seat.new.gave;
            } }
        ensures asked { HasAsked C.tag_of seat.old.tag plan seat.new.last seat.new.gave result }
    {
        let mut walks = self.lock.take(rt, seat);
        let looked = find(&mut walks, plan);
        self.give(seat, walks);
        looked
    }

    // The plan wasn't there. Its walk is made, and then put in.
    fn attach_new<M: Starts<C>>(
        &self,
        rt: &impl Wait,
        alloc: Global,
        seat: &mut RegistrySeat<C>,
        plan: Plan,
        starts: &M,
    ) -> Result<Cursor<C>, AllocError>
        requires own { seat.old.table ≡ self.now }
        requires nothing_out { seat.old.out ≡ None }
        requires scene { M.scene starts.now ≡ seat.old.tag }
        requires has_walk { M.has_walk starts.now plan }
        requires kept { HasKept C.tag_of seat.old.tag seat.old.last seat.old.gave }
        ensures same { seat.new
            ≡ record seat.old {
              tries = seat.new.tries;
              note = seat.new.note;
              last = seat.new.last;
              gave = seat.new.gave;
            } }
        ensures attached { IfOk result
            (λ cursor. HasAttached C.tag_of seat.old.tag plan seat.new.last seat.new.gave cursor) }
        ensures memory { IfErr result (λ _. HasKept C.tag_of seat.old.tag seat.new.last seat.new.gave) }
    {
        let (walk, cursor) = new_walk(alloc, plan, starts)?;
        self.add(rt, seat, plan, walk, cursor)
    }

    // Puts a new walk in, with a cursor on it. Where another seat has put the plan in, the cursor is on that walk.
    fn add(
        &self,
        rt: &impl Wait,
        seat: &mut RegistrySeat<C>,
        plan: Plan,
        walk: Cursor<C>,
        cursor: Cursor<C>,
    ) -> Result<Cursor<C>, AllocError>
        requires own { seat.old.table ≡ self.now }
        requires nothing_out { seat.old.out ≡ None }
        requires new { IsNew (C.tag_of seat.old.tag plan) plan cursor × (walk ≡ cursor) }
        ensures same { seat.new
            ≡ record seat.old {
              tries = seat.new.tries;
              note = seat.new.note;
              last = seat.new.last;
              gave = seat.new.gave;
            } }
        ensures attached { IfOk result
            (λ cursor. HasAttached C.tag_of seat.old.tag plan seat.new.last seat.new.gave cursor) }
        ensures memory { IfErr result (λ _. HasKept C.tag_of seat.old.tag seat.new.last seat.new.gave) }
    {
        let mut walks = self.lock.take(rt, seat);
        let (cursor, _left) = put(&mut walks, plan, walk, cursor);
        self.give(seat, walks);
        cursor
    }

    // Gives the walks back. How many there are is asked for what a cache then tells of its entries.
    fn give(&self, seat: &mut RegistrySeat<C>, walks: LruCache<Plan, Cursor<C>>)
        requires own { seat.old.table ≡ self.now }
        requires out { (x : _) × (seat.old.out ≡ Some x) }
        requires room { walks.cap ≡ most_plans }
        requires on_plans { All (λ (e : _). IsOn C.tag_of seat.old.tag e.0 e.1) walks.entries }
        ensures given { seat.new ≡ record seat.old { note = seat.new.note; out = None; gave = Some walks } }
        ensures fits { IsRegistry C.tag_of seat.old.tag walks }
    {
        let _count = walks.len();
        self.lock.give::<Nothing>(seat, walks);
    }
}

// A new walk of the plan by its first seat, and a cursor on it.
fn new_walk<C: Planned, M: Starts<C>>(
    alloc: Global,
    plan: Plan,
    starts: &M,
) -> Result<(Cursor<C>, Cursor<C>), AllocError>
    requires has_walk { M.has_walk starts.now plan }
    ensures { IfOk result (λ r. IsNew (C.tag_of (M.scene starts.now) plan) plan r.1 × (r.0 ≡ r.1)) }
{
    let (prefix, seat) = starts.start(plan)?;
    let mut walk = Cursor::new(alloc, plan, prefix, seat)?;
    let cursor = walk.another()?;
    Ok((walk, cursor))
}
