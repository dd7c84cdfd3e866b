// The cursors of a replay.
ghost use Rattle.std.specs.Prelude.{ℕ, ◌≡◌, ◌+◌, ◌-◌, ◌^◌, ◌<◌, ◌≤◌, [], ◌∷◌, ◌++◌, length, map, position, slice_get, slice_set};
ghost use Rattle.std.specs.Prelude.{IfOk, IfErr, IsSome, IsSomeAnd, Some, None, take, drop, option_copied};
ghost use Rattle.std.specs.List.{All};
ghost use Rattle.implicit_tiling.specs.Code.{IsWord};
ghost use Rattle.region_cursor.specs.Cursor.{cursor_key, Fits};
ghost use Rattle.replay_machine.specs.Machine.{is_same_plan};
ghost use Rattle.walk_laws.specs.Plans.{FitsLayout};
ghost use Rattle.replay_core.specs.Cursors.{HasStepped, IsOfPlan};

use crate::shared_cursor::SharedCursor;
use crate::shown_walk::ShownWalk;
use indexmap::IndexSet;
use std::alloc::{AllocError, Global};
use std::marker::Model;
use subtree_outcome::Outcome;
use tile_coords::{Plan, Word};
use tileset_json::Layout;

/// The cursors of a replay, by their numbers. No two have equal plans, and the cursor of a plan is found without a look
/// at the others.
#[derive(Drop)]
pub struct Cursors {
    list: Vec<SharedCursor>,
    // The plans, in the order of the cursors.
    plans: IndexSet<Plan>,
}

impl Model for Cursors {
    ghost use Rattle.std.specs.Prelude.{◌≡◌, List, map};
    ghost use Rattle.replay_core.specs.declared.shared_cursor.SharedCursor.{SharedCursor};

    ghost Value = { List SharedCursor };

    ghost view = { λ c. c.list.items };

    ghost invariant = { λ c. c.plans.keys ≡ map (λ (cursor : SharedCursor). cursor.plan) c.list.items };
}

impl Cursors {
    /// No cursor.
    pub(crate) fn new(alloc: Global) -> Cursors
        ensures { result ≡ [] }
    {
        Cursors {
            list: Vec::new(alloc),
            plans: IndexSet::new(alloc),
        }
    }

    /// The number of cursors.
    pub(crate) fn len(&self) -> usize
        ensures { result ≡ length self.now }
    {
        self.list.len()
    }

    /// The cursor of a number.
    pub(crate) fn get(&self, number: u32) -> Option<&SharedCursor>
        ensures { option_copied result ≡ slice_get self.now number }
    {
        self.list.get(number as usize)
    }

    /// The number of the cursor of a plan, which is made where there is none. An error is want of memory, or of
    /// numbers, of which there are 2^32 - 1; it leaves the cursors as they were.
    pub(crate) fn of_plan(
        &mut self,
        alloc: Global,
        layout: &Layout,
        plan: Plan,
    ) -> Result<u32, AllocError>
        requires fits { FitsLayout layout.now plan }
        ensures found { IfOk result (λ number. IsOfPlan layout.now plan number self.old self.new) }
        ensures unchanged { IfErr result (λ e. self.new ≡ self.old) }
    {
        let count = self.len();
        if count >= u32::MAX as usize {
            return Err(AllocError);
        }
        match self.plans.get_index_of(&plan) {
            Some(number) => return Ok(number as u32),
            None => {}
        }
        let walk = ShownWalk::start(alloc, layout, plan)?;
        self.list.push(SharedCursor {
            plan,
            walk,
            holder: None,
        })?;
        match self.plans.insert(plan) {
            Ok(_) => Ok(count as u32),
            Err(failed) => {
                self.list.pop();
                Err(failed.into())
            }
        }
    }

    /// Gives the work of a cursor to a pass, or takes it back.
    pub(crate) fn set_holder(&mut self, number: u32, holder: Option<u32>)
        requires { number < length self.old }
        ensures { IsSomeAnd (slice_get self.old number)
            (λ cursor. self.new ≡ slice_set self.old number (record cursor { holder = holder })) }
    {
        self.list[number as usize].holder = holder;
    }

    /// Makes the next step of a cursor, takes its work back, and tells how many tiles it shows then. Memory is the one
    /// error; it leaves the cursors as they were.
    pub(crate) fn advance(&mut self, number: u32, outcome: &Outcome) -> Result<u64, AllocError>
        requires { IsSomeAnd (slice_get self.old number)
            (λ cursor. IsSome (cursor_key cursor.walk.cursor) × Fits cursor.walk.cursor outcome.now) }
        ensures stepped { IfOk result (λ tiles. HasStepped number outcome.now tiles self.old self.new) }
        ensures unchanged { IfErr result (λ e. self.new ≡ self.old) }
    {
        let cursor = &mut self.list[number as usize];
        let tiles = cursor.walk.step(outcome)?;
        cursor.holder = None;
        Ok(tiles)
    }

    /// The words of the tiles that a cursor shows from a place on, at most so many. Memory is the one error. The
    /// cursors stay as they were.
    pub(crate) fn page(
        &mut self,
        alloc: Global,
        number: u32,
        from: usize,
        most: usize,
    ) -> Result<Vec<Word>, AllocError>
        requires { number < length self.old }
        ensures words { IfOk result (λ words. IsSomeAnd (slice_get self.old number)
            (λ cursor. (words.items ≡ take most (drop from cursor.walk.words))
            × All (IsWord cursor.walk.cursor.scheme) words.items)) }
        ensures within { IfOk result (λ words. from + length words.items < 2 ^ 64) }
        ensures same { self.new ≡ self.old }
    {
        self.list[number as usize].walk.page(alloc, from, most)
    }
}
