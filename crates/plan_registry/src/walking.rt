// What a cursor does on its walk. Each call is that of the walk's prefix, by the cursor's own seat.
ghost use Rattle.std.specs.Prelude.{◌≡◌, ℕ, ◌+◌, ◌-◌, ◌<◌, ◌≤◌, true, false, [], ◌∷◌, ◌++◌, length, min, slice_index};
ghost use Rattle.std.specs.Prelude.{IfSome, IfNone};
ghost use Rattle.tile_coords.specs.declared.walk_end.WalkEnd.TheVariants.{Partial};
ghost use Rattle.published_prefix.specs.Heads.{head, NoFurther};
ghost use Rattle.published_prefix.specs.Seats.{looked};
ghost use Rattle.plan_registry.specs.Registries.{cursor_on};

use crate::cursor::Cursor;
use published_prefix::{Course, Page};
use tile_coords::{WalkEnd, Word};

impl<C: Course> Cursor<C> {
    /// The words from a place on, as far as `out` and the head that this call loads go; the rest of `out` stays as it
    /// was. It doesn't wait. The length, steps and end are that head's, and no nearer than what the cursor had seen.
    pub fn page(&mut self, from: usize, out: &mut [Word]) -> Page
        ensures head { self.new ≡ cursor_on self.old.plan (looked self.old.seat result.steps result.length result.end) }
        ensures near { NoFurther self.old.seat.steps self.old.seat.length self.old.seat.end result.steps result.length
            result.end }
        ensures course { C.is_head self.old.seat.tag result.steps result.length result.end }
        ensures count { result.count ≡ min (length out.old) (result.length - from) }
        ensures words { (i : ℕ) → i < result.count → C.word_at self.old.seat.tag (from + i) (slice_index out.new i) }
        ensures others { (i : ℕ) → result.count ≤ i → slice_index out.new i ≡ slice_index out.old i }
    {
        self.prefix.page(&mut self.seat, from, out)
    }

    /// One try to take the work, which doesn't wait. It answers the work that goes on from the head, where nobody had
    /// it, or None, where the turn was taken.
    pub fn try_claim(&mut self) -> Option<C::Work>
        requires none_out { self.old.seat.has_work ≡ false }
        ensures taken { IfSome result (λ work. self.new ≡ cursor_on self.old.plan
            (record (looked self.old.seat self.new.seat.steps self.new.seat.length self.new.seat.end)
            { tries = self.old.seat.tries ++ 0 ∷ []; has_work = true })) }
        ensures near { IfSome result (λ work. NoFurther self.old.seat.steps self.old.seat.length self.old.seat.end
            self.new.seat.steps self.new.seat.length self.new.seat.end) }
        ensures course { IfSome result
            (λ work. C.is_head self.old.seat.tag self.new.seat.steps self.new.seat.length self.new.seat.end) }
        ensures fits { IfSome result
            (λ work. C.fits self.old.seat.tag self.new.seat.steps self.new.seat.length self.new.seat.end work) }
        ensures missed { IfNone result (self.new ≡ cursor_on self.old.plan
            (record self.old.seat { tries = self.old.seat.tries ++ 1 ∷ [] })) }
    {
        self.prefix.try_claim(&mut self.seat)
    }

    /// Puts the work back, with no step made, and ends the turn.
    pub fn give_back(&mut self, work: C::Work)
        requires out { self.old.seat.has_work ≡ true }
        requires fits { C.fits self.old.seat.tag self.old.seat.steps self.old.seat.length self.old.seat.end work }
        ensures { self.new ≡ cursor_on self.old.plan (record self.old.seat { has_work = false }) }
    {
        self.prefix.give_back(&mut self.seat, work);
    }

    /// Publishes the words and the end of the next step, and puts the work back that goes on from there.
    pub fn publish(&mut self, words: &[Word], end: WalkEnd, next: C::Work)
        requires out { self.old.seat.has_work ≡ true }
        requires partial { self.old.seat.end ≡ Partial }
        requires words { (i : ℕ) → i < length words.now
            → C.word_at self.old.seat.tag (self.old.seat.length + i) (slice_index words.now i) }
        requires course { C.is_head self.old.seat.tag (self.old.seat.steps + 1)
            (self.old.seat.length + length words.now) end }
        requires fits { C.fits self.old.seat.tag (self.old.seat.steps + 1) (self.old.seat.length + length words.now) end
            next }
        ensures { self.new ≡ cursor_on self.old.plan (record self.old.seat {
          steps = self.old.seat.steps + 1;
          length = self.old.seat.length + length
              words.now;
          end = end;
          heads = self.old.seat.heads
              ++ head self.old.seat.steps self.old.seat.length self.old.seat.end ∷ [];
          stores = self.old.seat.stores + 1;
          has_work =
              false;
        }) }
    {
        self.prefix.publish(&mut self.seat, words, end, next);
    }
}
