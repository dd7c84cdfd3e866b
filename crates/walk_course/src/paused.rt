// A walk that is paused between two steps, with what was made of it.
ghost use Rattle.std.specs.Prelude.{ℕ, ◌≡◌, ◌+◌, length, IfOk, IfErr, IfSome};
ghost use Rattle.walk_laws.specs.Plans.{FitsLayout};
ghost use Rattle.tile_coords.specs.declared.walk_end.WalkEnd.TheVariants.{Partial};
ghost use Rattle.region_cursor.specs.Cursor.{cursor_key, IsRootKey};
ghost use Rattle.walk_course.specs.Walk.{GoesOn, IsReadFor};
ghost use Rattle.walk_course.specs.Spread.{IsLimited};
ghost use Rattle.walk_course.specs.Course.{IsHead, Fits, IsToldFor, IsNextRoot, MakesStep};
ghost use Rattle.walk_course.specs.declared.tag.WalkTag.{WalkTag};

use region_cursor::CursorState;
use std::alloc::{AllocError, Global};
use std::marker::Model;
use subtree_outcome::Outcome;
use tile_coords::{Plan, WalkEnd, Word};
use tileset_json::Layout;

/// A walk of a plan that is paused between two steps: its state, the number of steps that are made, and the end that
/// the last of them answered, which is Partial before the first.
#[derive(Debug, Drop)]
pub struct Paused {
    state: CursorState,
    steps: u64,
    end: WalkEnd,
}

impl Model for Paused {
    ghost use Rattle.walk_course.specs.Walk.{Walk, IsPaused};

    ghost Value = { Walk };

    ghost view = { λ p. record { state = p.state; steps = p.steps; end = p.end } };

    ghost invariant = { λ p. IsPaused (record { state = p.state; steps = p.steps; end = p.end }) };
}

impl Paused {
    /// The walk of a plan that fits the layout, with no step made. Memory is the one error.
    pub fn start(alloc: Global, layout: &Layout, plan: Plan) -> Result<Paused, AllocError>
        requires { FitsLayout layout.now plan }
        ensures begins { IfOk result (λ walk. (tag : WalkTag) → tag.layout ≡ layout.now → tag.region ≡ plan.region
            → Fits tag 0 0 Partial walk) }
    {
        let state = CursorState::start(alloc, layout, plan)?;
        Ok(Paused {
            state,
            steps: 0,
            end: WalkEnd::Partial,
        })
    }

    /// The word, with mask 0, of the subtree root that the next step reads. None exactly where the walk has ended.
    pub fn next_key(&self) -> Option<Word>
        ensures key { result ≡ cursor_key self.now.state }
        ensures going { GoesOn self.now.end result }
        ensures root { (tag : WalkTag) (k n : ℕ) (e : WalkEnd) → Fits tag k n e self.now
            → IfSome result (IsNextRoot tag k) }
    {
        self.state.next_key()
    }

    /// Makes the next step from what was read of the file of the next key's root. `words` becomes the words of the
    /// step, and the answer is its end. Memory is the one error; it leaves the walk and `words` as they were.
    pub fn step(&mut self, outcome: &Outcome, words: &mut Vec<Word>) -> Result<WalkEnd, AllocError>
        requires going { self.old.end ≡ Partial }
        requires read { IsReadFor self.old outcome.now }
        ensures step { IfOk result (λ end. (tag : WalkTag) (k n : ℕ) → IsHead tag k n Partial
            → Fits tag k n Partial self.old → IsToldFor tag self.old outcome.now
            → MakesStep tag k n words.new.items end self.new) }
        ensures unchanged { IfErr result (λ e. self.new ≡ self.old) }
        ensures same_words { IfErr result (λ e. words.new.items ≡ words.old.items) }
    {
        // What the next key is becomes known here, for the outcome that was read of it, and that it is within the limits.
        let _key = self.state.next_key();
        is_limited(outcome);
        let end = self.state.step(outcome, words)?;
        self.steps += 1;
        self.end = same_end(&end);
        Ok(end)
    }
}

// What is read is within the limits.
fn is_limited(outcome: &Outcome)
    ensures { IsLimited outcome.now }
{
    match outcome {
        Outcome::Good(subtree) => {
            let _ = &subtree.scheme;
        }
        Outcome::Bad(_) => {}
    }
}

// An end that is told twice.
pub(crate) fn same_end(end: &WalkEnd) -> WalkEnd
    ensures { result ≡ end.now }
{
    *end
}
