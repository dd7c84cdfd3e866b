// A paused walk with what its steps gave.
ghost use Rattle.std.specs.Prelude.{ℕ, ◌≡◌, ◌+◌, ◌^◌, ◌<◌, ◌≤◌, length, take, drop, map, IfOk, IfErr};
ghost use Rattle.std.specs.Prelude.{IfSome, IsSome, IsSomeAnd, None};
ghost use Rattle.implicit_tiling.specs.Scene.{Scene};
ghost use Rattle.std.specs.List.{All};
ghost use Rattle.implicit_tiling.specs.Code.{word, tile_word, IsWord};
ghost use Rattle.tile_coords.specs.Ends.{end_seen, EndsAtRoot};
ghost use Rattle.tile_coords.specs.declared.walk_end.WalkEnd.TheVariants.{Partial};
ghost use Rattle.subtree_outcome.specs.Outcomes.{outcome_seen, HasNoOrphans};
ghost use Rattle.walk_laws.specs.Plans.{FitsLayout};
ghost use Rattle.region_cursor.specs.Cursor.{cursor_key, next_root, Fits, IsRootKey, IsWalkOf, IsSameWalk};
ghost use Rattle.replay_machine.specs.Machine.{Walk};
ghost use Rattle.replay_machine.specs.Turns.{next_pair, page_tiles, shown_end};
ghost use Rattle.replay_core.specs.Shown.{GoesOn, Shows, stepped};

use region_cursor::CursorState;
use std::alloc::{AllocError, Global};
use std::marker::Model;
use subtree_outcome::Outcome;
use tile_coords::{Plan, WalkEnd, Word};
use tileset_json::Layout;

/// A walk that can be stopped between any two steps, with the words of the tiles that its steps gave (this project's
/// own).
#[derive(Drop)]
pub struct ShownWalk {
    state: CursorState,
    // The words of all steps, of which those of the last one stand apart: a step needs no room behind the others.
    words: Vec<Word>,
    fresh: Vec<Word>,
    end: WalkEnd,
}

impl Model for ShownWalk {
    ghost use Rattle.std.specs.Prelude.{◌++◌};
    ghost use Rattle.replay_core.specs.Shown.{Shown, IsShownWalk};

    ghost Value = { Shown };

    ghost view = { λ w. record { cursor = w.state; words = w.words.items ++ w.fresh.items; end = w.end } };

    ghost invariant = { λ w. IsShownWalk
        (record { cursor = w.state; words = w.words.items ++ w.fresh.items; end = w.end }) };
}

impl ShownWalk {
    /// A walk of which no step is made yet. Memory is the one error.
    pub fn start(alloc: Global, layout: &Layout, plan: Plan) -> Result<ShownWalk, AllocError>
        requires { FitsLayout layout.now plan }
        ensures of_layout { IfOk result (λ w. IsWalkOf layout.now plan.region w.cursor) }
        ensures scene { IfOk result (λ w. (s : Scene) → s.layout ≡ layout.now
            → Shows s (record { plan = plan; made = 0; holder = None }) w) }
    {
        Ok(ShownWalk {
            state: CursorState::start(alloc, layout, plan)?,
            words: Vec::new(alloc),
            fresh: Vec::new(alloc),
            end: WalkEnd::Partial,
        })
    }

    /// The word, with mask 0, of the subtree root that the next step reads. None only where the walk has ended.
    pub fn next_key(&self) -> Option<Word>
        ensures key { result ≡ cursor_key self.now.cursor }
        ensures root { IfSome result (IsRootKey self.now.cursor) }
        ensures some { self.now.end ≡ Partial → IsSome result }
        ensures scene { (s : Scene) (walk : Walk) → Shows s walk self.now
            → IfSome result (λ key. IsSomeAnd (next_pair s walk) (λ pair. key ≡ word s.layout.scheme pair.root 0)) }
    {
        self.state.next_key()
    }

    /// How the walk stands after the last step: Partial where no step is made yet, or more of them follow.
    pub fn end(&self) -> WalkEnd
        ensures end { result ≡ self.now.end }
        ensures goes_on { GoesOn result (cursor_key self.now.cursor) }
        ensures root { EndsAtRoot self.now.cursor.scheme result }
        ensures scene { (s : Scene) (walk : Walk) → Shows s walk self.now
            → end_seen s.layout.scheme result ≡ shown_end s walk }
    {
        self.end
    }

    /// Makes the next step from the outcome of the root of the next key, and tells how many tiles the walk shows then.
    /// Memory is the one error; it leaves the walk as it was.
    pub fn step(&mut self, outcome: &Outcome) -> Result<u64, AllocError>
        requires key { IsSome (cursor_key self.old.cursor) }
        requires fits { Fits self.old.cursor outcome.now }
        ensures count { IfOk result (λ tiles. tiles ≡ length self.new.words) }
        ensures same { IfOk result (λ tiles. IsSameWalk self.old.cursor self.new.cursor) }
        ensures unchanged { IfErr result (λ e. self.new ≡ self.old) }
        ensures scene { IfOk result (λ tiles. (s : Scene) (walk : Walk) → HasNoOrphans s → Shows s walk self.old
            → outcome_seen outcome.now ≡ s.outcome (next_root self.old.cursor) → Shows s (stepped walk) self.new) }
    {
        self.words.extend_from_slice(&self.fresh)?;
        self.fresh.clear();
        self.end = self.state.step(outcome, &mut self.fresh)?;
        Ok(self.words.len() as u64 + self.fresh.len() as u64)
    }

    /// The words of the tiles that it shows from a place on, at most so many. Memory is the one error. The walk stays
    /// as it was.
    pub fn page(&mut self, alloc: Global, from: usize, most: usize) -> Result<Vec<Word>, AllocError>
        ensures words { IfOk result (λ words. words.items ≡ take most (drop from self.old.words)) }
        ensures are_words { IfOk result (λ words. All (IsWord self.old.cursor.scheme) words.items) }
        ensures within { IfOk result (λ words. from + length words.items < 2 ^ 64) }
        ensures same { self.new ≡ self.old }
        ensures scene { IfOk result (λ words. (s : Scene) (walk : Walk) → 1 ≤ s.layout.subtree_levels
            → Shows s walk self.old → words.items ≡ map (tile_word s) (page_tiles s walk from most)) }
    {
        self.words.extend_from_slice(&self.fresh)?;
        self.fresh.clear();
        let mut page = Vec::new(alloc);
        page.extend_from_slice(part(&self.words, from, most))?;
        Ok(page)
    }
}

// The elements from a place on, at most so many.
fn part(words: &[Word], from: usize, most: usize) -> &[Word]
    ensures { result.now ≡ take most (drop from words.now) }
{
    let rest = &words[from.min(words.len())..];
    &rest[..most.min(rest.len())]
}
