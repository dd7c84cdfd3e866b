// The state of a paused walk, and its step.
ghost use Rattle.std.specs.Prelude.{ℕ, false, true, ◌≡◌, ◌+◌, ◌-◌, ◌^◌, ◌<◌, ◌≤◌, ◌==◌, [], length, drop, IfOk};
ghost use Rattle.std.specs.Prelude.{IfErr, IfSome, IsSome};
ghost use Rattle.std.specs.List.{All};
ghost use Rattle.implicit_tiling.specs.Scene.{Scene};
ghost use Rattle.implicit_tiling.specs.Subtree.{IsSubtree};
ghost use Rattle.implicit_tiling.specs.Answer.{most_tiles};
ghost use Rattle.implicit_tiling.specs.Nodes.{child_words};
ghost use Rattle.subtree_outcome.specs.Outcomes.{outcome_seen, HasNoOrphans};
ghost use Rattle.subtree_outcome.specs.Found.{IsTileWord};
ghost use Rattle.walk_laws.specs.Plans.{FitsLayout};
ghost use Rattle.region_cursor.specs.Cursor.{local_level_of, is_last_local as is_last_local_of, cursor_key};
ghost use Rattle.region_cursor.specs.Cursor.{next_root, Fits, FitsSubtree, EndsAtKey, IsCursor, IsRootKey};
ghost use Rattle.region_cursor.specs.Cursor.{IsWalkOf, IsSameWalk};
ghost use Rattle.region_cursor.specs.Moves.{begun, over, next_level, level_after, moved_on, went_on, with_children};
ghost use Rattle.region_cursor.specs.Moves.{made, made_good, made_bad};
ghost use Rattle.region_cursor.specs.Walked.{IsAt, IsNextKey, GivesStep};

use availability::Subtree;
use region_scan::{child_roots, level_tiles};
use std::alloc::{AllocError, Global};
use std::marker::Model;
use std::mem::swap;
use subtree_outcome::Outcome;
use tile_coords::{Plan, Region, Scheme, Tile, WalkEnd, Word};
use tile_word::word_of;
use tileset_json::Layout;

// The most tiles of an answer.
const MOST_TILES: usize = 65536;

/// A walk of a region that can be stopped between any two steps: which pair of a level and a subtree root the next step
/// is made of, the roots of that level's subtrees and, as far as they are found, of those below them, and how many
/// tiles were given. It holds no subtree (this project's own).
#[derive(Debug, Drop)]
pub struct CursorState {
    // The layout's numbers: each subtree that is read agrees with them.
    scheme: Scheme,
    subtree_levels: u32,
    levels: u32,
    contents: usize,
    region: Region,
    // The next pair: a level, and the place of its root among the roots of that level's subtrees.
    level: u32,
    position: usize,
    roots: Vec<Word>,
    // The roots below those subtrees, found at their last level, and the tiles that were given.
    next_roots: Vec<Word>,
    count: usize,
}

impl Model for CursorState {
    ghost use Rattle.region_cursor.specs.Cursor.{Cursor, IsCursor};

    ghost Value = { Cursor };

    ghost view = { λ c. record {
      scheme = c.scheme;
      subtree_levels = c.subtree_levels;
      levels = c.levels;
      contents =
          c.contents;
      region = c.region;
      level = c.level;
      position = c.position;
      roots = c.roots.items;
      next_roots =
          c.next_roots.items;
      count = c.count;
    } };

    ghost invariant = { λ c. IsCursor
        (record {
          scheme = c.scheme;
          subtree_levels = c.subtree_levels;
          levels = c.levels;
          contents = c.contents;
          region = c.region;
          level = c.level;
          position = c.position;
          roots = c.roots.items;
          next_roots =
              c.next_roots.items;
          count = c.count;
        }) };
}

impl CursorState {
    /// A walk of which no step is made yet. Memory is the one error.
    pub fn start(alloc: Global, layout: &Layout, plan: Plan) -> Result<CursorState, AllocError>
        requires { FitsLayout layout.now plan }
        ensures begun { IfOk result (λ c. c ≡ begun layout.now plan.region) }
        ensures of_layout { IfOk result (IsWalkOf layout.now plan.region) }
        ensures scene { IfOk result (λ c. (s : Scene) → s.layout ≡ layout.now → IsAt s plan.region 0 c) }
    {
        let mut roots = Vec::new(alloc);
        roots.push(word_of(layout.scheme, &Tile::root(), 0))?;
        Ok(CursorState {
            scheme: layout.scheme,
            subtree_levels: layout.subtree_levels,
            levels: layout.levels,
            contents: layout.contents.len(),
            region: plan.region,
            level: 0,
            position: 0,
            roots,
            next_roots: Vec::new(alloc),
            count: 0,
        })
    }

    /// The word, with mask 0, of the subtree root that the next step reads. None exactly where the walk has ended.
    pub fn next_key(&self) -> Option<Word>
        ensures key { result ≡ cursor_key self.now }
        ensures root { IfSome result (IsRootKey self.now) }
        ensures scene { (s : Scene) (k : ℕ) → IsAt s self.now.region k self.now → IsNextKey s self.now.region k result }
        ensures few { length self.now.roots < 2 ^ 64 }
    {
        self.key()
    }

    /// Makes the next step from the outcome of the root of the next key: `words` becomes the tiles of one local level
    /// of its subtree, or the first of them up to 65,536 in all with TooMany, or nothing with Fault where the outcome
    /// is Bad, also below the root's own level: the file may have changed since it was read there. Memory is the one
    /// error; it leaves the walk and `words` as they were.
    pub fn step(&mut self, outcome: &Outcome, words: &mut Vec<Word>) -> Result<WalkEnd, AllocError>
        requires key { IsSome (cursor_key self.old) }
        requires fits { Fits self.old outcome.now }
        ensures words { IfOk result (λ end. words.new.items ≡ (made self.old outcome.now).words) }
        ensures end { IfOk result (λ end. end ≡ (made self.old outcome.now).end) }
        ensures after { IfOk result (λ end. self.new ≡ (made self.old outcome.now).after) }

        ensures few { IfOk result (λ end. self.old.count + length words.new.items ≤ most_tiles) }
        ensures are_words { IfOk result
            (λ end. All (IsTileWord self.old.scheme self.old.levels self.old.contents) words.new.items) }
        ensures root { IfOk result (EndsAtKey self.old outcome.now) }
        ensures same { IfOk result (λ end. IsSameWalk self.old self.new) }

        ensures unchanged { IfErr result (λ e. self.new ≡ self.old) }
        ensures same_words { IfErr result (λ e. words.new.items ≡ words.old.items) }

        ensures scene { IfOk result (λ end. (s : Scene) (k : ℕ) → HasNoOrphans s → IsAt s self.old.region k self.old
            → outcome_seen outcome.now ≡ s.outcome (next_root self.old)
            → GivesStep s self.old.region k words.new.items end × IsAt s self.old.region (k + 1) self.new) }
    {
        match outcome {
            Outcome::Good(subtree) => self.step_good(subtree, words),
            Outcome::Bad(number) => {
                words.clear();
                Ok(self.step_bad(*number))
            }
        }
    }

    // The tiles go behind what `words` has until all memory is taken.
    fn step_good(&mut self, subtree: &Subtree, words: &mut Vec<Word>) -> Result<WalkEnd, AllocError>
        requires key { IsSome (cursor_key self.old) }
        requires fits { FitsSubtree self.old subtree.now }
        ensures words { IfOk result (λ end. words.new.items ≡ (made_good self.old subtree.now).words) }
        ensures end { IfOk result (λ end. end ≡ (made_good self.old subtree.now).end) }
        ensures after { IfOk result (λ end. self.new ≡ (made_good self.old subtree.now).after) }
        ensures limits { IsSubtree subtree.now }
        ensures given { self.old.count ≤ most_tiles }
        ensures unchanged { IfErr result (λ e. self.new ≡ self.old) }
        ensures same_words { IfErr result (λ e. words.new.items ≡ words.old.items) }
    {
        // What every subtree is becomes known here, for the words that it gives.
        let _ = &subtree.scheme;
        let begin = words.len();
        let local = self.local_level();
        let more = level_tiles(subtree, local, &self.region, MOST_TILES - self.count, words)?;
        if let Err(error) = self.take_children(subtree, more) {
            words.truncate(begin);
            return Err(error);
        }
        keep_from(words, begin);
        self.count += words.len();
        if more {
            self.finish();
            return Ok(WalkEnd::TooMany);
        }
        Ok(self.go_on())
    }

    // A fault ends the walk at each local level.
    fn step_bad(&mut self, number: u64) -> WalkEnd
        requires key { IsSome (cursor_key self.old) }
        ensures end { result ≡ (made_bad self.old number).end }
        ensures after { self.new ≡ (made_bad self.old number).after }
        ensures given { self.old.count ≤ most_tiles }
        ensures limits { IsCursor self.old }
    {
        let root = self.roots[self.position];
        self.finish();
        WalkEnd::Fault { root, number }
    }

    // The next key, and what every state is.
    fn key(&self) -> Option<Word>
        ensures key { result ≡ cursor_key self.now }
        ensures limits { IsCursor self.now }
        ensures few { length self.now.roots < 2 ^ 64 }
    {
        self.roots.get(self.position).copied()
    }

    fn local_level(&self) -> u32
        ensures level { result ≡ local_level_of self.now }
        ensures low { result < self.now.subtree_levels }
    {
        self.level % self.subtree_levels
    }

    fn is_last_local(&self) -> bool
        ensures { result ≡ is_last_local_of self.now }
    {
        self.level % self.subtree_levels + 1 == self.subtree_levels
    }

    fn is_last_level(&self) -> bool
        ensures { result ≡ (self.now.level == self.now.region.level) }
    {
        self.level == self.region.level
    }

    // At the last local level the roots below the subtree are found, once for each subtree.
    fn take_children(&mut self, subtree: &Subtree, more: bool) -> Result<(), AllocError>
        requires limits { IsSubtree subtree.now }
        requires fits { FitsSubtree self.old subtree.now }
        ensures taken { IfOk result
            (λ done. self.new ≡ with_children more self.old (child_words subtree.now self.old.region)) }
        ensures unchanged { IfErr result (λ e. self.new ≡ self.old) }
    {
        if more || !self.is_last_local() {
            return Ok(());
        }
        child_roots(subtree, &self.region, &mut self.next_roots)?;
        Ok(())
    }

    // To the next root of the level, else to the first one of the next level.
    fn go_on(&mut self) -> WalkEnd
        requires key { IsSome (cursor_key self.old) }
        ensures end { result ≡ (went_on [] self.old).end }
        ensures after { self.new ≡ (went_on [] self.old).after }
    {
        self.pass();
        match self.key() {
            Some(_) => WalkEnd::Partial,
            None => WalkEnd::Complete,
        }
    }

    fn pass(&mut self)
        requires key { IsSome (cursor_key self.old) }
        ensures { self.new ≡ moved_on self.old }
    {
        if self.position + 1 < self.roots.len() {
            self.position += 1;
        } else {
            self.go_down();
        }
    }

    fn go_down(&mut self)
        ensures { self.new ≡ next_level self.old }
    {
        if self.is_last_level() {
            self.finish();
            return;
        }
        if self.is_last_local() {
            self.go_below();
            return;
        }
        self.level += 1;
        self.position = 0;
    }

    // To the subtrees below: their roots are those that were found.
    fn go_below(&mut self)
        requires last { is_last_local_of self.old ≡ true }
        requires level { self.old.level < self.old.region.level }
        ensures { self.new ≡ level_after false true self.old }
    {
        swap(&mut self.roots, &mut self.next_roots);
        self.next_roots.clear();
        self.level += 1;
        self.position = 0;
    }

    fn finish(&mut self)
        ensures { self.new ≡ over self.old }
    {
        self.position = 0;
        self.roots.clear();
        self.next_roots.clear();
    }
}

// Drops what stands before a place.
fn keep_from(words: &mut Vec<Word>, begin: usize)
    requires { begin ≤ length words.old.items }
    ensures { words.new.items ≡ drop begin words.old.items }
{
    let count = words.len() - begin;
    words.rotate_left(begin);
    words.truncate(count);
}
