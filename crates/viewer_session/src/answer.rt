// A plan answered whole.
ghost use Rattle.std.specs.Prelude.{◌≡◌, ◌≢◌, ℕ, ◌+◌, ◌≤◌, [], ◌∷◌, ◌++◌, Ok, Err, IfOk, IfErr, IfSome, All};
ghost use Rattle.implicit_tileset.specs.Scene.{scene_of};
ghost use Rattle.scene_ports.specs.Counts.{Rose};
ghost use Rattle.walk_laws.specs.Plans.{FitsLayout};
ghost use Rattle.tile_word.specs.Answers.{IsAnswer};
ghost use Rattle.subtree_outcome.specs.Found.{AreTilesOf, EndsWithin};
ghost use Rattle.viewer_session.specs.Sessions.{IsPassOf, IsCursorOf, IsSameWalk, tag_in};
ghost use Rattle.viewer_session.specs.Advances.{IsOnCourse, IsStuck, HasFailed, HasRead, HasReadUpTo};
ghost use Rattle.tile_coords.specs.declared.walk_end.WalkEnd.TheVariants.{Partial};
ghost use Rattle.viewer_session.specs.Answers.{HasAnsweredOn};
ghost use Rattle.viewer_session.specs.declared.pass.Walked.TheVariants.{Whole as answered};

use crate::advance::Advance;
use crate::pass::{ViewerPass, Walked};
use crate::scene::{Cursor, Scene};
use contract_tokens::Log;
use scene_frames::HoldStop;
use scene_ports::FileSource;
use std::alloc::AllocError;
use std::sync::Wait;
use tile_coords::{Plan, WalkEnd, Word};

// What stands in a list before it is read.
const NO_WORD: Word = Word { high: 0, low: 0 };

/// An answer that is whole: how it ends, and the cursor that was used.
#[derive(Drop)]
pub struct Whole {
    pub end: WalkEnd,
    pub cursor: Cursor,
}

impl Scene {
    /// The answer for a plan that fits the layout: `words` becomes the words of its tiles in key order, at most
    /// 65,536, and the end is that of the answer, so never Partial (OGC 22-025r4, implicit tiling: availability). It
    /// is read off the walk of the plan, which is moved on as far as nobody else does. The errors come as in
    /// `advance`; an Err leaves `words` as it was.
    pub fn answer<S: FileSource>(
        &self,
        rt: &impl Wait,
        pass: &mut ViewerPass,
        plan: Plan,
        files: &mut S,
        words: &mut Vec<Word>,
    ) -> Result<Whole, HoldStop>
        requires pass { IsPassOf self.now pass.old }
        requires plan { FitsLayout self.now.tileset.layout plan }
        requires told { S.told files.old ≡ self.now.tileset.told }
        ensures answer { IfSome self.now.tileset.told (λ all. IfOk result
            (λ whole. IsAnswer (scene_of all self.now.tileset.layout) plan.region words.new.items whole.end)) }
        ensures found { IfOk result (λ whole. AreTilesOf self.now.tileset.layout words.new.items) }
        ensures end { IfOk result (λ whole. EndsWithin self.now.tileset.layout whole.end × (whole.end ≢ WalkEnd.Partial)) }
        ensures shared { IfOk result (λ whole. HasAnsweredOn self.now.tileset plan pass.new.walks.last
            pass.new.walks.gave whole.end whole.cursor) }
        ensures cursor { IfOk result (λ whole. IsCursorOf self.now whole.cursor) }
        ensures unchanged { IfErr result (λ stop. words.new.items ≡ words.old.items) }
        ensures walked { IfOk result (λ whole. pass.new.walked ≡ pass.old.walked ++ answered plan ∷ []) }
        ensures unwalked { IfErr result (λ stop. pass.new.walked ≡ pass.old.walked) }
        ensures pass { IsPassOf self.now pass.new }
        ensures number { pass.new.frames.number ≡ pass.old.frames.number }
        ensures busy { result ≡ Err HoldStop.Busy
            → IsStuck (IsOnCourse (tag_in self.now plan)) pass.old.frames pass.new.frames }
        ensures busies { result ≢ Err HoldStop.Busy
            → pass.new.frames.note.busies ≡ pass.old.frames.note.busies }
        ensures failed { result ≡ Err HoldStop.ReadFault → Rose (S.faults files.old) (S.faults files.new)
            × HasFailed (IsOnCourse (tag_in self.now plan)) pass.new.frames }
        ensures sure { result ≢ Err HoldStop.ReadFault → S.faults files.new ≡ S.faults files.old }
        ensures read { IfOk result (λ _. HasRead (tag_in self.now plan) pass.old.frames pass.new.frames
            (S.fetches files.old) (S.fetches files.new)) }
        ensures read_before { IfErr result (λ _. HasReadUpTo (tag_in self.now plan) pass.old.frames pass.new.frames
            (S.fetches files.old) (S.fetches files.new)) }
        ensures later { S.faults files.old ≤ S.faults files.new }
        ensures told { S.told files.new ≡ S.told files.old }
    {
        let Ok(mut cursor) = self.seat_on(rt, pass, plan) else {
            return Err(HoldStop::Memory);
        };
        self.walk_to_end(rt, pass, &mut cursor, files)?;
        let Ok(end) = self.read_all(&mut cursor, words) else {
            return Err(HoldStop::Memory);
        };
        pass.walked = Log::after(&pass.walked, &Walked::Whole(plan));
        Ok(Whole { end, cursor })
    }
    // Moves the walk on until it has ended.
    fn walk_to_end<S: FileSource>(
        &self,
        rt: &impl Wait,
        pass: &mut ViewerPass,
        cursor: &mut Cursor,
        files: &mut S,
    ) -> Result<(), HoldStop>
        requires pass { IsPassOf self.now pass.old }
        requires cursor { IsCursorOf self.now cursor.old }
        requires told { S.told files.old ≡ self.now.tileset.told }
        ensures ended { IfOk result (λ _. cursor.new.seat.end ≢ Partial) }
        ensures cursor { IsCursorOf self.now cursor.new × IsSameWalk cursor.old cursor.new }
        ensures pass { IsPassOf self.now pass.new }
        ensures same { pass.new ≡ record pass.old { frames = pass.new.frames } }
        ensures number { pass.new.frames.number ≡ pass.old.frames.number }
        ensures busy { result ≡ Err HoldStop.Busy
            → IsStuck (IsOnCourse (tag_in self.now cursor.old.plan)) pass.old.frames pass.new.frames }
        ensures busies { result ≢ Err HoldStop.Busy
            → pass.new.frames.note.busies ≡ pass.old.frames.note.busies }
        ensures failed { result ≡ Err HoldStop.ReadFault → Rose (S.faults files.old) (S.faults files.new)
            × HasFailed (IsOnCourse (tag_in self.now cursor.old.plan)) pass.new.frames }
        ensures sure { result ≢ Err HoldStop.ReadFault → S.faults files.new ≡ S.faults files.old }
        ensures read { IfOk result (λ _. HasRead (tag_in self.now cursor.old.plan) pass.old.frames pass.new.frames
            (S.fetches files.old) (S.fetches files.new)) }
        ensures read_before { IfErr result (λ _. HasReadUpTo (tag_in self.now cursor.old.plan) pass.old.frames
            pass.new.frames (S.fetches files.old) (S.fetches files.new)) }
        ensures later { S.faults files.old ≤ S.faults files.new }
        ensures told { S.told files.new ≡ S.told files.old }
    {
        let mut words = Vec::new(self.walks.alloc);
        for _ in rt.forever() {
            match self.advance_with(rt, pass, cursor, files, &mut words)? {
                Advance::Moved => {}
                Advance::AtEnd => return Ok(()),
            }
        }
        unreachable!()
    }

    // All words of a walk that has ended, and its end.
    fn read_all(&self, cursor: &mut Cursor, words: &mut Vec<Word>) -> Result<WalkEnd, AllocError>
        requires cursor { IsCursorOf self.now cursor.old }
        requires ended { cursor.old.seat.end ≢ Partial }
        ensures answer { IfSome self.now.tileset.told (λ all. IfOk result
            (IsAnswer (scene_of all self.now.tileset.layout) cursor.old.plan.region words.new.items)) }
        ensures found { IfOk result (λ end. AreTilesOf self.now.tileset.layout words.new.items) }
        ensures end { IfOk result (λ end. EndsWithin self.now.tileset.layout end × (end ≢ Partial)) }
        ensures seen { IfOk result (λ end. cursor.new.seat.end ≡ end) }
        ensures cursor { IsCursorOf self.now cursor.new × IsSameWalk cursor.old cursor.new }
        ensures unchanged { IfErr result (λ e. words.new.items ≡ words.old.items) }
    {
        let length = self.page(cursor, 0, &mut []).length;
        let mut found = vec![in self.walks.alloc; NO_WORD; length]?;
        let page = self.page(cursor, 0, found.as_mut_slice());
        *words = found;
        Ok(page.end)
    }
}
