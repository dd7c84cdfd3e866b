// One step more of a walk.
ghost use Rattle.std.specs.Prelude.{◌≡◌, ◌≢◌, ◌⊎◌, ℕ, ◌+◌, ◌≤◌, ◌<◌, [], ◌∷◌, ◌++◌, Ok, Err, Some, IfOk, IfErr};
ghost use Rattle.std.specs.Prelude.{IfSome, IfNone, nat_eq, true, false};
ghost use Rattle.scene_ports.specs.Counts.{Rose};
ghost use Rattle.tile_coords.specs.declared.walk_end.WalkEnd.TheVariants.{Partial};
ghost use Rattle.region_cursor.specs.Cursor.{cursor_key};
ghost use Rattle.shared_pool.specs.Seen.{HasMissed};
ghost use Rattle.scene_frames.specs.Held.{HasEnded, IsHeldBy, IsStoppedBy};
ghost use Rattle.published_prefix.specs.Heads.{NoFurther};
ghost use Rattle.walk_course.specs.Course.{IsHead, Fits, IsNextRoot};
ghost use Rattle.viewer_session.specs.Sessions.{IsPassOf, IsCursorOf, IsSameWalk, tag_in};
ghost use Rattle.viewer_session.specs.Looks.{HasPublished, HasAdvanced, IsStep};
ghost use Rattle.viewer_session.specs.Advances.{IsStuck, HasFailed, HasRead};
ghost use Rattle.viewer_session.specs.Advances.{HasReadUpTo};

use crate::next::{Next, next_step};
use crate::pass::ViewerPass;
use crate::scene::{Cursor, Scene};
use scene_frames::{HoldStop, hold};
use scene_ports::FileSource;
use std::sync::Wait;
use tile_coords::Word;
use walk_course::{Paused, publish_next};

/// What became of a walk.
#[derive(Clone, Copy, Debug, PartialEq, Eq)]
pub enum Advance {
    /// It has made more steps than at the first look.
    Moved,
    /// It had ended.
    AtEnd,
}

impl Scene {
    /// Moves the walk of the cursor on by a step, or sees it move. AtEnd comes exactly where the head that this call
    /// loads first has an end. Where another seat has the walk, this one looks until the steps have risen, or it has
    /// the walk itself. ReadFault comes only where the source has counted a fault, Busy only where every frame is
    /// pinned and none has the next root, and Memory for want of memory. After an Err nothing was published.
    pub fn advance<S: FileSource>(
        &self,
        rt: &impl Wait,
        pass: &mut ViewerPass,
        cursor: &mut Cursor,
        files: &mut S,
    ) -> Result<Advance, HoldStop>
        requires pass { IsPassOf self.now pass.old }
        requires cursor { IsCursorOf self.now cursor.old }
        requires told { S.told files.old ≡ self.now.tileset.told }
        ensures advanced { HasAdvanced cursor.old.seat cursor.new.seat result }
        ensures near { NoFurther cursor.old.seat.steps cursor.old.seat.length cursor.old.seat.end cursor.new.seat.steps
            cursor.new.seat.length cursor.new.seat.end }
        ensures unmoved { IfErr result (λ stop. cursor.new.seat.stores ≡ cursor.old.seat.stores) }
        ensures cursor { IsCursorOf self.now cursor.new × IsSameWalk cursor.old cursor.new }
        ensures pass { IsPassOf self.now pass.new }
        ensures same { pass.new ≡ record pass.old { frames = pass.new.frames } }
        ensures number { pass.new.frames.number ≡ pass.old.frames.number }
        ensures busy { result ≡ Err HoldStop.Busy → IsStuck (IsNextRoot (tag_in self.now cursor.old.plan)
            cursor.new.seat.steps) pass.old.frames pass.new.frames }
        ensures busies { result ≢ Err HoldStop.Busy
            → pass.new.frames.note.busies ≡ pass.old.frames.note.busies }
        ensures failed { result ≡ Err HoldStop.ReadFault → Rose (S.faults files.old) (S.faults files.new)
            × HasFailed (IsNextRoot (tag_in self.now cursor.old.plan) cursor.new.seat.steps) pass.new.frames }
        ensures sure { result ≢ Err HoldStop.ReadFault → S.faults files.new ≡ S.faults files.old }
        ensures read { IfOk result (λ _. HasRead (tag_in self.now cursor.old.plan) pass.old.frames pass.new.frames
            (S.fetches files.old) (S.fetches files.new)) }
        ensures read_before { IfErr result (λ _. HasReadUpTo (tag_in self.now cursor.old.plan) pass.old.frames
            pass.new.frames (S.fetches files.old) (S.fetches files.new)) }
        ensures later { S.faults files.old ≤ S.faults files.new }
        ensures told { S.told files.new ≡ S.told files.old }
    {
        let mut words = Vec::new(self.walks.alloc);
        self.advance_with(rt, pass, cursor, files, &mut words)
    }
    // The same, with room for the words of a step.
    pub(crate) fn advance_with<S: FileSource>(
        &self,
        rt: &impl Wait,
        pass: &mut ViewerPass,
        cursor: &mut Cursor,
        files: &mut S,
        words: &mut Vec<Word>,
    ) -> Result<Advance, HoldStop>
        requires pass { IsPassOf self.now pass.old }
        requires cursor { IsCursorOf self.now cursor.old }
        requires told { S.told files.old ≡ self.now.tileset.told }
        ensures advanced { HasAdvanced cursor.old.seat cursor.new.seat result }
        ensures near { NoFurther cursor.old.seat.steps cursor.old.seat.length cursor.old.seat.end cursor.new.seat.steps
            cursor.new.seat.length cursor.new.seat.end }
        ensures unmoved { IfErr result (λ stop. cursor.new.seat.stores ≡ cursor.old.seat.stores) }
        ensures cursor { IsCursorOf self.now cursor.new × IsSameWalk cursor.old cursor.new }
        ensures pass { IsPassOf self.now pass.new }
        ensures same { pass.new ≡ record pass.old { frames = pass.new.frames } }
        ensures number { pass.new.frames.number ≡ pass.old.frames.number }
        ensures busy { result ≡ Err HoldStop.Busy → IsStuck (IsNextRoot (tag_in self.now cursor.old.plan)
            cursor.new.seat.steps) pass.old.frames pass.new.frames }
        ensures busies { result ≢ Err HoldStop.Busy
            → pass.new.frames.note.busies ≡ pass.old.frames.note.busies }
        ensures failed { result ≡ Err HoldStop.ReadFault → Rose (S.faults files.old) (S.faults files.new)
            × HasFailed (IsNextRoot (tag_in self.now cursor.old.plan) cursor.new.seat.steps) pass.new.frames }
        ensures sure { result ≢ Err HoldStop.ReadFault → S.faults files.new ≡ S.faults files.old }
        ensures read { IfOk result (λ _. HasRead (tag_in self.now cursor.old.plan) pass.old.frames pass.new.frames
            (S.fetches files.old) (S.fetches files.new)) }
        ensures read_before { IfErr result (λ _. HasReadUpTo (tag_in self.now cursor.old.plan) pass.old.frames
            pass.new.frames (S.fetches files.old) (S.fetches files.new)) }
        ensures later { S.faults files.old ≤ S.faults files.new }
        ensures told { S.told files.new ≡ S.told files.old }
    {
        match next_step(rt, cursor) {
            Next::AtEnd => Ok(Advance::AtEnd),
            Next::Moved => Ok(Advance::Moved),
            Next::Step { work, key } => {
                self.make_step(rt, pass, cursor, files, words, work, key)?;
                Ok(Advance::Moved)
            }
        }
    }

    // Holds the outcome of the root of the next step, and publishes the step. After an Err the work is given back.
    fn make_step<S: FileSource>(
        &self,
        rt: &impl Wait,
        pass: &mut ViewerPass,
        cursor: &mut Cursor,
        files: &mut S,
        words: &mut Vec<Word>,
        work: Paused,
        key: Word,
    ) -> Result<(), HoldStop>
        requires pass { IsPassOf self.now pass.old }
        requires told { S.told files.old ≡ self.now.tileset.told }
        requires tag { cursor.old.seat.tag ≡ tag_in self.now cursor.old.plan }
        requires step { IsStep cursor.old.seat work key }
        ensures published { IfOk result (λ _. HasPublished cursor.old.seat cursor.new.seat) }
        ensures kept { IfErr result (λ stop. cursor.new.seat ≡ record cursor.old.seat { has_work = false }) }
        ensures plan { cursor.new.plan ≡ cursor.old.plan }
        ensures pass { IsPassOf self.now pass.new }
        ensures same { pass.new ≡ record pass.old { frames = pass.new.frames } }
        ensures number { pass.new.frames.number ≡ pass.old.frames.number }
        ensures busy { result ≡ Err HoldStop.Busy → HasMissed nat_eq key pass.new.frames.tag pass.old.frames.note
            pass.new.frames.last pass.new.frames.gave pass.new.frames.note }
        ensures busies { result ≢ Err HoldStop.Busy
            → pass.new.frames.note.busies ≡ pass.old.frames.note.busies }
        ensures failed { result ≡ Err HoldStop.ReadFault → Rose (S.faults files.old) (S.faults files.new)
            × HasEnded pass.new.frames.number key pass.new.frames.tag pass.new.frames.last pass.new.frames.gave }
        ensures sure { result ≢ Err HoldStop.ReadFault → S.faults files.new ≡ S.faults files.old }
        ensures read { IfOk result (λ _. IsHeldBy self.now.tileset.layout self.now.tileset.told
            pass.old.frames.number key pass.old.frames.note
            pass.new.frames.note (S.fetches files.old) (S.fetches files.new)) }
        ensures read_before { IfErr result (λ stop. IsHeldBy self.now.tileset.layout self.now.tileset.told
            pass.old.frames.number key pass.old.frames.note
            pass.new.frames.note (S.fetches files.old) (S.fetches files.new)
            ⊎ IsStoppedBy self.now.tileset.layout pass.old.frames.number key pass.old.frames.note
            pass.new.frames.note (S.fetches files.old) (S.fetches files.new)) }
        ensures later { S.faults files.old ≤ S.faults files.new }
        ensures told { S.told files.new ≡ S.told files.old }
    {
        let alloc = self.walks.alloc;
        let held = hold(rt, alloc, &mut pass.frames, files, &self.walks.layout, key);
        let outcome = match held {
            Ok(outcome) => outcome,
            Err(stop) => {
                cursor.give_back(work);
                return Err(stop);
            }
        };
        let published = publish_next(cursor, work, &*outcome, words);
        pass.frames.unpin(rt);
        match published {
            Ok(_) => Ok(()),
            Err(_) => Err(HoldStop::Memory),
        }
    }
}
