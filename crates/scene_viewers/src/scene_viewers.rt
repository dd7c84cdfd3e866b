// Viewers of a scene.
ghost use Rattle.std.specs.Prelude.{◌≡◌, ◌≢◌, ◌≤◌, ◌++◌, IfOk, None, Err, OnOk, string_bytes};
ghost use Rattle.http_front.specs.Table.{Answered};
ghost use Rattle.http_connection.specs.Answers.{answered_of, HasLength};
ghost use Rattle.viewer_session.specs.Sessions.{IsPassOf};
ghost use Rattle.tileset_json.specs.Limits.{IsWithinLimits};
ghost use Rattle.walk_laws.specs.Plans.{FitsLayout};
ghost use Rattle.batch_blocks.specs.Blocks.{plan_in};
ghost use Rattle.scene_viewers.specs.Replies.{MayAnswer, AnswersTiles, AnswersPrefix, IsAside};

use crate::fronts::front_of;
use http_connection::{Viewers, ViewersAnswer};
use http_text::Route;
use request_text::{answer_length, append_answer, parse_line};
use scene_frames::HoldStop;
use scene_ports::{FileSource, GiveFault, Outlet, give_rest};
use std::alloc::Global;
use std::marker::Model;
use std::sync::Wait;
use tile_coords::{Plan, WalkEnd, Word};
use tileset_json::Layout;
use viewer_session::{Cursor, Scene, ViewerPass};

/// Viewers of one scene. They have a pass of it and a source of their own, and keep the cursor of the last answer that
/// had a text, so that the next request for its plan goes on from there. Contracts see also that text.
#[derive(Drop)]
pub struct SceneViewers<'a, R, S: FileSource> {
    rt: &'a R,
    alloc: Global,
    scene: &'a Scene,
    pass: ViewerPass,
    files: S,
    kept: Option<Cursor>,
    words: Vec<Word>,
    end: WalkEnd,
}

impl<'a, R, S: FileSource> Model for SceneViewers<'a, R, S> {
    ghost use Rattle.implicit_tiling.specs.Text.{words_text};
    ghost use Rattle.tile_coords.specs.Ends.{end_seen};
    ghost use Rattle.scene_viewers.specs.Viewers.{ViewersSeen, AreViewersOf};

    ghost Value = { ViewersSeen S };

    ghost view = { λ v. record {
      scene = v.scene.now;
      pass = v.pass;
      files = v.files;
      kept = v.kept;
      text = words_text v.scene.now.tileset.layout v.words.items
          (end_seen v.scene.now.tileset.layout.scheme v.end);
    } };

    ghost invariant = { λ v. AreViewersOf v.scene.now v.pass (S.told v.files) v.kept v.words.items v.end };
}

impl<'a, R: Wait, S: FileSource> SceneViewers<'a, R, S> {
    /// Viewers with a pass of the scene, whose source tells what the scene's told. They keep no cursor yet.
    pub fn new(
        rt: &'a R,
        alloc: Global,
        scene: &'a Scene,
        pass: ViewerPass,
        files: S,
    ) -> SceneViewers<'a, R, S>
        requires pass { IsPassOf scene.now pass }
        requires told { S.told files ≡ scene.now.tileset.told }
        ensures scene { result.scene ≡ scene.now }
        ensures own { (result.pass ≡ pass) × (result.files ≡ files) }
        ensures kept { result.kept ≡ None }
    {
        SceneViewers {
            rt,
            alloc,
            scene,
            pass,
            files,
            kept: None,
            words: Vec::new(alloc),
            end: WalkEnd::Partial,
        }
    }

    // The answer to a plan, whose text stands ready afterwards.
    fn answer_whole(&mut self, plan: Plan) -> ViewersAnswer
        requires plan { FitsLayout self.old.scene.tileset.layout plan }
        requires within { IsWithinLimits self.old.scene.tileset.layout }
        ensures answered { AnswersTiles S.told S.faults S.fetches plan self.old self.new
            (answered_of result self.new.text) }
        ensures length { HasLength result self.new.text }
        ensures scene { self.new.scene ≡ self.old.scene }
    {
        let answered = self.scene.answer(
            self.rt,
            &mut self.pass,
            plan,
            &mut self.files,
            &mut self.words,
        );
        match answered {
            Ok(whole) => {
                self.end = whole.end;
                self.kept = Some(whole.cursor);
                self.ready()
            }
            Err(HoldStop::Busy) => ViewersAnswer::Busy,
            Err(HoldStop::ReadFault) => ViewersAnswer::ReadFault,
            Err(HoldStop::Memory) => ViewersAnswer::Memory,
        }
    }

    // What is published for a plan. Its text stands ready afterwards.
    fn answer_prefix(&mut self, plan: Plan) -> ViewersAnswer
        requires plan { FitsLayout self.old.scene.tileset.layout plan }
        ensures answered { AnswersPrefix S.told S.faults S.fetches plan self.old self.new
            (answered_of result self.new.text) }
        ensures aside { IsAside S.told S.faults S.fetches self.old self.new }
        ensures length { HasLength result self.new.text }
        ensures scene { self.new.scene ≡ self.old.scene }
    {
        let read = front_of(
            self.rt,
            self.alloc,
            self.scene,
            &mut self.pass,
            &mut self.kept,
            plan,
        );
        match read {
            Ok(front) => {
                self.words = front.words;
                self.end = front.end;
                self.ready()
            }
            Err(_) => ViewersAnswer::Memory,
        }
    }

    // The answer that tells how long the text is that stands ready.
    fn ready(&self) -> ViewersAnswer
        ensures text { answered_of result self.now.text ≡ Answered.text self.now.text }
        ensures length { HasLength result self.now.text }
    {
        ViewersAnswer::Text(answer_length(self.scene.layout(), &self.words, self.end))
    }
}

impl<'a, R: Wait, S: FileSource> Viewers for SceneViewers<'a, R, S> {
    ghost use Rattle.scene_viewers.specs.Replies.{MayAnswer};

    ghost may = { MayAnswer S.told S.faults S.fetches };

    ghost text = { λ v. v.text };

    fn answer(&mut self, route: Route, line: &[u8]) -> ViewersAnswer {
        match read_line(self.scene.layout(), line) {
            Ok(plan) => match route {
                Route::Tiles => self.answer_whole(plan),
                Route::Prefix => self.answer_prefix(plan),
                Route::NotFound => ViewersAnswer::Memory,
            },
            Err(number) => ViewersAnswer::Refused(number),
        }
    }

    fn write_text<O: Outlet>(&self, piece: &mut String, out: &mut O) -> Result<(), GiveFault> {
        append_answer(self.scene.layout(), &self.words, self.end, piece, out)?;
        give_rest(out, piece)
    }
}

// The plan of a line over a layout, or the number of the first rule that refuses it.
fn read_line(layout: &Layout, line: &[u8]) -> Result<Plan, u64>
    ensures read { result ≡ plan_in layout.now line.now }
    ensures fits { IfOk result (FitsLayout layout.now) }
    ensures within { IsWithinLimits layout.now }
{
    // The scheme is read so that the limits of the layout are known.
    let _scheme = layout.scheme;
    parse_line(layout, line)
}
