// The scene of viewers, as what answers the plans of a batch.
use crate::viewing::{AnswerStop, Pass, Viewing};
use scene_frames::HoldStop;
use scene_ports::FileSource;
use std::sync::Wait;
use tile_coords::{Plan, WalkEnd, Word};
use tileset_json::Layout;
use viewer_session::{Scene, ViewerPass, Walked};

impl Pass<Walked> for ViewerPass {
    ghost use Rattle.viewer_session.specs.declared.pass.Walked.TheVariants.{Whole};

    ghost walked = { λ p. p.walked };

    ghost whole = { λ plan. Whole plan };
}

impl<S: FileSource> Viewing<ViewerPass, Walked, S> for Scene {
    ghost use Rattle.viewer_session.specs.Sessions.{IsPassOf};

    ghost seen = { λ s. record { told = s.tileset.told; layout = s.tileset.layout; is_pass = IsPassOf s } };

    fn layout(&self) -> &Layout {
        self.layout()
    }

    fn answer<R: Wait>(
        &self,
        rt: &R,
        pass: &mut ViewerPass,
        plan: Plan,
        files: &mut S,
        words: &mut Vec<Word>,
    ) -> Result<WalkEnd, AnswerStop> {
        match self.answer(rt, pass, plan, files, words) {
            Ok(whole) => Ok(whole.end),
            Err(HoldStop::ReadFault) => Err(AnswerStop::ReadFault),
            Err(HoldStop::Busy) => Err(AnswerStop::Busy),
            Err(HoldStop::Memory) => Err(AnswerStop::Memory),
        }
    }
}
