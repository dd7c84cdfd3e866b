// What answers plans for the passes of a scene.
ghost use Rattle.std.specs.Prelude.{◌≡◌, ◌≢◌, ◌≤◌, [], ◌∷◌, ◌++◌, List, Option, Err, IfOk, IfErr, IfSome};
ghost use Rattle.implicit_tiling.specs.Region.{Plan};
ghost use Rattle.implicit_tileset.specs.Scene.{scene_of};
ghost use Rattle.scene_ports.specs.Counts.{Rose};
ghost use Rattle.walk_laws.specs.Plans.{FitsLayout};
ghost use Rattle.subtree_outcome.specs.Found.{AreTilesOf, EndsWithin};
ghost use Rattle.tile_word.specs.Answers.{IsAnswer};
ghost use Rattle.batch_run.specs.Desks.{Viewed};

use scene_ports::FileSource;
use std::sync::Wait;
use tile_coords::{Plan, WalkEnd, Word};
use tileset_json::Layout;

/// The pass of one worker. Contracts see what it has walked.
pub trait Pass<W> {
    /// What it has walked, in order.
    ghost walked: { Self → List W };

    /// That it has answered a plan whole.
    ghost whole: { Plan → W };
}

/// Why a plan has no answer.
#[derive(Clone, Copy, Debug, PartialEq, Eq)]
pub enum AnswerStop {
    /// The source failed, and has counted a fault.
    ReadFault,
    /// Nothing can be read now, since other passes have all room; it may be asked again.
    Busy,
    /// There was no memory.
    Memory,
}

/// A scene that several passes ask for the answers to plans, each in a thread of its own.
pub trait Viewing<P: Pass<W>, W, S: FileSource> {
    /// The files that its source told, its layout, and which passes are its own.
    ghost seen: { Self → Viewed P };

    /// The layout.
    fn layout(&self) -> &Layout
        ensures { result.now ≡ (seen self.now).layout };

    /// The answer for a plan that fits the layout: `words` becomes the words of its tiles in key order, at most
    /// 65,536, and the end is that of the answer.
    fn answer<R: Wait>(
        &self,
        rt: &R,
        pass: &mut P,
        plan: Plan,
        files: &mut S,
        words: &mut Vec<Word>,
    ) -> Result<WalkEnd, AnswerStop>
        requires pass { (seen self.now).is_pass pass.old }
        requires plan { FitsLayout (seen self.now).layout plan }
        requires told { S.told files.old ≡ (seen self.now).told }
        ensures answer { IfSome (seen self.now).told (λ all. IfOk result
            (IsAnswer (scene_of all (seen self.now).layout) plan.region words.new.items)) }
        ensures found { IfOk result (λ end. AreTilesOf (seen self.now).layout words.new.items) }
        ensures end { IfOk result (EndsWithin (seen self.now).layout) }
        ensures walked { IfOk result (λ end. P.walked pass.new ≡ P.walked pass.old ++ P.whole plan ∷ []) }
        ensures unwalked { IfErr result (λ stop. P.walked pass.new ≡ P.walked pass.old) }
        ensures pass { (seen self.now).is_pass pass.new }
        ensures failed { result ≡ Err AnswerStop.ReadFault → Rose (S.faults files.old) (S.faults files.new) }
        ensures sure { result ≢ Err AnswerStop.ReadFault → S.faults files.new ≡ S.faults files.old }
        ensures later { S.faults files.old ≤ S.faults files.new }
        ensures told { S.told files.new ≡ S.told files.old };
}
