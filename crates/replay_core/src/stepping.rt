// The steps of a replay.
ghost use Rattle.std.specs.Prelude.{◌≡◌, ◌-◌, ◌^◌, ◌<◌, ◌≤◌, IfOk, IfErr, IfSome};
ghost use Rattle.std.specs.List.{All};
ghost use Rattle.implicit_tiling.specs.Scene.{Scene, Layout as Layouts};
ghost use Rattle.implicit_tiling.specs.Code.{IsWord, word_level};
ghost use Rattle.tile_word.specs.Roots.{IsRootWord};
ghost use Rattle.subtree_outcome.specs.Outcomes.{HasNoOrphans};
ghost use Rattle.frame_pool.specs.Frames.{most_frames};
ghost use Rattle.replay_script.specs.Replies.{reply_words};
ghost use Rattle.replay_machine.specs.Machine.{Machine, opening};
ghost use Rattle.replay_machine.specs.Turns.{turn};
ghost use Rattle.replay_core.specs.Core.{IsCoreOf, AsksFor, Brings, IsReadAt, IsOfScene, IsShown, IsReplied};
ghost use Rattle.replay_core.specs.Core.{wanted};

use crate::claiming::{claim, drop_work};
use crate::cursors::Cursors;
use crate::moving::{attach, commit, read_page};
use crate::passes::Passes;
use crate::pinning::{key_of, load, pin};
use crate::state::Core;
use frame_pool::Pool;
use replay_machine::Held;
use replay_script::{Event, Reply};
use std::alloc::{AllocError, Global};
use subtree_outcome::Outcome;
use tile_coords::Word;
use tileset_json::Layout;

impl Core {
    /// A replay with this many empty frames (1 to 1,024), with this many passes (below 2^32 - 1) and no cursor. An error
    /// is want of memory.
    pub fn new(alloc: Global, frames: usize, passes: usize) -> Result<Core, AllocError>
        requires frames { (1 ≤ frames) × (frames ≤ most_frames) }
        requires passes { passes < 2 ^ 32 - 1 }
        ensures core { IfOk result (λ core. (layout : Layouts) → IsCoreOf layout core) }
        ensures scene { IfOk result (λ core. (s : Scene) → IsShown s (opening frames passes) core) }
    {
        Ok(Core {
            frames: Pool::new(alloc, frames)?,
            cursors: Cursors::new(alloc),
            passes: Passes::new(alloc, passes)?,
        })
    }

    /// The word, with mask 0, of the root whose file a pass is loading: what a load of the pass is to bring. None where
    /// the pass loads nothing.
    pub fn wanted(&self, layout: &Layout, pass: u32) -> Option<Word>
        requires { IsCoreOf layout.now self.now }
        ensures key { result ≡ wanted self.now pass }
        ensures root { IfSome result (λ key. IsRootWord layout.now (word_level key) key) }
    {
        let _ = layout;
        let state = match self.passes.get(pass) {
            Some(state) => state,
            None => return None,
        };
        match state.frame {
            Held::Loads(_) => {}
            Held::Nothing => return None,
            Held::Pins(_) => return None,
        }
        let number = match state.cursor {
            Some(number) => number,
            None => unreachable!(),
        };
        Some(key_of(self, number))
    }

    /// Does what an event asks for, and tells what is replied. A load brings what was read of the file of the root that
    /// the pass is loading, or None where the file couldn't be read. An error is want of memory, or of numbers for
    /// cursors, of which there are 2^32 - 1; it leaves all as it was.
    pub fn step(
        &mut self,
        alloc: Global,
        layout: &Layout,
        event: Event<Option<Outcome>>,
    ) -> Result<Reply, AllocError>
        requires core { IsCoreOf layout.now self.old }
        requires plan { AsksFor layout.now event }
        requires read { Brings (IsReadAt layout.now) self.old event }
        ensures core { IfOk result (λ reply. IsCoreOf layout.now self.new) }
        ensures scene { IfOk result (λ reply. (s : Scene) (m : Machine) → s.layout ≡ layout.now → HasNoOrphans s
            → Brings (IsOfScene s) self.old event → IsShown s m self.old
            → IsReplied s (turn s m event) reply self.new) }
        ensures words { IfOk result (λ reply. All (IsWord layout.now.scheme) (reply_words reply)) }
        ensures unchanged { IfErr result (λ e. self.new ≡ self.old) }
    {
        match event {
            Event::Attach { pass, asked } => attach(self, alloc, layout, pass, asked),
            Event::Claim { pass } => Ok(claim(self, layout, pass)),
            Event::Pin { pass } => Ok(pin(self, layout, pass)),
            Event::Load { pass, read } => Ok(load(self, layout, pass, read)),
            Event::Fail { pass } => Ok(load(self, layout, pass, None)),
            Event::Commit { pass } => commit(self, layout, pass),
            Event::Drop { pass } => Ok(drop_work(self, layout, pass)),
            Event::Page { pass, count } => read_page(self, alloc, layout, pass, count),
            Event::Bad => Ok(Reply::Bad),
        }
    }
}
