// The host of a scene's frames.
ghost use Rattle.std.specs.Prelude.{◌≡◌, ◌+◌, length, nat_eq};
ghost use Rattle.shared_pool.specs.Books.{HasFewKeys, IsFetchedOnce, all_entries};
ghost use Rattle.shared_pool.specs.Fits.{IsIdle, added};

use crate::pass::ViewerPass;
use contract_tokens::Tells;
use scene_frames::Outcomes;
use shared_pool::Host;
use std::marker::{Brand, Model};
use std::sync::Wait;

/// The host of a scene's frames: it takes the passes back, and shows at the end what was fetched for them. It stays
/// with whoever started the scene, and is for one thread.
#[derive(Drop)]
pub struct SceneHost {
    pub(crate) frames: Host<Outcomes>,
}

impl Model for SceneHost {
    ghost use Rattle.viewer_session.specs.Sessions.{FramesHost};

    ghost Value = { FramesHost };

    ghost view = { λ h. h.frames };
}

impl Tells<SceneHost> for Brand {
    ghost use Rattle.viewer_session.specs.Sessions.{no_host};

    ghost told = { no_host };
}

impl SceneHost {
    /// Takes a pass back, with what was granted to it.
    pub fn rejoin(&mut self, pass: ViewerPass)
        requires own { pass.frames.table ≡ self.old.table }
        requires idle { IsIdle pass.frames.note }
        ensures rejoined { self.new ≡ record self.old { note = added self.old.note pass.frames.note } }
        ensures back { length self.new.note.granted ≡ length self.old.note.granted + 1 }
    {
        self.frames.rejoin(pass.frames);
    }

    /// Takes the frames once, with all passes back. Where no more roots were granted than there are frames, each was
    /// granted at most once more than its loadings failed. No memory is taken.
    pub fn audit(&mut self, rt: &impl Wait)
        requires all { length self.old.note.granted ≡ self.old.tag.passes }
        ensures same { self.new ≡ record self.old { last = self.new.last; gave = self.new.gave } }
        ensures fetched { HasFewKeys nat_eq self.old.tag.frames (all_entries self.old.note.granted)
            → IsFetchedOnce nat_eq (all_entries self.old.note.granted) }
    {
        self.frames.audit(rt);
    }
}
