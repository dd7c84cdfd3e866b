// The pass of a viewer.
use contract_tokens::Log;
use plan_registry::RegistrySeat;
use scene_frames::Outcomes;
use shared_pool::PoolPass;
use std::marker::Model;
use tile_coords::Plan;
use walk_course::PlanWalk;

/// What a pass has walked, for contracts alone.
#[derive(Clone, Copy, Debug)]
pub enum Walked {
    /// It has attached to the walk of the plan.
    Attached(Plan),
    /// It has answered the plan whole.
    Whole(Plan),
}

/// What one thread asks with: a pass to the frames of a scene, and a seat of its registry of walks. Between two calls
/// it pins and loads nothing.
#[derive(Drop)]
pub struct ViewerPass {
    pub(crate) frames: PoolPass<Outcomes>,
    pub(crate) walks: RegistrySeat<PlanWalk>,
    pub(crate) walked: Log<Walked>,
}

impl Model for ViewerPass {
    ghost use Rattle.viewer_session.specs.Sessions.{PassSeen};

    ghost Value = { PassSeen };

    ghost view = { λ p. record { frames = p.frames; walks = p.walks; walked = p.walked } };
}
