// What a user of a registry states.
ghost use Rattle.std.specs.Prelude.{◌≡◌, ℕ, IfOk};
ghost use Rattle.implicit_tiling.specs.Region.{Plan as plan};
ghost use Rattle.published_prefix.specs.Seats.{newcomer};

use published_prefix::{Course, Prefix, PrefixSeat};
use std::alloc::AllocError;
use tile_coords::Plan;

/// A course of which a scene and a plan make the tag. The scene, which only contracts see, is what all walks of a
/// registry have in common.
pub trait Planned: Course {
    type Scene;

    /// The tag of the walk of a plan.
    ghost tag_of: { Self.Scene → plan → Self.Tag };

    /// Any scene.
    ghost any_scene: { Self.Scene };
}

/// Makes walks that have no step yet.
pub trait Starts<C: Planned> {
    /// The scene of the walks.
    ghost scene: { Self → C.Scene };

    /// The plan has a walk there.
    ghost has_walk: { Self → plan → Type 0 };

    /// The walk of a plan, with its first seat. An error is want of memory.
    fn start(&self, plan: Plan) -> Result<(Prefix<C>, PrefixSeat<C>), AllocError>
        requires { has_walk self.now plan }
        ensures { IfOk result (λ r. (capacity : ℕ) × (r.1 ≡ newcomer r.0 (C.tag_of (scene self.now) plan) capacity)) };
}
