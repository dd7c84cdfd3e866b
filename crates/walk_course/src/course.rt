// The course of a walk.
use crate::paused::Paused;
use crate::tag::WalkTag;
use published_prefix::Course;

/// The course of the walk of a plan over a layout: its words are those of the tiles of the answer, in their order.
pub struct PlanWalk;

impl Course for PlanWalk {
    ghost use Rattle.walk_course.specs.Course.{IsWordAt, IsHead, Fits};
    ghost use Rattle.walk_course.specs.Laws.{few_steps, fault_fits, begins};

    type Tag = WalkTag;

    type Work = Paused;

    ghost word_at = { IsWordAt };

    ghost is_head = { IsHead };

    ghost fits = { Fits };

    ghost few_steps = { few_steps };

    ghost fault_fits = { fault_fits };

    ghost begins = { begins };
}
