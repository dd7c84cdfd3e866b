// What makes the walks of a scene.
ghost use Rattle.std.specs.Prelude.{◌≡◌, IfOk};
ghost use Rattle.walk_laws.specs.Plans.{FitsLayout};
ghost use Rattle.published_prefix.specs.Seats.{newcomer};
ghost use Rattle.walk_course.specs.Scenes.{tag_of};
ghost use Rattle.walk_course.specs.Spread.{most_words};

use contract_tokens::{Tells, Told};
use plan_registry::Starts;
use published_prefix::{Prefix, PrefixSeat};
use std::alloc::{AllocError, Global};
use std::marker::Brand;
use tile_coords::Plan;
use tileset_json::Layout;
use walk_course::{PlanWalk, WalkScene, WalkTag, begin};

/// Makes the walks of a scene.
#[derive(Drop)]
pub(crate) struct SceneWalks {
    pub(crate) alloc: Global,
    pub(crate) layout: Layout,
    pub(crate) scene: Told<WalkScene>,
}

impl Starts<PlanWalk> for SceneWalks {
    ghost use Rattle.std.specs.Prelude.{◌≡◌};
    ghost use Rattle.walk_laws.specs.Plans.{FitsLayout};

    ghost scene = { λ w. w.scene.value };

    ghost has_walk = { λ w plan. (w.scene.value.layout ≡ w.layout) × FitsLayout w.layout plan };

    fn start(&self, plan: Plan) -> Result<(Prefix<PlanWalk>, PrefixSeat<PlanWalk>), AllocError> {
        begin_in::<Brand>(self.alloc, &self.layout, &self.scene, plan)
    }
}

// `J` tells the tag of the plan's walk in the scene.
fn begin_in<J: Tells<WalkTag>>(
    alloc: Global,
    layout: &Layout,
    scene: &Told<WalkScene>,
    plan: Plan,
) -> Result<(Prefix<PlanWalk>, PrefixSeat<PlanWalk>), AllocError>
    requires told { J.told ≡ tag_of scene.now.value plan }
    requires layout { scene.now.value.layout ≡ layout.now }
    requires fits { FitsLayout layout.now plan }
    ensures { IfOk result (λ r. r.1 ≡ newcomer r.0 (tag_of scene.now.value plan) (most_words plan.region)) }
{
    let _ = scene;
    begin::<J>(alloc, layout, plan)
}
