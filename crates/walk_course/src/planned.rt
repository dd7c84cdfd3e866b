// The walks of the plans of a scene.
use crate::course::PlanWalk;
use contract_tokens::Tells;
use plan_registry::Planned;
use std::collections::LinkedList;
use std::marker::Brand;
use tileset_json::Layout;

/// What all walks of a scene have in common: the files that are told, by name and bytes, or None where the source
/// doesn't tell them, and the layout. For contracts alone; no value of it is made.
pub struct WalkScene {
    pub told: Option<LinkedList<(LinkedList<u8>, LinkedList<u8>)>>,
    pub layout: Layout,
}

impl Planned for PlanWalk {
    ghost use Rattle.walk_course.specs.Scenes.{tag_of, no_scene};

    type Scene = WalkScene;

    ghost tag_of = { tag_of };

    ghost any_scene = { no_scene };
}

// A caller picks the scene at hand.
impl Tells<WalkScene> for Brand {
    ghost use Rattle.walk_course.specs.Scenes.{no_scene};

    ghost told = { no_scene };
}
