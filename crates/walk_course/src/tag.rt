// What all seats of a walk have in common.
use contract_tokens::Tells;
use std::collections::LinkedList;
use std::marker::Brand;
use tile_coords::Region;
use tileset_json::Layout;

/// What a walk is of: the files that are told, by name and bytes, or None where the source doesn't tell them; the
/// layout; and the region of the plan. For contracts alone; no value of it is made.
pub struct WalkTag {
    pub told: Option<LinkedList<(LinkedList<u8>, LinkedList<u8>)>>,
    pub layout: Layout,
    pub region: Region,
}

// A caller picks the tag at hand.
impl Tells<WalkTag> for Brand {
    ghost use Rattle.std.specs.Prelude.{None, []};
    ghost use Rattle.implicit_tiling.specs.declared.Scheme.TheVariants.{Quad};

    ghost told = { record {
      told = None;
      layout = record { scheme = Quad; subtree_levels = 1; levels = 1; subtree = []; contents = [] };
      region = record { level = 0; lo = []; hi = [] };
    } };
}
