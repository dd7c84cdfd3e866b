// Laws of the number of nodes above a level (OGC 22-025r4, implicit tiling: availability).
ghost use Rattle.tiling_laws.specs.Nodes.{LevelsAddUp, NodesTimesRest, NodesAreTiles};

/// The nodes above a level are none above level 0, and each level adds its own.
pub fn levels_add_up()
    ensures { LevelsAddUp }
{}

/// N - 1 times the number of nodes above level l, and 1, is N^l.
pub fn nodes_times_one_less_than_n()
    ensures { NodesTimesRest }
{}

/// The nodes above level l are as many as the tiles of the levels 0 to l - 1.
pub fn nodes_are_counted_as_tiles()
    ensures { NodesAreTiles }
{}
