// Laws of the first fault and of the steps of a walk (this project's own).
ghost use Rattle.walk_laws.specs.Faults.{FirstFaultIsTheFirst, NoFaultIsFirst};
ghost use Rattle.walk_laws.specs.Stepped.{StepsHaveTheTiles, StepsEndAsTheAnswer, EarlierStepsArePartial, StepsAreFew};

/// The first fault is that of the first root on the walk with a fault: no root on the walk above its level has one, and
/// none before it in its level.
pub fn the_first_root_with_a_fault_gives_the_first_fault()
    ensures { FirstFaultIsTheFirst }
{}

/// Where no root on the walk has a fault, there is no first one.
pub fn a_walk_without_faults_has_no_first_one()
    ensures { NoFaultIsFirst }
{}

/// The tiles of the steps of a walk, one after another, are the tiles of its answer.
pub fn steps_have_the_tiles_of_the_answer()
    ensures { StepsHaveTheTiles }
{}

/// A walk has a last step, which ends as the answer does.
pub fn steps_end_as_the_answer()
    ensures { StepsEndAsTheAnswer }
{}

/// A step that another one follows is partial.
pub fn earlier_steps_are_partial()
    ensures { EarlierStepsArePartial }
{}

/// A walk has at most one step for each pair of a level and a root.
pub fn steps_are_few()
    ensures { StepsAreFew }
{}
