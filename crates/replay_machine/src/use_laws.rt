// Laws of the use of frames in a replay (this project's own).
ghost use Rattle.replay_machine.specs.Used.{OpeningIsUsed, TurnsKeepUse};

/// A replay begins with frames that no pass uses.
pub fn a_replay_begins_with_frames_unused()
    ensures { OpeningIsUsed }
{}

/// After each turn a frame has as many pins as passes have pinned it, and is loading where one pass loads it; and a
/// pass with a frame holds the work of its cursor.
pub fn frames_are_used_as_their_states_say<R>()
    ensures { TurnsKeepUse R }
{}
