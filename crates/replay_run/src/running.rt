// A list of events, run one after another.
ghost use Rattle.std.specs.Prelude.{◌≡◌, ◌+◌, ◌≤◌, ◌++◌, ◌∷◌, [], vec_len, vec_capacity};
ghost use Rattle.std.specs.List.{All};
ghost use Rattle.implicit_tiling.specs.Scene.{Scene};
ghost use Rattle.subtree_outcome.specs.Outcomes.{HasNoOrphans};
ghost use Rattle.replay_machine.specs.Machine.{Machine};
ghost use Rattle.replay_core.specs.Core.{IsCoreOf, IsShown, AsksFor, IsOfScene};
ghost use Rattle.replay_run.specs.Runs.{MayRun, AreBrought, RunEnds};

use replay_core::Core;
use replay_script::{Event, Reply};
use std::alloc::{AllocError, Global};
use subtree_outcome::Outcome;
use tileset_json::Layout;

/// Does what each of some events asks for, one after another, and appends what is replied. A load has what was read of
/// the file of the root that its pass is loading then, or None where the file couldn't be read. The events are used up,
/// since what a load has read goes into a frame. An error is want of memory, or of numbers for cursors: core and replies
/// are then as after the events before the one at which it came.
pub fn run(
    core: &mut Core,
    alloc: Global,
    layout: &Layout,
    events: Vec<Event<Option<Outcome>>>,
    replies: &mut Vec<Reply>,
) -> Result<(), AllocError>
    requires core { IsCoreOf layout.now core.old }
    requires plans { All (AsksFor layout.now) events.items }
    requires reads { MayRun layout.now core.old events.items }
    ensures core { IsCoreOf layout.now core.new }
    ensures replies { (s : Scene) (m : Machine) → s.layout ≡ layout.now → HasNoOrphans s → IsShown s m core.old
        → AreBrought (IsOfScene s) s m events.items
        → RunEnds s m events.items core.new replies.old.items replies.new.items result }
{
    for event in events {
        // There is room for the reply before the step is made, so that no step is without its reply.
        replies.reserve(1)?;
        let reply = core.step(alloc, layout, event)?;
        append(replies, reply);
    }
    Ok(())
}

// Appends a reply for which there is room.
fn append(replies: &mut Vec<Reply>, reply: Reply)
    requires { vec_len replies.old + 1 ≤ vec_capacity replies.old }
    ensures { replies.new.items ≡ replies.old.items ++ reply ∷ [] }
{
    match replies.push(reply) {
        Ok(()) => {}
        Err(_) => unreachable!(),
    }
}
