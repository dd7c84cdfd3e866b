// The events `claim` and `drop`.
ghost use Rattle.std.specs.Prelude.{◌≡◌, [], ◌<◌, length, slice_get, IsSomeAnd};
ghost use Rattle.replay_script.specs.Replies.{reply_words};
ghost use Rattle.replay_machine.specs.Machine.{standing};
ghost use Rattle.replay_machine.specs.Turns.{claim as claim_turn, drop_work as drop_turn};
ghost use Rattle.replay_core.specs.Core.{IsCoreOf};
ghost use Rattle.replay_core.specs.Events.{Answers};
ghost use Rattle.replay_core.specs.Leaving.{IsAtStage, MayGiveUp, given_up_frames};

use crate::standing::{resting, working};
use crate::state::Core;
use frame_pool::Pool;
use replay_machine::{Held, Pass};
use replay_script::Reply;
use subtree_outcome::Outcome;
use tile_coords::{WalkEnd, Word};
use tileset_json::Layout;

// How far a cursor is: it has ended, another pass holds its work, or none does.
#[derive(Clone, Copy, Debug, PartialEq, Eq)]
enum Stage {
    Ended,
    Out,
    Free,
}

fn stage_of(core: &Core, number: u32) -> Stage
    requires { number < length core.now.cursors }
    ensures { IsSomeAnd (slice_get core.now.cursors number) (λ cursor. IsAtStage cursor.walk.end cursor.holder result) }
{
    let Some(cursor) = core.cursors.get(number) else {
        unreachable!()
    };
    match cursor.walk.end() {
        WalkEnd::Partial => match cursor.holder {
            Some(_) => Stage::Out,
            None => Stage::Free,
        },
        WalkEnd::Complete => Stage::Ended,
        WalkEnd::TooMany => Stage::Ended,
        WalkEnd::Fault { .. } => Stage::Ended,
    }
}

/// The pass takes the work of its cursor, where the cursor goes on and no other pass has it.
pub(crate) fn claim(core: &mut Core, layout: &Layout, pass: u32) -> Reply
    requires { IsCoreOf layout.now core.old }
    ensures core { IsCoreOf layout.now core.new }
    ensures words { reply_words result ≡ [] }
    ensures scene { Answers layout.now (λ s m. claim_turn s pass m (standing m pass)) core.old result core.new }
{
    let _ = layout;
    let number = match resting(core, pass) {
        Some((_, number)) => number,
        None => return Reply::No,
    };
    match stage_of(core, number) {
        Stage::Ended => Reply::End,
        Stage::Out => Reply::Out,
        Stage::Free => {
            core.cursors.set_holder(number, Some(pass));
            Reply::Claimed
        }
    }
}

/// The pass gives its work back: a frame that it loads is empty, a pin ends.
pub(crate) fn drop_work(core: &mut Core, layout: &Layout, pass: u32) -> Reply
    requires { IsCoreOf layout.now core.old }
    ensures core { IsCoreOf layout.now core.new }
    ensures words { reply_words result ≡ [] }
    ensures scene { Answers layout.now (λ s m. drop_turn pass m (standing m pass)) core.old result core.new }
{
    let _ = layout;
    let (state, number) = match working(core, pass) {
        Some(found) => found,
        None => return Reply::No,
    };
    give_up(&mut core.frames, state.frame);
    core.passes.set(
        pass,
        Pass {
            frame: Held::Nothing,
            ..state
        },
    );
    core.cursors.set_holder(number, None);
    Reply::Dropped
}

// A frame that is loading is empty, a pin ends.
fn give_up(frames: &mut Pool<Word, Outcome>, held: Held)
    requires { MayGiveUp held frames.old.census }
    ensures { frames.new ≡ given_up_frames held frames.old }
{
    match held {
        Held::Nothing => {}
        Held::Loads(frame) => frames.settle(frame, None),
        Held::Pins(frame) => frames.unpin(frame),
    }
}
