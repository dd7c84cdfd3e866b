// The events `pin`, `load` and `fail`.
ghost use Rattle.std.specs.Prelude.{◌≡◌, [], length, slice_get, IfSome, IsSomeAnd};
ghost use Rattle.std.specs.List.{range_with_len};
ghost use Rattle.std.specs.List.Sorted.{IsPermutation};
ghost use Rattle.tile_coords.specs.declared.walk_end.WalkEnd.TheVariants.{Partial};
ghost use Rattle.replay_script.specs.Replies.{reply_words};
ghost use Rattle.replay_machine.specs.Machine.{standing};
ghost use Rattle.replay_machine.specs.Turns.{pin as pin_turn, load as load_turn};
ghost use Rattle.replay_core.specs.Core.{IsCoreOf, IsReadAt, IsOfScene, wanted};
ghost use Rattle.replay_core.specs.Events.{Answers, AnswersWith};
ghost use Rattle.replay_core.specs.Leaving.{IsNextOf};

use crate::standing::working;
use crate::state::Core;
use frame_pool::Asked;
use replay_machine::{Held, Pass};
use replay_script::Reply;
use subtree_outcome::Outcome;
use tile_coords::Word;
use tileset_json::Layout;

/// The pass asks for the frame of the root that the next step of its work reads.
pub(crate) fn pin(core: &mut Core, layout: &Layout, pass: u32) -> Reply
    requires { IsCoreOf layout.now core.old }
    ensures core { IsCoreOf layout.now core.new }
    ensures words { reply_words result ≡ [] }
    ensures scene { Answers layout.now (λ s m. pin_turn s pass m (standing m pass)) core.old result core.new }
{
    let _ = layout;
    let (state, number) = match working(core, pass) {
        Some(found) => found,
        None => return Reply::No,
    };
    match state.frame {
        Held::Nothing => {}
        Held::Loads(_) => return Reply::No,
        Held::Pins(_) => return Reply::No,
    }
    let key = key_of(core, number);
    match core.frames.ask(key) {
        Asked::Hit(frame) => {
            core.passes.set(
                pass,
                Pass {
                    frame: Held::Pins(frame),
                    ..state
                },
            );
            Reply::Hit(frame)
        }
        Asked::Granted(frame) => {
            core.passes.set(
                pass,
                Pass {
                    frame: Held::Loads(frame),
                    ..state
                },
            );
            Reply::Granted(frame)
        }
        Asked::Loading => Reply::Loading,
        Asked::Busy => Reply::Busy,
    }
}

/// What the pass is loading is there, or can't be read: then the frame is empty, and the pass has none.
pub(crate) fn load(core: &mut Core, layout: &Layout, pass: u32, read: Option<Outcome>) -> Reply
    requires core { IsCoreOf layout.now core.old }
    requires read { IfSome (wanted core.old pass) (λ key. IfSome read (IsReadAt layout.now key)) }
    ensures core { IsCoreOf layout.now core.new }
    ensures words { reply_words result ≡ [] }
    ensures scene { AnswersWith layout.now (λ s. IfSome (wanted core.old pass) (λ key. IfSome read (IsOfScene s key)))
        (λ s m. load_turn pass read m (slice_get m.passes pass)) core.old result core.new }
{
    let _ = layout;
    let state = match core.passes.get(pass) {
        Some(state) => state,
        None => return Reply::No,
    };
    let frame = match state.frame {
        Held::Loads(frame) => frame,
        Held::Nothing => return Reply::No,
        Held::Pins(_) => return Reply::No,
    };
    match read {
        Some(found) => {
            core.frames.settle(frame, Some(found));
            core.passes.set(
                pass,
                Pass {
                    frame: Held::Pins(frame),
                    ..state
                },
            );
            Reply::Loaded(frame)
        }
        None => {
            core.frames.settle(frame, None);
            core.passes.set(
                pass,
                Pass {
                    frame: Held::Nothing,
                    ..state
                },
            );
            Reply::Failed
        }
    }
}

/// The key of the root that the next step of a cursor reads, which goes on.
pub(crate) fn key_of(core: &Core, number: u32) -> Word
    requires { IsSomeAnd (slice_get core.now.cursors number) (λ cursor. cursor.walk.end ≡ Partial) }
    ensures next { IsSomeAnd (slice_get core.now.cursors number) (IsNextOf result) }
    ensures numbers { IsPermutation (range_with_len 0 (length core.now.frames.census)) core.now.frames.order }
{
    // What every order is becomes known here, for the answer to one who asks for the key.
    let _ = core.frames.order();
    let Some(cursor) = core.cursors.get(number) else {
        unreachable!()
    };
    match cursor.walk.next_key() {
        Some(key) => key,
        None => unreachable!(),
    }
}
