// The events `attach`, `commit` and `page`.
ghost use Rattle.std.specs.Prelude.{◌≡◌, ◌<◌, [], length, slice_get, IfOk, IfErr};
ghost use Rattle.std.specs.Prelude.{IsSomeAnd};
ghost use Rattle.std.specs.List.{All};
ghost use Rattle.implicit_tiling.specs.Code.{IsWord};
ghost use Rattle.walk_laws.specs.Plans.{FitsLayout};
ghost use Rattle.replay_script.specs.Replies.{reply_words};
ghost use Rattle.replay_machine.specs.Machine.{standing};
ghost use Rattle.replay_machine.specs.Turns.{attach as attach_turn, commit as commit_turn, page_on as page_turn};
ghost use Rattle.replay_core.specs.Core.{IsCoreOf};
ghost use Rattle.replay_core.specs.Events.{Answers};
ghost use Rattle.tile_coords.specs.Ends.{EndsAtRoot};

use crate::pinning::key_of;
use crate::standing::{attached, is_free, working};
use crate::state::Core;
use replay_machine::{Held, Pass};
use replay_script::Reply;
use std::alloc::{AllocError, Global};
use tile_coords::{Plan, WalkEnd, Word};
use tileset_json::Layout;

/// The pass takes the cursor of a plan, which is made where there is none, and begins at its first tile. After an Err
/// the core is as it was.
pub(crate) fn attach(
    core: &mut Core,
    alloc: Global,
    layout: &Layout,
    pass: u32,
    asked: Result<Plan, u64>,
) -> Result<Reply, AllocError>
    requires core { IsCoreOf layout.now core.old }
    requires fits { IfOk asked (FitsLayout layout.now) }
    ensures core { IfOk result (λ reply. IsCoreOf layout.now core.new) }
    ensures words { IfOk result (λ reply. reply_words reply ≡ []) }
    ensures scene { IfOk result (λ reply. Answers layout.now (λ s m. attach_turn pass asked m (standing m pass))
        core.old reply core.new) }
    ensures unchanged { IfErr result (λ e. core.new ≡ core.old) }
{
    if !is_free(core, pass) {
        return Ok(Reply::No);
    }
    let plan = match asked {
        Ok(plan) => plan,
        Err(number) => return Ok(Reply::Refused(number)),
    };
    let cursor = core.cursors.of_plan(alloc, layout, plan)?;
    core.passes.set(
        pass,
        Pass {
            cursor: Some(cursor),
            place: 0,
            frame: Held::Nothing,
        },
    );
    Ok(Reply::Cursor(cursor))
}

/// The pass makes the next step of its work, and gives frame and work back. After an Err the core is as it was.
pub(crate) fn commit(core: &mut Core, layout: &Layout, pass: u32) -> Result<Reply, AllocError>
    requires core { IsCoreOf layout.now core.old }
    ensures core { IfOk result (λ reply. IsCoreOf layout.now core.new) }
    ensures words { IfOk result (λ reply. reply_words reply ≡ []) }
    ensures scene { IfOk result (λ reply. Answers layout.now (λ s m. commit_turn s pass m (standing m pass))
        core.old reply core.new) }
    ensures unchanged { IfErr result (λ e. core.new ≡ core.old) }
{
    let _ = layout;
    let (state, number) = match working(core, pass) {
        Some(found) => found,
        None => return Ok(Reply::No),
    };
    let frame = match state.frame {
        Held::Pins(frame) => frame,
        Held::Nothing => return Ok(Reply::No),
        Held::Loads(_) => return Ok(Reply::No),
    };
    // What the next key is becomes known here, for the outcome in the frame.
    let _ = key_of(core, number);
    let tiles = core.cursors.advance(number, core.frames.look(frame))?;
    core.frames.unpin(frame);
    core.passes.set(
        pass,
        Pass {
            frame: Held::Nothing,
            ..state
        },
    );
    Ok(Reply::Moved(tiles))
}

/// The pass reads on, up to this many tiles. After an Err the core is as it was.
pub(crate) fn read_page(
    core: &mut Core,
    alloc: Global,
    layout: &Layout,
    pass: u32,
    count: u32,
) -> Result<Reply, AllocError>
    requires core { IsCoreOf layout.now core.old }
    ensures core { IfOk result (λ reply. IsCoreOf layout.now core.new) }
    ensures words { IfOk result (λ reply. All (IsWord layout.now.scheme) (reply_words reply)) }
    ensures scene { IfOk result (λ reply. Answers layout.now (λ s m. page_turn s pass count m (standing m pass))
        core.old reply core.new) }
    ensures unchanged { IfErr result (λ e. core.new ≡ core.old) }
{
    let _ = layout;
    let (state, number) = match attached(core, pass) {
        Some(found) => found,
        None => return Ok(Reply::No),
    };
    let words = core
        .cursors
        .page(alloc, number, state.place as usize, count as usize)?;
    let end = end_of(core, number);
    core.passes.set(
        pass,
        Pass {
            place: state.place + count_of(&words),
            ..state
        },
    );
    Ok(Reply::Page {
        from: state.place,
        words,
        end,
    })
}

// How the walk of a cursor stands.
fn end_of(core: &Core, number: u32) -> WalkEnd
    requires { number < length core.now.cursors }
    ensures { IsSomeAnd (slice_get core.now.cursors number) (λ cursor. (result ≡ cursor.walk.end)
        × EndsAtRoot cursor.walk.cursor.scheme result) }
{
    match core.cursors.get(number) {
        Some(cursor) => cursor.walk.end(),
        None => unreachable!(),
    }
}

fn count_of(words: &[Word]) -> u64
    ensures { result ≡ length words.now }
{
    words.len() as u64
}
