// What is published of a walk.
ghost use Rattle.std.specs.Prelude.{◌≡◌, IfOk, IfSome, IsSomeAnd, IsTrue, IsFalse};
ghost use Rattle.tile_coords.specs.Ends.{end_seen};
ghost use Rattle.implicit_tiling.specs.Text.{words_text};
ghost use Rattle.subtree_outcome.specs.Found.{AreTilesOf, EndsWithin};
ghost use Rattle.walk_laws.specs.Plans.{FitsLayout};
ghost use Rattle.viewer_session.specs.Sessions.{IsPassOf, IsCursorOf, IsSameWalk};
ghost use Rattle.scene_viewers.specs.Replies.{IsPublishedText, IsPrefixBy, IsOfPlan};

use std::alloc::{AllocError, Global};
use std::sync::Wait;
use tile_coords::{Plan, WalkEnd, Word};
use viewer_session::{Cursor, Scene, ViewerPass};

// What stands in a list before it is read.
const NO_WORD: Word = Word { high: 0, low: 0 };

// The first words of a walk, and the end that was seen with them.
#[derive(Drop)]
pub(crate) struct Front {
    pub words: Vec<Word>,
    pub end: WalkEnd,
}

// What is published of the walk of a plan, by the cursor that is kept where it is of this plan, and else by one that is
// attached, which is kept then. An error is want of memory.
pub(crate) fn front_of<R: Wait>(
    rt: &R,
    alloc: Global,
    scene: &Scene,
    pass: &mut ViewerPass,
    kept: &mut Option<Cursor>,
    plan: Plan,
) -> Result<Front, AllocError>
    requires pass { IsPassOf scene.now pass.old }
    requires plan { FitsLayout scene.now.tileset.layout plan }
    requires kept { IfSome kept.old (IsCursorOf scene.now) }
    ensures text { IfOk result (λ front. IsSomeAnd kept.new (λ cursor. (cursor.plan ≡ plan)
        × IsPrefixBy plan scene.now.tileset kept.old cursor pass.old pass.new
        (words_text scene.now.tileset.layout front.words.items
        (end_seen scene.now.tileset.layout.scheme front.end)))) }
    ensures words { IfOk result (λ front. AreTilesOf scene.now.tileset.layout front.words.items) }
    ensures end { IfOk result (λ front. EndsWithin scene.now.tileset.layout front.end) }
    ensures kept { IfSome kept.new (IsCursorOf scene.now) }
    ensures pass { IsPassOf scene.now pass.new }
    ensures frames { pass.new.frames ≡ pass.old.frames }
{
    if is_of_plan(kept, plan) {
        let Some(cursor) = kept else { unreachable!() };
        return read_front(alloc, scene, cursor);
    }
    let mut cursor = scene.attach(rt, pass, plan)?;
    let front = read_front(alloc, scene, &mut cursor)?;
    *kept = Some(cursor);
    Ok(front)
}

// The cursor that is kept is on the walk of the plan.
fn is_of_plan(kept: &Option<Cursor>, plan: Plan) -> bool
    ensures yes { IsTrue result → IsOfPlan plan kept.now }
    ensures no { IsFalse result → IsOfPlan plan kept.now → ⊥ }
{
    kept.as_ref().is_some_and(|cursor| cursor.plan() == plan)
}

// The words that are published of the walk of a cursor, and their end. It doesn't wait.
pub(crate) fn read_front(
    alloc: Global,
    scene: &Scene,
    cursor: &mut Cursor,
) -> Result<Front, AllocError>
    requires cursor { IsCursorOf scene.now cursor.old }
    ensures text { IfOk result (λ front. IsPublishedText scene.now.tileset.told scene.now.tileset.layout cursor.old
        cursor.new (words_text scene.now.tileset.layout front.words.items
        (end_seen scene.now.tileset.layout.scheme front.end))) }
    ensures words { IfOk result (λ front. AreTilesOf scene.now.tileset.layout front.words.items) }
    ensures end { IfOk result (λ front. EndsWithin scene.now.tileset.layout front.end) }
    ensures cursor { IsCursorOf scene.now cursor.new × IsSameWalk cursor.old cursor.new }
{
    let head = scene.page(cursor, 0, &mut []);
    let mut words = vec![in alloc; NO_WORD; head.length]?;
    let _ = scene.page(cursor, 0, words.as_mut_slice());
    Ok(Front {
        words,
        end: head.end,
    })
}
