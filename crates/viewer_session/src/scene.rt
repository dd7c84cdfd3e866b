// A scene, and what a viewer asks of it.
ghost use Rattle.std.specs.Prelude.{◌≡◌, ◌≢◌, ℕ, ◌+◌, ◌-◌, ◌<◌, ◌≤◌, [], ◌∷◌, ◌++◌, length, min, slice_index, IfOk};
ghost use Rattle.std.specs.Prelude.{IfErr, IfSome, nat_eq};
ghost use Rattle.published_prefix.specs.Heads.{NoFurther};
ghost use Rattle.published_prefix.specs.Seats.{looked};
ghost use Rattle.plan_registry.specs.Registries.{HasAttached, HasKept, cursor_on};
ghost use Rattle.implicit_tileset.specs.Scene.{scene_of};
ghost use Rattle.walk_laws.specs.Plans.{FitsLayout};
ghost use Rattle.walk_course.specs.Course.{IsHead, IsWordAt};
ghost use Rattle.walk_course.specs.Scenes.{tag_of};
ghost use Rattle.viewer_session.specs.Sessions.{IsPassOf, IsCursorOf, tag_in, IsWholeAt};
ghost use Rattle.viewer_session.specs.declared.pass.Walked.TheVariants.{Attached};

use crate::host::SceneHost;
use crate::pass::{ViewerPass, Walked};
use crate::walks::SceneWalks;
use contract_tokens::{Log, Told};
use plan_registry::Registry;
use published_prefix::Page;
use std::alloc::AllocError;
use std::marker::Model;
use std::sync::Wait;
use tile_coords::{Plan, Word};
use tileset_json::Layout;
use walk_course::PlanWalk;

/// A place on the walk of a plan. It stays good for as long as it lives, and may be dropped.
pub type Cursor = plan_registry::Cursor<PlanWalk>;

/// A tileset that viewers look at, each in a thread of its own. Contracts see its layout, the files that its source
/// told, the host of its frames as it was at the start, and the name of its registry.
#[derive(Drop)]
pub struct Scene {
    pub(crate) walks: SceneWalks,
    pub(crate) registry: Registry<PlanWalk>,
    pub(crate) frames: Told<SceneHost>,
}

impl Model for Scene {
    ghost use Rattle.viewer_session.specs.Sessions.{SceneSeen, IsScene};

    ghost Value = { SceneSeen };

    ghost view = { λ s. record { tileset = s.walks.scene.value; frames = s.frames.value; registry = s.registry } };

    ghost invariant = { λ s. IsScene s.walks.scene.value s.walks.layout s.frames.value.tag };
}

impl Scene {
    /// The layout of the scene.
    pub fn layout(&self) -> &Layout
        ensures { result.now ≡ self.now.tileset.layout }
    {
        &self.walks.layout
    }

    /// A cursor on the walk of a plan that fits the layout. A plan that is there gives a new seat on its walk, and
    /// comes to the front of the registry. Else a new walk is put in front, and the last of 64 leaves; cursors on it
    /// stay good. An error is want of memory, and the registry is then as it was.
    pub fn attach(
        &self,
        rt: &impl Wait,
        pass: &mut ViewerPass,
        plan: Plan,
    ) -> Result<Cursor, AllocError>
        requires pass { IsPassOf self.now pass.old }
        requires plan { FitsLayout self.now.tileset.layout plan }
        ensures attached { IfOk result
            (λ cursor. HasAttached tag_of self.now.tileset plan pass.new.walks.last pass.new.walks.gave cursor) }
        ensures cursor { IfOk result (λ cursor. IsCursorOf self.now cursor × (cursor.plan ≡ plan)) }
        ensures memory { IfErr result
            (λ _. HasKept tag_of self.now.tileset pass.new.walks.last pass.new.walks.gave) }
        ensures walked { IfOk result (λ cursor. pass.new.walked ≡ pass.old.walked ++ Attached plan ∷ []) }
        ensures unwalked { IfErr result (λ _. pass.new.walked ≡ pass.old.walked) }
        ensures pass { IsPassOf self.now pass.new }
        ensures same { pass.new.frames ≡ pass.old.frames }
    {
        let cursor = self.seat_on(rt, pass, plan)?;
        pass.walked = Log::after(&pass.walked, &Walked::Attached(plan));
        Ok(cursor)
    }

    // The same, of which nothing is noted.
    pub(crate) fn seat_on(
        &self,
        rt: &impl Wait,
        pass: &mut ViewerPass,
        plan: Plan,
    ) -> Result<Cursor, AllocError>
        requires pass { IsPassOf self.now pass.old }
        requires plan { FitsLayout self.now.tileset.layout plan }
        ensures attached { IfOk result
            (λ cursor. HasAttached tag_of self.now.tileset plan pass.new.walks.last pass.new.walks.gave cursor) }
        ensures cursor { IfOk result (λ cursor. IsCursorOf self.now cursor × (cursor.plan ≡ plan)) }
        ensures memory { IfErr result
            (λ _. HasKept tag_of self.now.tileset pass.new.walks.last pass.new.walks.gave) }
        ensures pass { IsPassOf self.now pass.new }
        ensures same { (pass.new.frames ≡ pass.old.frames) × (pass.new.walked ≡ pass.old.walked) }
    {
        self.registry
            .attach(rt, self.walks.alloc, &mut pass.walks, plan, &self.walks)
    }

    /// The words of the walk from a place on, as far as `out` and the head that this call loads go; the rest of `out`
    /// stays as it was. It doesn't wait and takes no memory. The length, steps and end are that head's, and no nearer
    /// than what the cursor had seen; an end other than Partial is that of the answer.
    pub fn page(&self, cursor: &mut Cursor, from: usize, out: &mut [Word]) -> Page
        requires cursor { IsCursorOf self.now cursor.old }
        ensures head { cursor.new ≡ cursor_on cursor.old.plan (looked cursor.old.seat result.steps result.length
            result.end) }
        ensures near { NoFurther cursor.old.seat.steps cursor.old.seat.length cursor.old.seat.end result.steps
            result.length result.end }
        ensures course { IsHead (tag_in self.now cursor.old.plan) result.steps result.length result.end }
        ensures count { result.count ≡ min (length out.old) (result.length - from) }
        ensures words { (i : ℕ) → i < result.count
            → IsWordAt (tag_in self.now cursor.old.plan) (from + i) (slice_index out.new i) }
        ensures whole { IfSome self.now.tileset.told
            (λ all. IsWholeAt (scene_of all self.now.tileset.layout) cursor.old.plan.region result.length result.end) }
        ensures others { (i : ℕ) → result.count ≤ i → slice_index out.new i ≡ slice_index out.old i }
    {
        // The scheme is read so that the limits of the layout are known.
        let _scheme = self.walks.layout.scheme;
        cursor.page(from, out)
    }
}
