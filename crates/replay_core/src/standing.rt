// Where a pass stands.
ghost use Rattle.std.specs.Prelude.{◌≡◌, List, true, false, IfSome, IfNone};
ghost use Rattle.implicit_tiling.specs.Scene.{Scene};
ghost use Rattle.replay_machine.specs.Machine.{Walk, standing};
ghost use Rattle.replay_core.specs.Core.{machine_of, AreShown};
ghost use Rattle.replay_core.specs.Events.{StandsAs, HasWork, HasRest, HasCursor, IsFree};
ghost use Rattle.replay_core.specs.Events.{HasNoWork, HasNoRest, HasNoCursor, IsNotFree};

use crate::state::Core;
use replay_machine::Pass;

// Where a pass stands.
#[derive(Clone, Copy, Debug, PartialEq, Eq)]
pub(crate) enum Standing {
    // There is no pass of its number.
    Absent,
    // It has no cursor.
    Idle(Pass),
    // It has the cursor of this number, and doesn't hold its work.
    Reads(Pass, u32),
    // It holds the work of the cursor of this number.
    Works(Pass, u32),
}

fn standing_of(core: &Core, number: u32) -> Standing
    ensures { StandsAs core.now number result }
{
    let Some(pass) = core.passes.get(number) else {
        return Standing::Absent;
    };
    let Some(at) = pass.cursor else {
        return Standing::Idle(pass);
    };
    match core.cursors.get(at) {
        None => Standing::Idle(pass),
        Some(cursor) => match cursor.holder {
            Some(holder) => {
                if holder == number {
                    Standing::Works(pass, at)
                } else {
                    Standing::Reads(pass, at)
                }
            }
            None => Standing::Reads(pass, at),
        },
    }
}

/// The pass and the number of its cursor, where it holds the cursor's work.
pub(crate) fn working(core: &Core, number: u32) -> Option<(Pass, u32)>
    ensures some { IfSome result (λ found. HasWork core.now number found.0 found.1) }
    ensures none { IfNone result ((s : Scene) (walks : List Walk) → AreShown s walks core.now.cursors
        → HasNoWork (standing (machine_of core.now walks) number)) }
{
    match standing_of(core, number) {
        Standing::Works(pass, at) => Some((pass, at)),
        Standing::Reads(_, _) => None,
        Standing::Idle(_) => None,
        Standing::Absent => None,
    }
}

/// The pass and the number of its cursor, where it doesn't hold the cursor's work.
pub(crate) fn resting(core: &Core, number: u32) -> Option<(Pass, u32)>
    ensures some { IfSome result (λ found. HasRest core.now number found.0 found.1) }
    ensures none { IfNone result ((s : Scene) (walks : List Walk) → AreShown s walks core.now.cursors
        → HasNoRest (standing (machine_of core.now walks) number)) }
{
    match standing_of(core, number) {
        Standing::Reads(pass, at) => Some((pass, at)),
        Standing::Works(_, _) => None,
        Standing::Idle(_) => None,
        Standing::Absent => None,
    }
}

/// The pass and the number of its cursor.
pub(crate) fn attached(core: &Core, number: u32) -> Option<(Pass, u32)>
    ensures some { IfSome result (λ found. HasCursor core.now number found.0 found.1) }
    ensures none { IfNone result ((s : Scene) (walks : List Walk) → AreShown s walks core.now.cursors
        → HasNoCursor (standing (machine_of core.now walks) number)) }
{
    match standing_of(core, number) {
        Standing::Reads(pass, at) => Some((pass, at)),
        Standing::Works(pass, at) => Some((pass, at)),
        Standing::Idle(_) => None,
        Standing::Absent => None,
    }
}

/// Whether there is such a pass, and it holds no work.
pub(crate) fn is_free(core: &Core, number: u32) -> bool
    ensures free { result ≡ true → IsFree core.now number }
    ensures taken { result ≡ false → (s : Scene) (walks : List Walk) → AreShown s walks core.now.cursors
        → IsNotFree (standing (machine_of core.now walks) number) }
{
    match standing_of(core, number) {
        Standing::Idle(_) => true,
        Standing::Reads(_, _) => true,
        Standing::Works(_, _) => false,
        Standing::Absent => false,
    }
}
