// A walk whose steps are published.
ghost use Rattle.std.specs.Prelude.{◌≡◌, ◌+◌, [], ◌∷◌, ◌++◌, true, false, length as list_length, IfOk};
ghost use Rattle.std.specs.Prelude.{IfErr, IsSomeAnd};
ghost use Rattle.tile_coords.specs.declared.walk_end.WalkEnd.TheVariants.{Partial};
ghost use Rattle.subtree_outcome.specs.Outcomes.{IsOutcomeOf};
ghost use Rattle.published_prefix.specs.Heads.{head};
ghost use Rattle.published_prefix.specs.Seats.{newcomer};
ghost use Rattle.plan_registry.specs.Registries.{cursor_on};
ghost use Rattle.walk_laws.specs.Plans.{FitsLayout};
ghost use Rattle.region_cursor.specs.Cursor.{cursor_key};
ghost use Rattle.walk_course.specs.Course.{IsHead, Fits};
ghost use Rattle.walk_course.specs.Spread.{most_words as most_words_of};

use crate::course::PlanWalk;
use crate::paused::{Paused, same_end};
use crate::room::most_words;
use crate::tag::WalkTag;
use contract_tokens::Tells;
use plan_registry::Cursor;
use published_prefix::{Prefix, PrefixSeat};
use std::alloc::{AllocError, Global};
use subtree_outcome::Outcome;
use tile_coords::{Plan, WalkEnd, Word};
use tileset_json::Layout;

/// The prefix of the walk of a plan that fits the layout, with room for each answer of its region and no word yet, and
/// its first seat. `J` tells the tag, which has this layout and region. Memory is the one error.
pub fn begin<J: Tells<WalkTag>>(
    alloc: Global,
    layout: &Layout,
    plan: Plan,
) -> Result<(Prefix<PlanWalk>, PrefixSeat<PlanWalk>), AllocError>
    requires fits { FitsLayout layout.now plan }
    requires tag { (J.told.layout ≡ layout.now) × (J.told.region ≡ plan.region) }
    ensures { IfOk result (λ begun. begun.1 ≡ newcomer begun.0 J.told (most_words_of plan.region)) }
{
    let walk = Paused::start(alloc, layout, plan)?;
    Prefix::<PlanWalk>::new::<J>(alloc, most_words(&plan.region), walk)
}

/// Publishes the next step of the walk that the cursor has taken, from what was read of the file of its next root. The
/// answer is the step's end, and `words` becomes its words. Memory is the one error; the walk is given back then as it
/// was.
pub fn publish_next(
    cursor: &mut Cursor<PlanWalk>,
    mut work: Paused,
    outcome: &Outcome,
    words: &mut Vec<Word>,
) -> Result<WalkEnd, AllocError>
    requires out { cursor.old.seat.has_work ≡ true }
    requires partial { cursor.old.seat.end ≡ Partial }
    requires course { IsHead cursor.old.seat.tag cursor.old.seat.steps cursor.old.seat.length Partial }
    requires fits { Fits cursor.old.seat.tag cursor.old.seat.steps cursor.old.seat.length Partial work }
    requires read { IsSomeAnd (cursor_key work.state)
        (λ root. IsOutcomeOf cursor.old.seat.tag.layout cursor.old.seat.tag.told root outcome.now) }
    ensures published { IfOk result (λ end. cursor.new ≡ cursor_on cursor.old.plan (record cursor.old.seat {
      steps = cursor.old.seat.steps + 1;
      length = cursor.old.seat.length + list_length words.new.items;
      end = end;
      heads = cursor.old.seat.heads ++ head cursor.old.seat.steps cursor.old.seat.length cursor.old.seat.end ∷ [];
      stores = cursor.old.seat.stores + 1;
      has_work = false;
    })) }
    ensures unmoved { IfErr result (λ e. cursor.new ≡ cursor_on cursor.old.plan (record cursor.old.seat
        { has_work = false })) }
    ensures same_words { IfErr result (λ e. words.new.items ≡ words.old.items) }
{
    match work.step(outcome, words) {
        Ok(end) => {
            cursor.publish(words.as_slice(), same_end(&end), work);
            Ok(end)
        }
        Err(error) => {
            cursor.give_back(work);
            Err(error)
        }
    }
}
