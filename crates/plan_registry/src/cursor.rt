// A place on the walk of a plan.
ghost use Rattle.std.specs.Prelude.{◌≡◌, IfOk};
ghost use Rattle.published_prefix.specs.Seats.{informed};
ghost use Rattle.plan_registry.specs.Registries.{cursor_on};

use published_prefix::{Course, Prefix, PrefixSeat};
use std::alloc::{AllocError, Global};
use std::marker::Model;
use std::sync::Arc;
use tile_coords::Plan;

/// A seat of its own on the walk of a plan, which it keeps for as long as it lives. It may go to any thread, and may be
/// dropped. Contracts see the plan and the seat.
#[derive(Drop)]
pub struct Cursor<C: Course> {
    pub(crate) plan: Plan,
    pub(crate) prefix: Arc<Prefix<C>, Global>,
    pub(crate) seat: PrefixSeat<C>,
}

impl<C: Course> Model for Cursor<C> {
    ghost use Rattle.std.specs.Prelude.{◌≡◌};
    ghost use Rattle.std.specs.Arc.{arc_value};
    ghost use Rattle.plan_registry.specs.Registries.{CursorSeen, cursor_on};

    ghost Value = { CursorSeen C.Tag };

    ghost view = { λ c. cursor_on c.plan c.seat };

    ghost invariant = { λ c. c.seat.table ≡ arc_value c.prefix };
}

impl<C: Course> Cursor<C> {
    /// A cursor with the first seat of a walk. An error is want of memory.
    pub fn new(
        alloc: Global,
        plan: Plan,
        prefix: Prefix<C>,
        seat: PrefixSeat<C>,
    ) -> Result<Cursor<C>, AllocError>
        requires { seat.table ≡ prefix }
        ensures { IfOk result (λ c. c ≡ cursor_on plan seat) }
    {
        let prefix = Arc::new(alloc, prefix)?;
        Ok(Cursor { plan, prefix, seat })
    }

    /// A new seat on the same walk, which has seen what this one has. No memory is taken. An error comes only where
    /// the walk has as many owners as can be counted.
    pub fn another(&mut self) -> Result<Cursor<C>, AllocError>
        ensures same { self.new ≡ self.old }
        ensures cursor { IfOk result (λ c. c ≡ cursor_on self.old.plan (informed self.old.seat)) }
    {
        let prefix = Arc::try_clone(&self.prefix)?;
        let seat = self.prefix.split(&mut self.seat);
        Ok(Cursor {
            plan: self.plan,
            prefix,
            seat,
        })
    }

    /// The plan whose walk it is on.
    pub fn plan(&self) -> Plan
        ensures { result ≡ self.now.plan }
    {
        self.plan
    }
}
