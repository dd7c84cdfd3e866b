// An inlet and an outlet that are one object.
ghost use Rattle.std.specs.Prelude.{◌≡◌, Some};

use crate::{Inlet, Outlet};

/// A connection: an inlet that is an outlet too, as a stream of TCP. What its one half tells of the other is what the
/// other tells, and both count the same faults. So a call that is lent the outlet of a link leaves its inlet as it was,
/// and a call that is lent the inlet its outlet.
pub trait Link: Inlet + Outlet {
    /// What was given, as the inlet tells it.
    ghost given_is: { (s : Self) → Self.given_aside s ≡ Self.given s };

    /// What is left and how many bytes were taken, as the outlet tells it.
    ghost inlet_is: { (s : Self) → Self.inlet_aside s ≡ Some (record { left = Self.left s; taken = Self.taken s }) };

    /// A fault of the one half is a fault of the other.
    ghost faults_are: { (s : Self) → Self.Inlet.faults s ≡ Self.Outlet.faults s };
}
