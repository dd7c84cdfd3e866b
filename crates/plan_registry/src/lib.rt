//! The walks of the plans that were asked for last, each made once for all who ask for it, behind a turn. Who attaches
//! to a plan has a cursor of its own, which stays good after the plan has left.
//!
//! The turn is had for a look-up and a move to the front. A walk is made outside of it; under it no memory is taken but
//! that of the one node in which a new walk stands.
#![tactic(auto)]

mod cursor;
mod looked;
mod planned;
mod registry;
mod rule;
mod walking;
mod walks;

pub use cursor::Cursor;
pub use planned::{Planned, Starts};
pub use registry::{Registry, RegistrySeat};
pub use rule::{MOST_PLANS, Walks};
