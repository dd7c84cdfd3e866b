//! Values that contracts alone see: a value told once, a value kept, a list that grows by one.
//! A token has no bytes and owns nothing, and any thread may have or share it. Code can't read what it says.
#![tactic(auto)]

mod kept;
mod log;
mod told;

pub use kept::Kept;
pub use log::Log;
pub use told::{Tells, Told};

#[cfg(test)]
mod tests;
