//! The JSON part of a subtree file: its buffers, buffer views and availabilities, or the first of its faults.
//! `read` answers what the definition `record_of` states of the same bytes.
#![tactic(auto)]

mod fault;
mod lists;
mod members;
mod part;
mod reader;
mod record;

pub use fault::JsonFault;
pub use part::{Availability, BufferPart, ContentPart, ViewPart};
pub use reader::read;
pub use record::SubtreeRecord;
