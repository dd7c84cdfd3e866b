//! Connections of HTTP: requests are read from an inlet by one buffer, whose memory is taken at the start. It knows no
//! tiles. What is read is exactly what the definitions say of the bytes that were taken, in whatever pieces they came.
#![tactic(auto)]

mod buffer;
mod decided;
mod given;
mod reading;

pub use buffer::HeadBuffer;
pub use decided::{Decided, decide};
pub use given::give_reply;
pub use reading::Reading;
