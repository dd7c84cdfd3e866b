//! One connection of HTTP served: its requests are replied to in order, by viewers that are a trait. It knows no tiles,
//! no frames and no sockets. What is given is the talk that the definitions say of the bytes that were taken.
#![tactic(auto)]

mod answers;
mod desk;
mod giving;
mod next;
mod served;
mod serving;
mod viewers;

pub use answers::ViewersAnswer;
pub use desk::MOST_REPLIES;
pub use served::{Served, ServedEnd};
pub use serving::serve_connection;
pub use viewers::Viewers;
