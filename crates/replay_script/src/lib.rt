//! The replay script: what each line of an input asks of viewers that share frames, and the text of each reply. A line
//! is read to exactly one event, and a reply is given as exactly one text. The crate knows no walk, no frames and no
//! files.
#![tactic(auto)]

mod event;
mod reading;
mod reply;
mod reply_text;

pub use event::Event;
pub use reading::{MOST_PAGE, next_event, read_event};
pub use reply::Reply;
pub use reply_text::write_reply;
