//! A table of tile words that one seat at a time publishes, and that any seat reads without waiting. It has one slot,
//! in which the paused work lies that makes the next words. What a page gives is the beginning of the course which a
//! user states, up to the length of the head that the same call loaded.
//!
//! Every step is sequentially consistent, as all of `atomic_table`. One store and one load carry the promise:
//! `publish` stores the head after all that it tells of, and `page` loads the head before it loads anything else. So
//! the words below a loaded length, and the words of a fault that ends it, were stored before, and nobody stores them
//! again.
#![tactic(auto)]

mod course;
mod head;
mod prefix;
mod reading;
mod seat;
mod steps;
mod view;
mod writing;

pub use course::Course;
pub use head::{EndKind, Head};
pub use prefix::{Laid, MOST_WORDS, Page, Prefix};
pub use seat::{PrefixSeat, Seated};
pub use steps::{Opening, Published};
pub use view::{Half, Turn, View};
