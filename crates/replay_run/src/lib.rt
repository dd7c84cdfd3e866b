//! Whole scripts: a list of events run one after another, and the lines of an input played over a source of files, with
//! the text of each reply. What is replied is what the machine of a replay replies, whatever the passes do in turn.
#![tactic(auto)]

mod playing;
mod running;

pub use playing::play;
pub use running::run;
