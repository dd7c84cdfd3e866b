//! The paused walk of a plan as a course of published words: which word stands at each place, which steps, words and
//! ends go together, and which walk goes on from there. Where the files are told, the words are those of the answer and
//! each publication is the next step of the walk; where they are not, words and faults are those of tiles of the layout.
//! The steps are counted: no walk makes as many as a head has room for.
#![tactic(auto)]

mod course;
mod paused;
mod planned;
mod publish;
mod room;
mod tag;

pub use course::PlanWalk;
pub use paused::Paused;
pub use planned::WalkScene;
pub use publish::{begin, publish_next};
pub use room::most_words;
pub use tag::WalkTag;
