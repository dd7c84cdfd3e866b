//! Viewers of a scene: who answers the requests of connections on `/tiles` and `/prefix`, with a pass of the scene and a
//! source of its own. It knows no connection; what it may answer is one relation.
#![tactic(auto)]

mod fronts;
mod scene_viewers;

pub use scene_viewers::SceneViewers;
