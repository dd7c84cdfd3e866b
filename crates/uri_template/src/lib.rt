//! URI templates: texts in which `{level}`, `{x}`, `{y}` and, in octrees, `{z}` stand for a tile's numbers
//! (OGC 22-025r4, implicit tiling: template URIs). A template was tested once; filling it searches bytes, copies runs
//! and takes memory only where the text that it appends to has no room.
#![tactic(auto)]

mod filling;
mod length;
mod template;

pub use template::{MOST_BYTES, Template, TemplateFault};
