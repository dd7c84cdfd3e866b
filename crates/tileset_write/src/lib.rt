//! Writing `tileset.json`: of the texts that state a layout one is written. It reads back as the layout.
#![tactic(auto)]

pub mod layout_laws;
mod tileset_text;

pub use tileset_text::layout_text;
