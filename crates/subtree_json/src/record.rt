// The record of a subtree file.
use crate::part::{Availability, BufferPart, ContentPart, ViewPart};
use std::marker::Model;

/// What the JSON part of a subtree file states, as far as it is read: the lists in their order, each empty where its
/// member isn't there (subtree JSON format).
#[derive(Drop)]
pub struct SubtreeRecord {
    /// `buffers`.
    pub buffers: Vec<BufferPart>,
    /// `bufferViews`.
    pub views: Vec<ViewPart>,
    /// `tileAvailability`.
    pub tiles: Availability,
    /// `contentAvailability`.
    pub contents: Vec<ContentPart>,
    /// `childSubtreeAvailability`.
    pub child: Availability,
}

impl Model for SubtreeRecord {
    ghost use Rattle.std.specs.Prelude.{map};
    ghost use Rattle.implicit_tileset.specs.Record.{SubtreeRecord as subtree_record};
    ghost use Rattle.subtree_json.specs.Seen.{availability_seen, content_seen};

    ghost Value = { subtree_record };

    ghost view = { λ r. record {
      buffers = r.buffers.items;
      views = r.views.items;
      tiles = availability_seen r.tiles;
      contents = map content_seen r.contents.items;
      child = availability_seen r.child;
    } };
}
