// Decoded subtrees.
ghost use Rattle.std.specs.Prelude.{◌≡◌, ◌^◌, ◌<◌, ◌≤◌, MatchOption};
ghost use Rattle.implicit_tiling.specs.Tile.{branching};
ghost use Rattle.implicit_tiling.specs.Subtree.{is_kept as is_kept_of, has_tile, has_child, contents_mask};
ghost use Rattle.implicit_tiling.specs.Subtree.{has_orphan as has_orphan_of};
ghost use Rattle.implicit_tiling.specs.Subtree.{has_content_alone as has_content_alone_of};
ghost use Rattle.bitstream.specs.Bits.{HasNoOne, IsFirstOne};
ghost use Rattle.availability.specs.Rules.{rule_fault, IsKeptCount};

use crate::nodes::nodes_above;
use crate::rules::{has_orphan_at, mask_at};
use bitstream::Bits;
use std::marker::Model;
use tile_coords::{Scheme, Tile};
use tile_word::nodes_at;

/// A decoded subtree: the bits that its file names for its nodes, their contents and its child subtrees
/// (OGC 22-025r4, implicit tiling: subtrees). Bits at levels from the levels in all on count as 0.
#[derive(Drop)]
pub struct Subtree {
    pub scheme: Scheme,
    /// The levels of the subtree, at least 1.
    pub levels: u32,
    /// The levels in all, above the root's level.
    pub cut: u32,
    /// The tile that the subtree begins with.
    pub root: Tile,
    /// A bit for each node.
    pub tiles: Bits,
    /// A bit for each node, for each content.
    pub contents: Vec<Bits>,
    /// A bit for each child subtree below the last level.
    pub child: Bits,
}

impl Model for Subtree {
    ghost use Rattle.implicit_tiling.specs.Subtree.{Subtree as subtree, IsSubtree};

    ghost Value = { subtree };

    ghost view = { λ s. record {
      scheme = s.scheme;
      levels = s.levels;
      cut = s.cut;
      root = s.root;
      tiles = s.tiles;
      contents = s.contents.items;
      child = s.child;
    } };

    ghost invariant = { λ s. IsSubtree
        (record {
          scheme = s.scheme;
          levels = s.levels;
          cut = s.cut;
          root = s.root;
          tiles = s.tiles;
          contents =
              s.contents.items;
          child = s.child;
        }) };
}

/// Which rule the bits of a subtree break.
#[derive(Clone, Copy, Debug, PartialEq, Eq)]
pub enum RuleFault {
    /// A node below the local root has bit 1, and its parent bit 0.
    ParentMissing,
    /// A node has a content with bit 1, and its tile bit 0.
    ContentWithoutTile,
}

impl Subtree {
    /// Whether the node of a local level and an index within that level is there (OGC 22-025r4, tile availability).
    pub fn tile_at(&self, local: u32, index: u64) -> bool
        requires local { local < self.now.levels }
        requires index { index < branching self.now.scheme ^ local }
        ensures { result ≡ has_tile self.now local index }
    {
        self.is_kept(local) && self.tiles.get(nodes_above(self.scheme, local) + index)
    }

    /// The least index from `from` on of a node of a local level that is there. None exactly where there is none.
    pub fn next_tile(&self, local: u32, from: u64) -> Option<u64>
        requires local { local < self.now.levels }
        requires from { from ≤ branching self.now.scheme ^ local }
        ensures { MatchOption result (HasNoOne (has_tile self.now local) from (branching self.now.scheme ^ local))
            (IsFirstOne (has_tile self.now local) from (branching self.now.scheme ^ local)) }
    {
        if !self.is_kept(local) {
            return None;
        }
        let above = nodes_above(self.scheme, local);
        let end = above + nodes_at(self.scheme, local);
        let place = self.tiles.next_one(above + from, end)?;
        Some(place - above)
    }

    /// The contents of that node: bit c for content c (OGC 22-025r4, content availability).
    pub fn contents_at(&self, local: u32, index: u64) -> u16
        requires local { local < self.now.levels }
        requires index { index < branching self.now.scheme ^ local }
        ensures { result ≡ contents_mask self.now local index }
    {
        if !self.is_kept(local) {
            return 0;
        }
        mask_at(&self.contents, nodes_above(self.scheme, local) + index)
    }

    /// Whether there is a child subtree whose root has this index in the level below the last local one
    /// (OGC 22-025r4, child subtree availability).
    pub fn child_at(&self, index: u64) -> bool
        requires { index < branching self.now.scheme ^ self.now.levels }
        ensures { result ≡ has_child self.now index }
    {
        self.is_kept(self.levels) && self.child.get(index)
    }

    /// The least index from `from` on of a child subtree. None exactly where there is none.
    pub fn next_child(&self, from: u64) -> Option<u64>
        requires { from ≤ branching self.now.scheme ^ self.now.levels }
        ensures { MatchOption result (HasNoOne (has_child self.now) from
            (branching self.now.scheme ^ self.now.levels)) (IsFirstOne (has_child self.now) from
            (branching self.now.scheme ^ self.now.levels)) }
    {
        if !self.is_kept(self.levels) {
            return None;
        }
        self.child
            .next_one(from, nodes_at(self.scheme, self.levels))
    }

    /// Which rule the bits break first, if any: ParentMissing exactly where a node below the local root is there and
    /// its parent isn't; else ContentWithoutTile exactly where a node has a content and isn't there.
    pub fn check(&self) -> Result<(), RuleFault>
        ensures { result ≡ rule_fault self.now }
    {
        if self.has_orphan() {
            return Err(RuleFault::ParentMissing);
        }
        if self.has_content_alone() {
            return Err(RuleFault::ContentWithoutTile);
        }
        Ok(())
    }

    // Whether a local level is below the levels in all.
    fn is_kept(&self, local: u32) -> bool
        requires { local ≤ self.now.levels }
        ensures { result ≡ is_kept_of self.now local }
    {
        self.root.level + local < self.cut
    }

    // How many local levels are below the levels in all.
    fn kept_levels(&self) -> u32
        ensures { IsKeptCount self.now result }
    {
        self.levels.min(self.cut - self.root.level)
    }

    // Where all nodes are there, as those of a constant 1, no parent is looked at.
    fn has_orphan(&self) -> bool
        ensures { result ≡ has_orphan_of self.now }
    {
        let kept = self.kept_levels();
        let nodes = nodes_above(self.scheme, kept);
        if self.tiles.ones(nodes) == nodes {
            return false;
        }
        for local in 1..kept {
            if has_orphan_at(self.scheme, &self.tiles, local) {
                return true;
            }
        }
        false
    }

    fn has_content_alone(&self) -> bool
        ensures { result ≡ has_content_alone_of self.now }
    {
        let kept = nodes_above(self.scheme, self.kept_levels());
        for bits in &self.contents {
            if !bits.is_within(&self.tiles, kept) {
                return true;
            }
        }
        false
    }
}
