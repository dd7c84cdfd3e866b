// Tiles of a quadtree or an octree.
ghost use Rattle.std.specs.Prelude.{◌≡◌, ◌^◌, ◌<◌, ◌≤◌, ◌↔◌, IfSome, IsSome, IsNone};
ghost use Rattle.implicit_tiling.specs.Tile.{parent as parent_of, child as child_of, root as root_of, IsTile};

use implicit_tiling::Scheme;
use std::marker::Model;

/// A tile: its level, 0 to 31, and its coordinates, each below 2^level (OGC 22-025r4, tile coordinates).
/// In a quadtree `z` is 0.
#[derive(Clone, Copy, Debug, PartialEq, Eq, Hash)]
pub struct Tile {
    pub level: u32,
    pub x: u32,
    pub y: u32,
    pub z: u32,
}

impl Model for Tile {
    ghost use Rattle.std.specs.Prelude.{◌^◌, ◌<◌, ◌≤◌};
    ghost use Rattle.implicit_tiling.specs.Tile.{Tile as tile};

    ghost Value = { tile };

    ghost view = { λ t. record { level = t.level; x = t.x; y = t.y; z = t.z } };

    ghost invariant = { λ t. (t.level ≤ 31) × (t.x < 2 ^ t.level) × (t.y < 2 ^ t.level) × (t.z < 2 ^ t.level) };

    ghost inverse = { λ v. record { level = v.level; x = v.x; y = v.y; z = v.z } };
}

impl Tile {
    /// The root tile, of level 0.
    pub fn root() -> Tile
        ensures { result ≡ root_of }
    {
        Tile {
            level: 0,
            x: 0,
            y: 0,
            z: 0,
        }
    }

    /// The tile of a level and coordinates. None exactly where the level is above 31, a coordinate is 2^level or
    /// more, or a quadtree has a `z` other than 0.
    pub fn new(scheme: Scheme, level: u32, x: u32, y: u32, z: u32) -> Option<Tile>
        ensures tile { IfSome result (λ t. t ≡ record { level = level; x = x; y = y; z = z }) }
        ensures accepted { IsSome result
            ↔ ((level ≤ 31) × IsTile scheme (record { level = level; x = x; y = y; z = z })) }
    {
        if level > 31 {
            return None;
        }
        let end = 1u32 << level;
        if x >= end || y >= end || z >= end || (scheme == Scheme::Quad && z != 0) {
            return None;
        }
        Some(Tile { level, x, y, z })
    }

    /// The child of a number below 8: x goes by its lowest bit, y by the next, z by the third. In a quadtree the
    /// numbers are below 4.
    pub fn child(&self, number: u32) -> Tile
        requires { self.now.level < 31 }
        ensures { result ≡ child_of self.now number }
    {
        Tile {
            level: self.level + 1,
            x: 2 * self.x + number % 2,
            y: 2 * self.y + number / 2 % 2,
            z: 2 * self.z + number / 4 % 2,
        }
    }

    /// The tile that this one is a child of; None exactly at level 0.
    pub fn parent(&self) -> Option<Tile>
        ensures none { IsNone result ↔ (self.now.level ≡ 0) }
        ensures parent { IfSome result (λ t. t ≡ parent_of self.now) }
    {
        if self.level == 0 {
            return None;
        }
        Some(Tile {
            level: self.level - 1,
            x: self.x / 2,
            y: self.y / 2,
            z: self.z / 2,
        })
    }
}
