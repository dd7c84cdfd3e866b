// Regions: boxes of tile coordinates.
ghost use Rattle.std.specs.Prelude.{◌≡◌, ◌≤◌, slice_index};
ghost use Rattle.implicit_tiling.specs.Tile.{depth_of};
ghost use Rattle.implicit_tiling.specs.Region.{is_in, region_of, is_within as within};
ghost use Rattle.tile_coords.specs.Refusals.{with_fault_number};

use crate::tile::Tile;
use implicit_tiling::Scheme;
use std::marker::Model;

/// A level, 0 to 31, and an inclusive box of coordinates at that level (this project's own). The places are x, y
/// and z; in a quadtree the third ones are 0.
#[derive(Clone, Copy, Debug, PartialEq, Eq, Hash)]
pub struct Region {
    pub level: u32,
    pub lo: [u32; 3],
    pub hi: [u32; 3],
}

impl Model for Region {
    ghost use Rattle.std.specs.Prelude.{◌≤◌};
    ghost use Rattle.implicit_tiling.specs.Region.{Region as region};

    ghost Value = { region };

    ghost view = { λ r. record { level = r.level; lo = r.lo; hi = r.hi } };

    ghost invariant = { λ r. r.level ≤ 31 };

    ghost inverse = { λ v. record { level = v.level; lo = v.lo; hi = v.hi } };
}

/// Why there is no such region.
#[derive(Clone, Copy, Debug, PartialEq, Eq)]
pub enum RegionFault {
    /// The level isn't below the number of levels.
    LevelHigh,
    /// A low coordinate is above its high partner.
    BoxOrder,
    /// A high coordinate is 2^level or more.
    BoxOut,
}

impl Region {
    /// The region of a level below `levels` and a box within that level. The fault is the first that holds, in the
    /// order of `RegionFault`.
    pub fn new(
        scheme: Scheme,
        levels: u32,
        level: u32,
        lo: [u32; 3],
        hi: [u32; 3],
    ) -> Result<Region, RegionFault>
        requires levels { levels ≤ 32 }
        requires flat { (slice_index lo 2 ≡ depth_of scheme (slice_index lo 2))
            × (slice_index hi 2 ≡ depth_of scheme (slice_index hi 2)) }
        ensures { with_fault_number result ≡ region_of levels level lo hi }
    {
        let _ = scheme;
        if level >= levels {
            return Err(RegionFault::LevelHigh);
        }
        if lo[0] > hi[0] || lo[1] > hi[1] || lo[2] > hi[2] {
            return Err(RegionFault::BoxOrder);
        }
        let end = 1u32 << level;
        if hi[0] >= end || hi[1] >= end || hi[2] >= end {
            return Err(RegionFault::BoxOut);
        }
        Ok(Region { level, lo, hi })
    }

    /// Whether the tile is in the region: its level is at most the region's, and each of its coordinates lies between
    /// those of the box's corners, divided by 2 for each level that the tile stands above the region's.
    pub fn meets(&self, tile: &Tile) -> bool
        ensures { result ≡ is_in self.now tile.now }
    {
        if tile.level > self.level {
            return false;
        }
        let up = self.level - tile.level;
        is_within(up, self.lo[0], self.hi[0], tile.x)
            && is_within(up, self.lo[1], self.hi[1], tile.y)
            && is_within(up, self.lo[2], self.hi[2], tile.z)
    }
}

fn is_within(up: u32, lo: u32, hi: u32, coordinate: u32) -> bool
    requires { up ≤ 31 }
    ensures { result ≡ within up lo hi coordinate }
{
    lo >> up <= coordinate && coordinate <= hi >> up
}
