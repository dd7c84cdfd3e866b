// The room that the words of a walk need.
ghost use Rattle.std.specs.Prelude.{◌≡◌, ◌+◌, ◌-◌, ◌*◌, ◌/◌, ◌^◌, ◌≤◌, slice_index};
ghost use Rattle.walk_course.specs.Spread.{width as width_of, places_at as places_at_of, places_above};
ghost use Rattle.walk_course.specs.Spread.{most_words as most_words_of};

use published_prefix::MOST_WORDS;
use tile_coords::Region;

/// The most words that a walk of the region has: one for each place of a tile in its box and above it, up to 65,536
/// (this project's own).
pub fn most_words(region: &Region) -> usize
    ensures { result ≡ most_words_of region.now }
{
    let mut places = 0u128;
    for above in 0..region.level + 1 {
        places += places_at(region, above);
    }
    if places < MOST_WORDS as u128 {
        places as usize
    } else {
        MOST_WORDS
    }
}

// How many places there are k levels above the region's level.
fn places_at(region: &Region, above: u32) -> u128
    requires { above ≤ 31 }
    ensures places { result ≡ places_at_of region.now above }
    ensures few { result ≤ 2 ^ 96 }
{
    let area = width(region, 1, above) * width(region, 0, above);
    width(region, 2, above) * area
}

// How many coordinates of an axis the box has there.
fn width(region: &Region, axis: usize, above: u32) -> u128
    requires axis { axis ≤ 2 }
    requires above { above ≤ 31 }
    ensures width { result ≡ width_of region.now axis above }
    ensures few { result ≤ 2 ^ 32 }
{
    let low = region.lo[axis] >> above;
    let end = u128::from(region.hi[axis] >> above) + 1;
    end.saturating_sub(u128::from(low))
}
