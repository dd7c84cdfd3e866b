// Generated tilesets.
ghost use Rattle.std.specs.Prelude.{◌≡◌, ◌<◌, ◌≤◌, ◌%◌, ◌^◌, ◌+◌, ◌++◌, IfOk};
ghost use Rattle.std.specs.List.{All};
ghost use Rattle.implicit_tiling.specs.Code.{word_mask};
ghost use Rattle.implicit_tiling.specs.Limits.{most_levels, most_contents};
ghost use Rattle.implicit_tiling.specs.Tile.{IsTile, ancestor as ancestor_of};
ghost use Rattle.tile_occupancy.specs.Generated.{AreGenerated, HasLines, generated_words, line_words};
ghost use Rattle.tile_occupancy.specs.Generated.{point as point_of, generated_mask};

use crate::occupancy::Occupancy;
use std::alloc::{AllocError, Global};
use tile_coords::{Scheme, Tile, Word};
use tile_word::word_of;

// The steps of the points along each axis.
const X_STEP: u64 = 40_503;

const Y_STEP: u64 = 30_011;

const Z_STEP: u64 = 20_011;

/// An occupancy for tests and times: `points` tiles of the last level, spread by `number`, and all their ancestors.
/// Content c stands on each tile whose level is a multiple of c + 1.
///
/// The scheme's limit holds for `levels`, from 1 on, and there are at most 16 contents. An error is want of memory: the
/// words of each point's ancestors are in memory at once, and are sorted once.
pub fn generate(
    alloc: Global,
    scheme: Scheme,
    levels: u32,
    contents: u32,
    points: u32,
    number: u32,
) -> Result<Occupancy, AllocError>
    requires some { 1 ≤ levels }
    requires within { levels ≤ most_levels scheme }
    requires contents { contents ≤ most_contents }
    ensures scheme { IfOk result (λ o. o.scheme ≡ scheme) }
    ensures levels { IfOk result (λ o. o.levels ≡ levels) }
    ensures words { IfOk result (λ o. AreGenerated scheme levels contents points number o.words) }
    ensures list { IfOk result (λ o. o.words ≡ generated_words scheme levels contents points number) }
    ensures masks { IfOk result (λ o. All (λ w. word_mask w < 2 ^ contents) o.words) }
{
    let mut words = all_lines(alloc, scheme, levels, contents, points, number)?;
    words.sort_unstable();
    words.dedup();
    Ok(Occupancy::of_whole(scheme, levels, words))
}

// The words of the points and their ancestors, some of them more than once.
fn all_lines(
    alloc: Global,
    scheme: Scheme,
    levels: u32,
    contents: u32,
    points: u32,
    number: u32,
) -> Result<Vec<Word>, AllocError>
    requires some { 1 ≤ levels }
    requires within { levels ≤ most_levels scheme }
    requires contents { contents ≤ most_contents }
    ensures { IfOk result (λ words. HasLines scheme levels contents points number words.items) }
{
    let mut words = Vec::new(alloc);
    for k in 0..points {
        append_line(
            scheme,
            contents,
            &point(scheme, levels, number, k),
            &mut words,
        )?;
    }
    Ok(words)
}

// Appends the words of a tile and all its ancestors.
fn append_line(
    scheme: Scheme,
    contents: u32,
    tile: &Tile,
    out: &mut Vec<Word>,
) -> Result<(), AllocError>
    requires contents { contents ≤ most_contents }
    requires within { tile.now.level < most_levels scheme }
    requires tile { IsTile scheme tile.now }
    ensures { IfOk result
        (λ done. out.new.items ≡ out.old.items ++ line_words scheme (tile.now.level + 1) contents tile.now) }
{
    for up in 0..tile.level + 1 {
        let above = ancestor(tile, up);
        out.push(word_of(scheme, &above, level_mask(contents, above.level)))?;
    }
    Ok(())
}

// The tile so many levels above.
fn ancestor(tile: &Tile, up: u32) -> Tile
    requires { up ≤ tile.now.level }
    ensures { result ≡ ancestor_of up tile.now }
{
    Tile {
        level: tile.level - up,
        x: tile.x >> up,
        y: tile.y >> up,
        z: tile.z >> up,
    }
}

// The k-th point.
fn point(scheme: Scheme, levels: u32, number: u32, k: u32) -> Tile
    requires some { 1 ≤ levels }
    requires within { levels ≤ most_levels scheme }
    ensures point { result ≡ point_of scheme levels number k }
    ensures is_tile { IsTile scheme result }
{
    let level = levels - 1;
    let start = u64::from(number);
    let step = u64::from(k);
    Tile {
        level,
        x: spread(level, start + X_STEP * step),
        y: spread(level, 3 * start + Y_STEP * step),
        z: scheme.depth(spread(level, 7 * start + Z_STEP * step)),
    }
}

// A number as a coordinate of a level: its remainder by 2^level.
fn spread(level: u32, number: u64) -> u32
    requires { level < 32 }
    ensures remainder { result ≡ number % 2 ^ level }
    ensures fits { result < 2 ^ level }
{
    (number % (1 << level)) as u32
}

// The mask of the contents that stand on the tiles of a level.
fn level_mask(contents: u32, level: u32) -> u16
    requires { contents ≤ most_contents }
    ensures { result ≡ generated_mask contents level }
{
    let mut mask = 0u32;
    for content in 0..contents {
        if level % (content + 1) == 0 {
            mask += 1 << content;
        }
    }
    mask as u16
}
