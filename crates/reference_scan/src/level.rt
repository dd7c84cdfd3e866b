// The tiles of one local level, node by node.
ghost use Rattle.std.specs.Prelude.{◌≡◌, ◌+◌, ◌++◌, ◌<◌, IfOk, IfErr, take, length, nat_lt};
ghost use Rattle.implicit_tiling.specs.Nodes.{level_words};
ghost use Rattle.region_scan.specs.Found.{Extends};

use crate::nodes::tile_in;
use availability::Subtree;
use std::alloc::AllocError;
use tile_coords::{Region, Word};
use tile_word::nodes_at;

/// Appends the words of the first `limit` tiles of a local level, below the subtree's `levels`, that are in the region,
/// in key order, and answers whether there are more (OGC 22-025r4, tile availability). Levels from the levels in all on
/// have no tiles, and a region has none below its level. Memory is the one error; it leaves `out` as it was.
pub fn level_tiles_plain(
    subtree: &Subtree,
    local: u32,
    region: &Region,
    limit: usize,
    out: &mut Vec<Word>,
) -> Result<bool, AllocError>
    requires { local < subtree.now.levels }
    ensures appended { IfOk result
        (λ more. out.new.items ≡ out.old.items ++ take limit (level_words subtree.now region.now local)) }
    ensures more { IfOk result (λ more. more ≡ nat_lt limit (length (level_words subtree.now region.now local))) }
    ensures unchanged { IfErr result (λ e. out.new.items ≡ out.old.items) }
{
    let begin = out.len();
    let result = append_tiles(subtree, local, region, limit, out);
    if result.is_err() {
        out.truncate(begin);
    }
    result
}

// The same; an error leaves what was found before it.
fn append_tiles(
    subtree: &Subtree,
    local: u32,
    region: &Region,
    limit: usize,
    out: &mut Vec<Word>,
) -> Result<bool, AllocError>
    requires { local < subtree.now.levels }
    ensures appended { IfOk result
        (λ more. out.new.items ≡ out.old.items ++ take limit (level_words subtree.now region.now local)) }
    ensures more { IfOk result (λ more. more ≡ nat_lt limit (length (level_words subtree.now region.now local))) }
    ensures begun { IfErr result (λ e. Extends out.old.items out.new.items) }
{
    let mut left = limit;
    for index in 0..nodes_at(subtree.scheme, local) {
        if let Some(word) = tile_in(subtree, local, region, index) {
            if left == 0 {
                return Ok(true);
            }
            out.push(word)?;
            left -= 1;
        }
    }
    Ok(false)
}
