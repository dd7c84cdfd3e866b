// The roots of the child subtrees.
ghost use Rattle.std.specs.Prelude.{◌≡◌, ◌+◌, ◌++◌, ◌<◌, IfOk, IfErr};
ghost use Rattle.implicit_tiling.specs.Nodes.{child_words};
ghost use Rattle.region_scan.specs.Found.{Extends};

use crate::nodes::{first_at, is_looked_at, root_word};
use crate::search::next_child;
use availability::Subtree;
use std::alloc::AllocError;
use tile_coords::{Region, Word};

/// Appends the words, with mask 0, of the child roots in the region whose child bit is 1 and whose parent is there, in
/// key order (OGC 22-025r4, child subtree availability). There are none at the levels in all, nor below the region's
/// level. Memory is the one error; it leaves `out` as it was.
pub fn child_roots(
    subtree: &Subtree,
    region: &Region,
    out: &mut Vec<Word>,
) -> Result<(), AllocError>
    ensures appended { IfOk result (λ done. out.new.items ≡ out.old.items ++ child_words subtree.now region.now) }
    ensures unchanged { IfErr result (λ e. out.new.items ≡ out.old.items) }
{
    if !is_looked_at(subtree, subtree.levels, region) {
        return Ok(());
    }
    let begin = out.len();
    let result = append_roots(subtree, region, out);
    if result.is_err() {
        out.truncate(begin);
    }
    result
}

// The same at a level that is kept; an error leaves what was found before it.
fn append_roots(subtree: &Subtree, region: &Region, out: &mut Vec<Word>) -> Result<(), AllocError>
    requires kept { subtree.now.root.level + subtree.now.levels < subtree.now.cut }
    ensures appended { IfOk result (λ done. out.new.items ≡ out.old.items ++ child_words subtree.now region.now) }
    ensures begun { IfErr result (λ e. Extends out.old.items out.new.items) }
{
    let first = first_at(subtree, subtree.levels);
    let mut from = 0;
    while let Some(index) = next_child(subtree, first, region, from) {
        out.push(root_word(subtree, first, index))?;
        from = index + 1;
    }
    Ok(())
}
