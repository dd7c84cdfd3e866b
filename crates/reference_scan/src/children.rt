// The roots of the child subtrees, node by node.
ghost use Rattle.std.specs.Prelude.{◌≡◌, ◌++◌, IfOk, IfErr};
ghost use Rattle.implicit_tiling.specs.Nodes.{child_words};
ghost use Rattle.region_scan.specs.Found.{Extends};

use crate::nodes::child_in;
use availability::Subtree;
use std::alloc::AllocError;
use tile_coords::{Region, Word};
use tile_word::nodes_at;

/// Appends the words, with mask 0, of the child roots in the region whose child bit is 1 and whose parent is there, in
/// key order (OGC 22-025r4, child subtree availability). There are none at the levels in all, nor below the region's
/// level. Memory is the one error; it leaves `out` as it was.
pub fn child_roots_plain(
    subtree: &Subtree,
    region: &Region,
    out: &mut Vec<Word>,
) -> Result<(), AllocError>
    ensures appended { IfOk result (λ done. out.new.items ≡ out.old.items ++ child_words subtree.now region.now) }
    ensures unchanged { IfErr result (λ e. out.new.items ≡ out.old.items) }
{
    let begin = out.len();
    let result = append_roots(subtree, region, out);
    if result.is_err() {
        out.truncate(begin);
    }
    result
}

// The same; an error leaves what was found before it.
fn append_roots(subtree: &Subtree, region: &Region, out: &mut Vec<Word>) -> Result<(), AllocError>
    ensures appended { IfOk result (λ done. out.new.items ≡ out.old.items ++ child_words subtree.now region.now) }
    ensures begun { IfErr result (λ e. Extends out.old.items out.new.items) }
{
    for index in 0..nodes_at(subtree.scheme, subtree.levels) {
        if let Some(word) = child_in(subtree, region, index) {
            out.push(word)?;
        }
    }
    Ok(())
}
