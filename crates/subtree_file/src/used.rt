// The availabilities of a record that are used.
ghost use Rattle.subtree_file.specs.Decoding.{DecodesList, used_in};

use crate::fault::DecodeFault;
use availability::nodes_above;
use std::alloc::Global;
use std::marker::Model;
use subtree_json::{Availability, ContentPart, JsonFault, SubtreeRecord};
use tile_word::nodes_at;
use tileset_json::Layout;

// An availability that is used, and how many bits of it are needed.
#[derive(Drop)]
pub(crate) struct Used {
    pub availability: Availability,
    pub needed: u64,
}

impl Model for Used {
    ghost use Rattle.implicit_tileset.specs.SubtreeFile.{Used as used};
    ghost use Rattle.subtree_json.specs.Seen.{availability_seen};

    ghost Value = { used };

    ghost view = { λ u. record { availability = availability_seen u.availability; needed = u.needed } };
}

// All that are used: of tiles, of as many contents as there are templates, as far as there are availabilities, and of
// child subtrees. A malformed content past those isn't looked at.
pub(crate) fn used_of(
    alloc: Global,
    layout: &Layout,
    parts: &SubtreeRecord,
) -> Result<Vec<Used>, DecodeFault>
    ensures { DecodesList (used_in layout.now parts.now) result }
{
    let nodes = nodes_above(layout.scheme, layout.subtree_levels);
    let contents = layout.contents.len().min(parts.contents.len());
    let mut used = Vec::with_capacity(alloc, contents + 2)?;
    used.push(Used {
        availability: parts.tiles,
        needed: nodes,
    })?;
    for part in &parts.contents[..contents] {
        match part {
            ContentPart::Good(availability) => used.push(Used {
                availability: *availability,
                needed: nodes,
            })?,
            ContentPart::Malformed => return Err(DecodeFault::from(JsonFault::BadAvailability)),
        }
    }
    used.push(Used {
        availability: parts.child,
        needed: nodes_at(layout.scheme, layout.subtree_levels),
    })?;
    Ok(used)
}
