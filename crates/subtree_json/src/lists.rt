// The lists of a record.
ghost use Rattle.std.specs.Prelude.{◌≡◌, Option, option_map, IfOk, map};
ghost use Rattle.serde_json.specs.Data.{Data};
ghost use Rattle.serde_json.specs.View.{view};
ghost use Rattle.implicit_tileset.specs.Record.{list_read, content_of as stated_content};
ghost use Rattle.subtree_json.specs.Seen.{content_seen};

use crate::members::content_of;
use crate::part::ContentPart;
use serde_json::Value;
use std::alloc::{AllocError, Global};

// What stands in a list that is faulty where one of its members is.
pub(crate) trait ListedPart: Drop {
    // What a member of the list states, if it states something.
    ghost stated: { Data → Option Self };

    fn of_member(alloc: Global, member: &Value) -> Result<Option<Self>, AllocError>
        ensures { IfOk result (λ part. part ≡ stated (view member.now)) };
}

// The parts of a list, which may be absent; None where it is another value, or a member is faulty.
pub(crate) fn read_list<T: ListedPart>(
    alloc: Global,
    list: Option<&Value>,
) -> Result<Option<Vec<T>>, AllocError>
    ensures { IfOk result (λ parts. option_map (λ v. v.items) parts ≡ list_read T.stated (option_map
        (λ v. view v.now) list.entry)) }
{
    let Some(list) = list else {
        return Ok(Some(Vec::new(alloc)));
    };
    let Some(list) = list.as_array() else {
        return Ok(None);
    };
    let mut parts = Vec::with_capacity(alloc, list.len())?;
    for member in list {
        let found = T::of_member(alloc, member)?;
        let Some(part) = found else {
            return Ok(None);
        };
        parts.push(part)?;
    }
    Ok(Some(parts))
}

// The content parts of a list, which may be absent; None where it is another value. A malformed one is no fault of it.
pub(crate) fn read_contents(
    alloc: Global,
    list: Option<&Value>,
) -> Result<Option<Vec<ContentPart>>, AllocError>
    ensures { IfOk result (λ parts. option_map (λ v. map content_seen v.items) parts
        ≡ list_read stated_content (option_map (λ v. view v.now) list.entry)) }
{
    let Some(list) = list else {
        return Ok(Some(Vec::new(alloc)));
    };
    let Some(list) = list.as_array() else {
        return Ok(None);
    };
    let mut parts = Vec::with_capacity(alloc, list.len())?;
    for member in list {
        parts.push(content_of(member))?;
    }
    Ok(Some(parts))
}
