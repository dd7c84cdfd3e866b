// One member of a list each, and availability objects.
ghost use Rattle.std.specs.Prelude.{◌≡◌, IfOk, Option, option_and_then, option_map, string_bytes};
ghost use Rattle.serde_json.specs.View.{view};
ghost use Rattle.implicit_tileset.specs.Record.{buffer_of as stated_buffer, uri_from};
ghost use Rattle.implicit_tileset.specs.Record.{view_of as stated_view};
ghost use Rattle.implicit_tileset.specs.Record.{availability_of as stated_availability, availability_at as stated_at};
ghost use Rattle.implicit_tileset.specs.Record.{content_of as stated_content, constant_named, number_in, stream_from};
ghost use Rattle.subtree_json.specs.Seen.{availability_seen, content_seen};

use crate::lists::ListedPart;
use crate::part::{Availability, BufferPart, ContentPart, ViewPart};
use implicit_tileset::number_at;
use serde_json::Value;
use std::alloc::{AllocError, Global};

// A member of `buffers`.
impl ListedPart for BufferPart {
    ghost stated = { stated_buffer };

    fn of_member(alloc: Global, member: &Value) -> Result<Option<BufferPart>, AllocError> {
        let Some(length) = number_at(member, "byteLength") else {
            return Ok(None);
        };
        let uri = uri_of(alloc, member.get("uri"))?;
        match uri {
            Some(uri) => Ok(Some(BufferPart { length, uri })),
            None => Ok(None),
        }
    }
}

// The text of a `uri`, which may be absent; None where it is another value.
fn uri_of(alloc: Global, value: Option<&Value>) -> Result<Option<Option<String>>, AllocError>
    ensures { IfOk result (λ uri. option_map (option_map string_bytes) uri ≡ uri_from (option_map
        (λ v. view v.now) value.entry)) }
{
    let Some(value) = value else {
        return Ok(Some(None));
    };
    let Some(text) = value.as_str() else {
        return Ok(None);
    };
    let uri = String::from_str(alloc, text)?;
    Ok(Some(Some(uri)))
}

// A member of `bufferViews`.
impl ListedPart for ViewPart {
    ghost stated = { stated_view };

    fn of_member(_: Global, member: &Value) -> Result<Option<ViewPart>, AllocError> {
        Ok(view_of(member))
    }
}

fn view_of(member: &Value) -> Option<ViewPart>
    ensures { result ≡ stated_view (view member.now) }
{
    let buffer = number_at(member, "buffer")?;
    let offset = number_at(member, "byteOffset")?;
    let length = number_at(member, "byteLength")?;
    Some(ViewPart {
        buffer,
        offset,
        length,
    })
}

// The content part that a member of `contentAvailability` is.
pub(crate) fn content_of(value: &Value) -> ContentPart
    ensures { Some (content_seen result) ≡ stated_content (view value.now) }
{
    match availability_of(value) {
        Some(availability) => ContentPart::Good(availability),
        None => ContentPart::Malformed,
    }
}

// The availability of a member that has to be there.
pub(crate) fn availability_at(value: &Value, name: &str) -> Option<Availability>
    ensures { option_map availability_seen result ≡ stated_at name.now (view value.now) }
{
    let member = value.get(name)?;
    availability_of(member)
}

// The availability that an object states by exactly one of `constant` and `bitstream`.
fn availability_of(value: &Value) -> Option<Availability>
    ensures { option_map availability_seen result ≡ stated_availability (view value.now) }
{
    match (value.get("constant"), value.get("bitstream")) {
        (Some(constant), None) => constant_of(constant),
        (None, Some(bitstream)) => stream_of(bitstream, value.get("availableCount")),
        _ => None,
    }
}

// The availability of a `constant`, which is 0 or 1.
fn constant_of(value: &Value) -> Option<Availability>
    ensures { option_map availability_seen result ≡ option_and_then constant_named (number_in (view value.now)) }
{
    match value.as_u64()? {
        0 => Some(Availability::Constant(false)),
        1 => Some(Availability::Constant(true)),
        _ => None,
    }
}

// The availability of a `bitstream`, beside which there may be a count.
fn stream_of(bitstream: &Value, count: Option<&Value>) -> Option<Availability>
    ensures { option_map availability_seen result ≡ stream_from (view bitstream.now) (option_map
        (λ c. view c.now) count.entry) }
{
    let view = bitstream.as_u64()?;
    let count = match count {
        Some(count) => Some(count.as_u64()?),
        None => None,
    };
    Some(Availability::Stream { view, count })
}
