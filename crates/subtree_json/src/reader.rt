// Reading a record.
ghost use Rattle.serde_json.specs.View.{view};
ghost use Rattle.implicit_tileset.specs.Record.{record_of, record_of_value};
ghost use Rattle.subtree_json.specs.Reading.{ReadsPart};

use crate::fault::JsonFault;
use crate::lists::{read_contents, read_list};
use crate::members::availability_at;
use crate::part::{BufferPart, ViewPart};
use crate::record::SubtreeRecord;
use implicit_tileset::{JsonFault as ValueFault, read_value};
use serde_json::Value;
use std::alloc::Global;

/// The record that the JSON part of a subtree file states, or the first fault of it in the order of `JsonFault`
/// (subtree JSON format). Where a name stands twice the last member counts; a member that is null is there; a number
/// is one that `as_u64` gives, so neither 1.0 nor -1.
///
/// It takes memory in proportion to the JSON, and copies each `uri`. After `Memory` nothing is kept, and the same bytes can be read again.
pub fn read(alloc: Global, bytes: &[u8]) -> Result<SubtreeRecord, JsonFault>
    ensures { ReadsPart (record_of bytes.now) result }
{
    match read_value(alloc, bytes) {
        Ok(value) => read_record(alloc, &value),
        Err(ValueFault::NotJson) => Err(JsonFault::BadJson),
        Err(ValueFault::Memory) => Err(JsonFault::Memory),
    }
}

// The record that a value states.
fn read_record(alloc: Global, value: &Value) -> Result<SubtreeRecord, JsonFault>
    ensures { ReadsPart (record_of_value (view value.now)) result }
{
    if !value.is_object() {
        return Err(JsonFault::NotObject);
    }
    let Some(buffers) = read_list::<BufferPart>(alloc, value.get("buffers"))? else {
        return Err(JsonFault::BadBuffers);
    };
    let Some(views) = read_list::<ViewPart>(alloc, value.get("bufferViews"))? else {
        return Err(JsonFault::BadViews);
    };
    let Some(tiles) = availability_at(value, "tileAvailability") else {
        return Err(JsonFault::BadAvailability);
    };
    let Some(contents) = read_contents(alloc, value.get("contentAvailability"))? else {
        return Err(JsonFault::BadAvailability);
    };
    let Some(child) = availability_at(value, "childSubtreeAvailability") else {
        return Err(JsonFault::BadAvailability);
    };
    Ok(SubtreeRecord {
        buffers,
        views,
        tiles,
        contents,
        child,
    })
}
