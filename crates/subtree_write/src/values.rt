// The JSON values of a subtree file.
ghost use Rattle.std.specs.Prelude.{◌≡◌, IfOk, OnOk, map};
ghost use Rattle.serde_json.specs.View.{view, members_view};
ghost use Rattle.subtree_write.specs.Canonical.{view_value as view_value_of, buffer_values};
ghost use Rattle.subtree_write.specs.Canonical.{constant_value as constant_value_of, stream_value as stream_value_of};
ghost use Rattle.subtree_write.specs.Canonical.{file_value};
ghost use Rattle.subtree_write.specs.Members.{with_list};

use serde_json::{Map, Value, put};
use std::alloc::{AllocError, Global};

/// A view in the one buffer.
pub(crate) fn view_value(alloc: Global, offset: u64, size: u64) -> Result<Value, AllocError>
    ensures { IfOk result (λ value. view value ≡ view_value_of offset size) }
{
    let mut members = Map::new(alloc);
    put(&mut members, alloc, "buffer", Value::from(0u64))?;
    put(&mut members, alloc, "byteLength", Value::from(size))?;
    put(&mut members, alloc, "byteOffset", Value::from(offset))?;
    Ok(Value::Object(members))
}

/// An availability that is one bit.
pub(crate) fn constant_value(alloc: Global, bit: bool) -> Result<Value, AllocError>
    ensures { IfOk result (λ value. view value ≡ constant_value_of bit) }
{
    let mut members = Map::new(alloc);
    put(&mut members, alloc, "constant", Value::from(u64::from(bit)))?;
    Ok(Value::Object(members))
}

/// An availability with a bitstream.
pub(crate) fn stream_value(alloc: Global, ones: u64, number: u64) -> Result<Value, AllocError>
    ensures { IfOk result (λ value. view value ≡ stream_value_of ones number) }
{
    let mut members = Map::new(alloc);
    put(&mut members, alloc, "availableCount", Value::from(ones))?;
    put(&mut members, alloc, "bitstream", Value::from(number))?;
    Ok(Value::Object(members))
}

// The one buffer, where there are views.
fn buffers(alloc: Global, size: u64, views: &[Value]) -> Result<Vec<Value>, AllocError>
    ensures { IfOk result (λ values. map view values.items ≡ buffer_values size (map view views.now)) }
{
    let mut buffers = Vec::new(alloc);
    if !views.is_empty() {
        let mut members = Map::new(alloc);
        put(&mut members, alloc, "byteLength", Value::from(size))?;
        buffers.push(Value::Object(members))?;
    }
    Ok(buffers)
}

// Puts a list that isn't empty.
fn put_list(
    members: &mut Map<String, Value>,
    alloc: Global,
    name: &str,
    values: Vec<Value>,
) -> Result<(), AllocError>
    ensures { OnOk result (members_view members.new.entries ≡ with_list name.now (map view values.items)
        (members_view members.old.entries)) }
{
    if values.is_empty() {
        return Ok(());
    }
    put(members, alloc, name, Value::Array(values))
}

/// The JSON value of a file: its views in a buffer of `size` bytes, and its availabilities.
pub(crate) fn json_value(
    alloc: Global,
    views: Vec<Value>,
    size: u64,
    tiles: Value,
    contents: Vec<Value>,
    child: Value,
) -> Result<Value, AllocError>
    ensures { IfOk result
        (λ value. view value ≡ file_value (map view views.items) size (view tiles) (map view contents.items)
        (view child)) }
{
    let buffers = buffers(alloc, size, &views)?;
    let mut members = Map::new(alloc);
    put_list(&mut members, alloc, "bufferViews", views)?;
    put_list(&mut members, alloc, "buffers", buffers)?;
    put(&mut members, alloc, "childSubtreeAvailability", child)?;
    put_list(&mut members, alloc, "contentAvailability", contents)?;
    put(&mut members, alloc, "tileAvailability", tiles)?;
    Ok(Value::Object(members))
}
