// The file of a subtree.
ghost use Rattle.std.specs.Prelude.{◌≡◌, ◌++◌, IfOk, OnOk, OnErr, false, length, take};
ghost use Rattle.serde_json.specs.View.{view};
ghost use Rattle.serde_json.specs.Written.{compact_text, has_float};
ghost use Rattle.subtree_write.specs.Canonical.{canonical, padded, file_of};

use crate::streams::{Streams, pad};
use crate::values::json_value;
use availability::Subtree;
use bitstream::Bits;
use serde_json::Value;
use std::alloc::{AllocError, Global};

/// Appends the canonical file of a subtree (OGC 22-025r4, subtree binary format, subtree JSON format). It reads back as
/// the subtree where that breaks no rule between its bits, as `Subtree::check` finds: `file_laws` says so. An Err,
/// which comes of memory alone, leaves `out` as it was.
pub fn encode(alloc: Global, subtree: &Subtree, out: &mut Vec<u8>) -> Result<(), AllocError>
    ensures ok { OnOk result (out.new.items ≡ out.old.items ++ canonical subtree.now) }
    ensures err { OnErr result (out.new.items ≡ out.old.items) }
{
    let mut streams = Streams::with_room(alloc, most_bytes(subtree))?;
    let tiles = streams.write(alloc, &subtree.tiles)?;
    let contents = streams.write_each(alloc, &subtree.contents)?;
    let child = streams.write(alloc, &subtree.child)?;
    let Streams { views, bytes } = streams;
    let value = json_value(alloc, views, bytes.len() as u64, tiles, contents, child)?;
    let json = padded_text(alloc, &value)?;
    let start = out.len();
    let appended = append_file(&json, &bytes, out);
    if appended.is_err() {
        out.truncate(start);
    }
    appended
}

// As many bytes as the bitstreams of a subtree fill at most, so that they are not moved while they grow.
fn most_bytes(subtree: &Subtree) -> usize {
    let node_streams = 1 + subtree.contents.len() as u64;
    let nodes = stream_size(&subtree.tiles).saturating_mul(node_streams);
    nodes.saturating_add(stream_size(&subtree.child)) as usize
}

// The bytes of a bitstream, filled up to a multiple of 8.
fn stream_size(bits: &Bits) -> u64 {
    bits.count().div_ceil(64).saturating_mul(8)
}

// The text of a value, filled up by spaces.
fn padded_text(alloc: Global, value: &Value) -> Result<Vec<u8>, AllocError>
    ensures { IfOk result (λ text. has_float (view value.now) ≡ false
        → text.items ≡ padded 32 (compact_text (view value.now))) }
{
    let mut text = value.to_vec(alloc)?;
    let size = text.len();
    pad(&mut text, size, b' ')?;
    Ok(text)
}

// Appends a file of two parts. An Err may leave a front of it.
fn append_file(json: &[u8], bytes: &[u8], out: &mut Vec<u8>) -> Result<(), AllocError>
    ensures ok { OnOk result (out.new.items ≡ out.old.items ++ file_of json.now bytes.now) }
    ensures err { OnErr result (take (length out.old.items) out.new.items ≡ out.old.items) }
{
    out.extend_from_slice(b"subt")?;
    out.extend_from_slice(&1u32.to_le_bytes())?;
    out.extend_from_slice(&(json.len() as u64).to_le_bytes())?;
    out.extend_from_slice(&(bytes.len() as u64).to_le_bytes())?;
    out.extend_from_slice(json)?;
    out.extend_from_slice(bytes)
}
