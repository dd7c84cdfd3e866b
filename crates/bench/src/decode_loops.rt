// Subtree files that are decoded again and again: one of 299,593 tile bits, and two of nearly 16 MiB of JSON, in which
// there are many views that nothing names, or a long text that nothing reads.
ghost use Rattle.std.specs.Prelude.{◌<◌};

use crate::report_bytes;
use availability::Subtree;
use std::alloc::{AllocError, Global};
use std::io;
use std::rt::Clock;
use std::time::Instant;
use subtree_file::decode;
use tile_coords::{Scheme, Tile};
use tileset_json::Layout;
use uri_template::Template;

const NODE_BYTES: usize = 37_450;

const FIRST_VIEW: &str = "{\"bufferViews\":[{\"buffer\":0,\"byteLength\":37450,\"byteOffset\":0}";

const NEXT_VIEW: &str = ",{\"buffer\":0,\"byteLength\":37450,\"byteOffset\":0}";

const MEMBERS: &str =
    "],\"buffers\":[{\"byteLength\":37450}],\"childSubtreeAvailability\":{\"constant\":1},\"contentAvailability\":[{\"constant\":1}],\"tileAvailability\":{\"availableCount\":299593,\"bitstream\":0},\"extras\":\"";

const SENTENCE: &str = "Nothing reads this text. ";

/// Times `decode` of an octree's subtree of 7 levels from each file.
pub fn run(rt: &(impl Print + Eprint + Clock), alloc: Global) -> io::Result<()> {
    let Some(layout) = octree(alloc)? else {
        return Ok(());
    };
    let bits = file(alloc, 0, 0)?;
    time_decodes(rt, alloc, "decode_bits", &layout, &bits, 20_000)?;
    let views = file(alloc, 356_000, 0)?;
    time_decodes(rt, alloc, "decode_views", &layout, &views, 3)?;
    let text = file(alloc, 0, 669_000)?;
    time_decodes(rt, alloc, "decode_text", &layout, &text, 30)
}

fn octree(alloc: Global) -> Result<Option<Layout>, AllocError> {
    let (Some(subtree), Some(content)) = (template(alloc, "s")?, template(alloc, "c")?) else {
        return Ok(None);
    };
    let mut contents = Vec::new(alloc);
    contents.push(content)?;
    Ok(Some(Layout {
        scheme: Scheme::Oct,
        subtree_levels: 7,
        levels: 18,
        subtree,
        contents,
    }))
}

fn template(alloc: Global, text: &str) -> Result<Option<Template>, AllocError> {
    let text = String::from_str(alloc, text)?;
    Ok(Template::new(text).ok())
}

// A file in which all tiles, contents and child subtrees are there, the tiles by a bitstream. It has so many views
// behind the one that is named, and so many sentences of text.
fn file(alloc: Global, views: usize, sentences: usize) -> Result<Vec<u8>, AllocError> {
    let mut json = Vec::from_slice(alloc, FIRST_VIEW.as_bytes())?;
    for _ in 0..views {
        json.extend_from_slice(NEXT_VIEW.as_bytes())?;
    }
    json.extend_from_slice(MEMBERS.as_bytes())?;
    for _ in 0..sentences {
        json.extend_from_slice(SENTENCE.as_bytes())?;
    }
    json.extend_from_slice(b"\"}")?;
    pad(&mut json, b' ')?;
    let mut binary = vec![in alloc; 0xFFu8; NODE_BYTES]?;
    pad(&mut binary, 0)?;
    let mut bytes = Vec::from_slice(alloc, b"subt\x01\0\0\0")?;
    bytes.extend_from_slice((json.len() as u64).to_le_bytes().as_slice())?;
    bytes.extend_from_slice((binary.len() as u64).to_le_bytes().as_slice())?;
    bytes.extend_from_slice(&json)?;
    bytes.extend_from_slice(&binary)?;
    Ok(bytes)
}

// Fills up a part to whole words of 8 bytes.
fn pad(part: &mut Vec<u8>, byte: u8) -> Result<(), AllocError> {
    for _ in 0..(8 - part.len() % 8) % 8 {
        part.push(byte)?;
    }
    Ok(())
}

fn time_decodes(
    rt: &(impl Print + Eprint + Clock),
    alloc: Global,
    name: &str,
    layout: &Layout,
    file: &[u8],
    calls: u64,
) -> io::Result<()>
    requires { 0 < layout.now.levels }
{
    let start = Instant::now(rt)?;
    let sum = sum_of_decodes(alloc, layout, file, calls);
    let time = start.elapsed(rt)?;
    report_bytes(rt, name, sum, calls.wrapping_mul(file.len() as u64), time)
}

// A file that isn't decoded adds nothing.
fn sum_of_decodes(alloc: Global, layout: &Layout, file: &[u8], calls: u64) -> u64
    requires { 0 < layout.now.levels }
{
    let mut sum = 0u64;
    for _ in 0..calls {
        if let Ok(subtree) = decode(alloc, layout, Tile::root(), file, &[]) {
            sum = sum.wrapping_add(sum_of_bits(&subtree));
        }
    }
    sum
}

fn sum_of_bits(subtree: &Subtree) -> u64 {
    let tiles = subtree.tiles.ones(subtree.tiles.count());
    let child = subtree.child.ones(subtree.child.count());
    tiles
        .wrapping_add(child)
        .wrapping_add(subtree.contents.len() as u64)
}
