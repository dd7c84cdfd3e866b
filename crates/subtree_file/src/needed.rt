// The files of the external buffers that a subtree file uses.
ghost use Rattle.std.specs.Prelude.{◌≡◌, ◌++◌, ◌&&◌, ◌==◌, IfOk, map, not, option_map, string_bytes};
ghost use Rattle.std.specs.List.{list_any};
ghost use Rattle.std.specs.Str.{bytes_eq};
ghost use Rattle.implicit_tileset.specs.SubtreeFile.{view_is};
ghost use Rattle.implicit_tileset.specs.BufferFiles.{view_at as stated_view, buffer_at as stated_buffer, is_used_buffer};
ghost use Rattle.implicit_tileset.specs.BufferFiles.{used_uri as stated_uri, used_uris as stated_uris};
ghost use Rattle.implicit_tileset.specs.BufferFiles.{put_once as stated_once};
ghost use Rattle.implicit_tileset.specs.FileOutcome.{has_no_bytes};
ghost use Rattle.subtree_json.specs.Seen.{availability_seen};
ghost use Rattle.subtree_file.specs.Decoding.{Decodes};
ghost use Rattle.subtree_file.specs.Needed.{buffer_rows, shown};

use crate::fault::{BitsFault, DecodeFault};
use crate::held::Held;
use crate::used::Used;
use std::alloc::{AllocError, Global};
use subtree_json::{Availability, SubtreeRecord, ViewPart};

// The faults 12 and 13, which no other file has a part in, each asked over all that are used.
pub(crate) fn check_buffers(
    parts: &SubtreeRecord,
    has_bytes: bool,
    used: &[Used],
) -> Result<(), DecodeFault>
    ensures { Decodes (buffer_rows parts.now has_bytes used.now) result }
{
    let held = Held { parts, binary: &[] };
    if held.any_names_no_view(used) {
        return Err(DecodeFault::from(BitsFault::ViewUnknown));
    }
    if !has_bytes && any_has_no_uri(parts, used) {
        return Err(DecodeFault::from(BitsFault::NoBuffer));
    }
    Ok(())
}

fn any_has_no_uri(parts: &SubtreeRecord, used: &[Used]) -> bool
    ensures { result ≡ list_any (λ u. has_no_bytes None (stated_buffer parts.now u.availability)) used.now }
{
    used.iter().any(|one| has_no_uri(parts, one))
}

fn has_no_uri(parts: &SubtreeRecord, used: &Used) -> bool
    ensures { result ≡ has_no_bytes None (stated_buffer parts.now used.now.availability) }
{
    let Some(view) = view_at(parts, &used.availability) else {
        return false;
    };
    match parts.buffers.get(view.buffer as usize) {
        Some(buffer) => buffer.uri.is_none(),
        None => false,
    }
}

// The view that an availability names, if it names one that is there.
pub(crate) fn view_at(parts: &SubtreeRecord, availability: &Availability) -> Option<ViewPart>
    ensures { result ≡ stated_view parts.now (availability_seen availability.now) }
{
    match availability {
        Availability::Constant(_) => None,
        Availability::Stream { view, .. } => parts.views.get(*view as usize).copied(),
    }
}

// Whether the view of a used availability stands in the buffer of this number.
fn stands_in(parts: &SubtreeRecord, used: &Used, number: u64) -> bool
    ensures { result ≡ view_is (λ v. v.buffer == number) (stated_view parts.now used.now.availability) }
{
    match view_at(parts, &used.availability) {
        Some(view) => view.buffer == number,
        None => false,
    }
}

fn is_used(parts: &SubtreeRecord, used: &[Used], number: u64) -> bool
    ensures { result ≡ is_used_buffer parts.now used.now number }
{
    used.iter().any(|one| stands_in(parts, one, number))
}

// The `uri` of the buffer of this number, where it has one and is used.
fn used_uri<'f>(parts: &'f SubtreeRecord, used: &[Used], number: usize) -> Option<&'f str>
    ensures { option_map (λ u. u.now) result ≡ stated_uri parts.now used.now number }
{
    if !is_used(parts, used, number as u64) {
        return None;
    }
    match parts.buffers.get(number) {
        Some(buffer) => match &buffer.uri {
            Some(uri) => Some(uri.as_str()),
            None => None,
        },
        None => None,
    }
}

// The `uri`s of all external buffers that are used, each once.
pub(crate) fn used_uris<'f>(
    alloc: Global,
    parts: &'f SubtreeRecord,
    used: &[Used],
) -> Result<Vec<&'f str>, AllocError>
    ensures { IfOk result (λ uris. shown uris.items ≡ stated_uris parts.now used.now) }
{
    let mut uris = Vec::new(alloc);
    for number in 0..parts.buffers.len() {
        let uri = used_uri(parts, used, number);
        put_once(&mut uris, uri)?;
    }
    Ok(uris)
}

// A text that may be there, behind the others, unless it is among them.
fn put_once<'f>(uris: &mut Vec<&'f str>, uri: Option<&'f str>) -> Result<(), AllocError>
    ensures { IfOk result (λ _. shown uris.new.items ≡ stated_once (shown uris.old.items)
        (option_map (λ u. u.now) uri.entry)) }
{
    let Some(uri) = uri else {
        return Ok(());
    };
    if has_uri(uris, uri) {
        return Ok(());
    }
    uris.push(uri)?;
    Ok(())
}

fn has_uri(uris: &[&str], uri: &str) -> bool
    ensures { result ≡ list_any (λ u. bytes_eq uri.now u.now) uris.now }
{
    uris.iter().any(|one| uri == *one)
}

// Each behind the folder.
pub(crate) fn names_of(
    alloc: Global,
    folder: &str,
    uris: &[&str],
) -> Result<Vec<String>, AllocError>
    ensures { IfOk result (λ names. map string_bytes names.items ≡ map (λ u. folder.now ++ u.now) uris.now) }
{
    let mut names = Vec::with_capacity(alloc, uris.len())?;
    for uri in uris {
        let name = name_of(alloc, folder, uri)?;
        names.push(name)?;
    }
    Ok(names)
}

fn name_of(alloc: Global, folder: &str, uri: &str) -> Result<String, AllocError>
    ensures { IfOk result (λ name. string_bytes name ≡ folder.now ++ uri.now) }
{
    let mut name = String::from_str(alloc, folder)?;
    name.push_str(uri)?;
    Ok(name)
}
