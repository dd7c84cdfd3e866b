// A record beside the bytes of its buffers: those of the file itself, and those of the files beside it.
ghost use Rattle.std.specs.Prelude.{◌≡◌};
ghost use Rattle.std.specs.List.{list_any};
ghost use Rattle.implicit_tileset.specs.SubtreeFile.{is_out as is_out_of, is_short as is_short_of};
ghost use Rattle.implicit_tileset.specs.BufferFiles.{buffer_at};
ghost use Rattle.implicit_tileset.specs.FileOutcome.{bytes_named, bytes_of as stated_bytes, held_at as stated_at};
ghost use Rattle.implicit_tileset.specs.FileOutcome.{or_nothing};
ghost use Rattle.subtree_json.specs.Seen.{availability_seen};
ghost use Rattle.subtree_file.specs.Buffers.{bytes_under as stated_under, sources_seen, whole_bytes};
ghost use Rattle.subtree_file.specs.Decoding.{Decodes, views_checked};
ghost use Rattle.subtree_file.specs.Needed.{shown};

use crate::buffers::BufferFile;
use crate::fault::{BitsFault, DecodeFault};
use crate::held::Held;
use crate::needed::view_at;
use crate::used::Used;
use std::marker::Model;
use subtree_json::{Availability, BufferPart, SubtreeRecord};

// A record, the file's own bytes for a buffer, where it has such, and the files of its external buffers, one for each
// `uri`.
#[derive(Drop)]
pub(crate) struct Sources<'f> {
    pub parts: &'f SubtreeRecord,
    pub binary: Option<&'f [u8]>,
    pub uris: &'f [&'f str],
    pub files: &'f [BufferFile],
}

impl<'f> Model for Sources<'f> {
    ghost use Rattle.std.specs.Prelude.{option_map};
    ghost use Rattle.subtree_file.specs.Buffers.{Gathered};
    ghost use Rattle.subtree_file.specs.Needed.{shown};

    ghost Value = { Gathered };

    ghost view = { λ s. record {
      parts = s.parts.now;
      binary = option_map (λ b. b.now) s.binary;
      uris = shown s.uris.now;
      files = s.files.now;
    } };
}

impl Sources<'_> {
    // The record beside the bytes of the buffer in which the view of an availability stands.
    pub fn held_at(&self, availability: &Availability) -> Held
        ensures { result ≡ stated_at (sources_seen self.now) (availability_seen availability.now) }
    {
        Held {
            parts: self.parts,
            binary: self.bytes_of(availability),
        }
    }

    // The bytes of that buffer; none where it isn't there, or has none.
    fn bytes_of(&self, availability: &Availability) -> &[u8]
        ensures { result.now ≡ stated_bytes (sources_seen self.now) (buffer_at self.now.parts (availability_seen availability.now)) }
    {
        let parts = self.parts;
        let Some(view) = view_at(parts, availability) else {
            return &[];
        };
        match parts.buffers.get(view.buffer as usize) {
            Some(buffer) => self.bytes_named(buffer),
            None => &[],
        }
    }

    fn bytes_named(&self, buffer: &BufferPart) -> &[u8]
        ensures { result.now ≡ or_nothing (bytes_named (sources_seen self.now).named self.now.binary buffer.now.uri) }
    {
        match &buffer.uri {
            Some(uri) => bytes_under(self.uris, self.files, uri.as_str()),
            None => match self.binary {
                Some(bytes) => bytes,
                None => &[],
            },
        }
    }

    fn is_out(&self, used: &Used) -> bool
        ensures { result ≡ is_out_of (stated_at (sources_seen self.now) used.now.availability) used.now.availability }
    {
        self.held_at(&used.availability).is_out(used)
    }

    fn is_short(&self, used: &Used) -> bool
        ensures { result ≡ is_short_of (stated_at (sources_seen self.now) used.now.availability) used.now }
    {
        self.held_at(&used.availability).is_short(used)
    }

    fn any_is_out(&self, used: &[Used]) -> bool
        ensures { result ≡ list_any (λ u. is_out_of (stated_at (sources_seen self.now) u.availability) u.availability) used.now }
    {
        used.iter().any(|one| self.is_out(one))
    }

    fn any_is_short(&self, used: &[Used]) -> bool
        ensures { result ≡ list_any (λ u. is_short_of (stated_at (sources_seen self.now) u.availability) u) used.now }
    {
        used.iter().any(|one| self.is_short(one))
    }

    // The faults 14 and 15, each asked over all that are used.
    pub fn check_views(&self, used: &[Used]) -> Result<(), DecodeFault>
        ensures { Decodes (views_checked (sources_seen self.now) used.now) result }
    {
        if self.any_is_out(used) {
            return Err(DecodeFault::from(BitsFault::ViewOut));
        }
        if self.any_is_short(used) {
            return Err(DecodeFault::from(BitsFault::BitsShort));
        }
        Ok(())
    }
}

// The bytes of the file of this `uri`; none where it has none, or isn't among them.
fn bytes_under<'f>(uris: &[&str], files: &'f [BufferFile], uri: &str) -> &'f [u8]
    ensures { result.now ≡ or_nothing (stated_under (shown uris.now) files.now uri.now) }
{
    for index in 0..uris.len().min(files.len()) {
        if uri == uris[index] {
            return bytes_in(&files[index]);
        }
    }
    &[]
}

fn bytes_in(file: &BufferFile) -> &[u8]
    ensures { result.now ≡ or_nothing (whole_bytes file.now) }
{
    match file {
        BufferFile::Whole(bytes) => bytes.as_slice(),
        _ => &[],
    }
}
