// A subtree file of which the record was read: the files that it needs, and the subtree that it holds with them.
ghost use Rattle.std.specs.Prelude.{◌≡◌, ◌+◌, ◌%◌, ◌<◌, ◌≤◌, length, IfOk};
ghost use Rattle.implicit_tiling.specs.Tile.{IsTile};
ghost use Rattle.implicit_tiling.specs.Subtree.{IsOf};
ghost use Rattle.availability.specs.Rules.{KeepsRules};
ghost use Rattle.implicit_tileset.specs.BufferFiles.{Find};
ghost use Rattle.implicit_tileset.specs.FileOutcome.{needed_names, subtree_found};
ghost use Rattle.subtree_file.specs.Decoding.{Decodes, IsNumbered, AreUsed};
ghost use Rattle.subtree_file.specs.Needed.{DecodesNames};
ghost use Rattle.subtree_file.specs.Opened.{opened, opened_names, opened_subtree, AreOpenedBuffers, AreBuffers};

use crate::buffers::{BufferFile, check_files};
use crate::fault::DecodeFault;
use crate::folder::root_folder;
use crate::needed::{check_buffers, names_of, used_uris};
use crate::parts::read_file_parts;
use crate::sources::Sources;
use crate::subtree::decode_sources;
use crate::used::{Used, used_of};
use availability::Subtree;
use std::alloc::Global;
use std::marker::Model;
use subtree_json::{SubtreeRecord, read};
use tile_coords::Tile;
use tileset_json::Layout;

/// A subtree file of which the record was read.
#[derive(Drop)]
pub struct SubtreeFile<'b> {
    parts: SubtreeRecord,
    binary: Option<&'b [u8]>,
    used: Vec<Used>,
}

impl<'b> Model for SubtreeFile<'b> {
    ghost use Rattle.std.specs.Prelude.{option_map};
    ghost use Rattle.subtree_file.specs.Opened.{Opened};

    ghost Value = { Opened };

    ghost view = { λ f. record {
      parts = f.parts;
      binary = option_map (λ b. b.now) f.binary;
      used = f.used.items;
    } };
}

impl<'b> SubtreeFile<'b> {
    /// Reads the record of a file of either form (subtree binary format, subtree JSON format), or answers the first
    /// fault of the file of 3 to 11.
    ///
    /// It takes one pass over the JSON. After `Memory` nothing is kept.
    pub fn open(
        alloc: Global,
        layout: &Layout,
        bytes: &'b [u8],
    ) -> Result<SubtreeFile<'b>, DecodeFault>
        ensures opened { Decodes (opened layout.now bytes.now) result }
        ensures numbered { IsNumbered result }
        ensures used { IfOk result (λ f. AreUsed layout.now f.parts f.used) }
    {
        let parts = read_file_parts(bytes)?;
        let stated = read(alloc, parts.json)?;
        let used = used_of(alloc, layout, &stated)?;
        Ok(SubtreeFile {
            parts: stated,
            binary: parts.binary,
            used,
        })
    }

    /// The names of the files of the external buffers that are used, each once, in the order of the buffers: the `uri`
    /// of each stands behind the folder of the subtree's file (subtree JSON format: buffers). Else fault 12 or 13.
    pub fn needed_buffers(
        &self,
        alloc: Global,
        layout: &Layout,
        root: Tile,
    ) -> Result<Vec<String>, DecodeFault>
        requires { AreUsed layout.now self.now.parts self.now.used }
        ensures stated { DecodesNames (opened_names layout.now root self.now) result }
        ensures few { IfOk result (λ names. length names.items ≤ length layout.now.contents + 2) }
        ensures numbered { IsNumbered result }
    {
        check_buffers(&self.parts, self.binary.is_some(), &self.used)?;
        let folder = root_folder(alloc, layout, root)?;
        let uris = used_uris(alloc, &self.parts, &self.used)?;
        let names = names_of(alloc, folder.as_str(), &uris)?;
        Ok(names)
    }

    /// The subtree that the file holds with the files of its buffers, or the first fault of 12, 13, 19, 20, and 14 to
    /// 18. `buffers`: the outcomes of the names that it needs, in their order, each fetched with what is left of
    /// `MOST_FILE_BYTES`, and nothing left after one that is too long.
    ///
    /// Of each view that is used the bytes of the needed bits are copied once; the copies are counted where a count is
    /// stated, and read again for the two rules. After `Memory` nothing is kept.
    pub fn decode(
        &self,
        alloc: Global,
        layout: &Layout,
        root: Tile,
        buffers: &[BufferFile],
    ) -> Result<Subtree, DecodeFault>
        requires start { root.level % layout.now.subtree_levels ≡ 0 }
        requires below { root.level < layout.now.levels }
        requires tile { IsTile layout.now.scheme root }
        requires used { AreUsed layout.now self.now.parts self.now.used }
        ensures stated { (find : Find) → AreOpenedBuffers find layout.now root self.now buffers.now
            → Decodes (opened_subtree find layout.now root self.now) result }
        ensures of_layout { IfOk result (IsOf layout.now) }
        ensures at_root { IfOk result (λ subtree. subtree.root ≡ root) }
        ensures rules { IfOk result KeepsRules }
        ensures numbered { IsNumbered result }
    {
        check_buffers(&self.parts, self.binary.is_some(), &self.used)?;
        check_files(buffers)?;
        let uris = used_uris(alloc, &self.parts, &self.used)?;
        let sources = Sources {
            parts: &self.parts,
            binary: self.binary,
            uris: &uris,
            files: buffers,
        };
        decode_sources(alloc, layout, root, &sources, &self.used)
    }
}

/// The names of the files of the external buffers that a subtree file uses, each once, in the order of the buffers:
/// the `uri` of each stands behind the folder of the subtree's file (subtree JSON format: buffers). Else the first
/// fault of the file of 3 to 13.
///
/// It takes one pass over the JSON, and one over its buffers. After `Memory` nothing is kept.
pub fn needed_buffers(
    alloc: Global,
    layout: &Layout,
    root: Tile,
    bytes: &[u8],
) -> Result<Vec<String>, DecodeFault>
    ensures stated { DecodesNames (needed_names layout.now root bytes.now) result }
    ensures few { IfOk result (λ names. length names.items ≤ length layout.now.contents + 2) }
{
    let file = SubtreeFile::open(alloc, layout, bytes)?;
    file.needed_buffers(alloc, layout, root)
}

/// The subtree of a root that the bytes of its file and the files of its buffers hold: the raw bits that the file names
/// for its nodes, for as many contents as the layout has templates, and for its child subtrees (OGC 22-025r4, subtree
/// binary format, subtree JSON format, availability). Else the first fault in the table of faults of a subtree file
/// from 3 on. A content past the templates and a view or a buffer that no used availability names are no faults, nor
/// are bytes behind the parts. `buffers`: the outcomes of the names of `needed_buffers`, in their order, each fetched
/// with what is left of `MOST_FILE_BYTES`, and nothing left after one that is too long.
///
/// It takes one pass over the JSON. Of each view that is used the bytes of the needed bits are copied once; the copies
/// are counted where a count is stated, and read again for the two rules. It takes memory in proportion to both. After
/// `Memory` nothing is kept, and the same bytes can be decoded again.
pub fn decode(
    alloc: Global,
    layout: &Layout,
    root: Tile,
    bytes: &[u8],
    buffers: &[BufferFile],
) -> Result<Subtree, DecodeFault>
    requires start { root.level % layout.now.subtree_levels ≡ 0 }
    requires below { root.level < layout.now.levels }
    requires tile { IsTile layout.now.scheme root }
    ensures stated { (find : Find) → AreBuffers find layout.now root bytes.now buffers.now
        → Decodes (subtree_found find layout.now root bytes.now) result }
    ensures of_layout { IfOk result (IsOf layout.now) }
    ensures at_root { IfOk result (λ subtree. subtree.root ≡ root) }
    ensures rules { IfOk result KeepsRules }
    ensures numbered { IsNumbered result }
{
    let file = SubtreeFile::open(alloc, layout, bytes)?;
    file.decode(alloc, layout, root, buffers)
}
