// Fetching the files of the external buffers of a subtree file.
ghost use Rattle.std.specs.Prelude.{◌≡◌, ◌≢◌, ◌≤◌, ◌∷◌, [], length, map, IfOk, IfSome, Err, string_bytes};
ghost use Rattle.implicit_tiling.specs.Files.{file};
ghost use Rattle.implicit_tiling.specs.Limits.{most_file_bytes};
ghost use Rattle.scene_ports.specs.Counts.{Rose, one_more, more_by};
ghost use Rattle.subtree_file.specs.Buffers.{AreFetched, left_after as left_after_files};

use crate::outcome::WalkStop;
use scene_ports::{Fetch, FileSource, MOST_FILE_BYTES};
use std::alloc::Global;
use subtree_file::BufferFile;

// The files of these names, in their order, each fetched with what is left of the most bytes of a file.
pub(crate) fn fetch_buffers<S: FileSource>(
    alloc: Global,
    files: &mut S,
    names: &[String],
) -> Result<Vec<BufferFile>, WalkStop>
    ensures told { IfSome (S.told files.old) (λ all. IfOk result
        (λ buffers. AreFetched (λ name. file name all) most_file_bytes (map string_bytes names.now) buffers.items)) }
    ensures failed { result ≡ Err WalkStop.ReadFault → Rose (S.faults files.old) (S.faults files.new) }
    ensures sure { result ≢ Err WalkStop.ReadFault → S.faults files.new ≡ S.faults files.old }
    ensures later { S.faults files.old ≤ S.faults files.new }
    ensures fetched { IfOk result (λ buffers. S.fetches files.new ≡ more_by (length names.now) (S.fetches files.old)) }
    ensures at_most { S.fetches files.new ≤ more_by (length names.now) (S.fetches files.old) }
    ensures grown { S.fetches files.old ≤ S.fetches files.new }
    ensures same { S.told files.new ≡ S.told files.old }
{
    let mut left = MOST_FILE_BYTES;
    let mut buffers = Vec::with_capacity(alloc, names.len())?;
    for name in names {
        let buffer = fetch_buffer(alloc, files, name.as_str(), left)?;
        left = left_after(left, &buffer);
        buffers.push(buffer)?;
    }
    Ok(buffers)
}

// The file of a name, by one fetch.
fn fetch_buffer<S: FileSource>(
    alloc: Global,
    files: &mut S,
    name: &str,
    limit: usize,
) -> Result<BufferFile, WalkStop>
    requires { limit ≤ most_file_bytes }
    ensures told { IfSome (S.told files.old)
        (λ all. IfOk result (λ buffer. AreFetched (λ n. file n all) limit (name.now ∷ []) (buffer ∷ []))) }
    ensures failed { result ≡ Err WalkStop.ReadFault → Rose (S.faults files.old) (S.faults files.new) }
    ensures sure { result ≢ Err WalkStop.ReadFault → S.faults files.new ≡ S.faults files.old }
    ensures later { S.faults files.old ≤ S.faults files.new }
    ensures counted { S.fetches files.new ≡ one_more (S.fetches files.old) }
    ensures same { S.told files.new ≡ S.told files.old }
{
    let mut bytes = Vec::new(alloc);
    match files.fetch(name, limit, &mut bytes) {
        Fetch::Whole => Ok(BufferFile::Whole(bytes)),
        Fetch::Missing => Ok(BufferFile::Missing),
        Fetch::TooLong => Ok(BufferFile::TooLong),
        Fetch::Failed => Err(WalkStop::ReadFault),
        Fetch::Memory => Err(WalkStop::Memory),
    }
}

// What is left of a limit behind a file.
fn left_after(left: usize, buffer: &BufferFile) -> usize
    ensures left { result ≡ left_after_files left (buffer.now ∷ []) }
    ensures less { result ≤ left }
{
    match buffer {
        BufferFile::Whole(bytes) => left.saturating_sub(bytes.len()),
        BufferFile::Missing => left,
        BufferFile::TooLong => 0,
    }
}
