// The files of the external buffers of a subtree file, as they were fetched.
ghost use Rattle.std.specs.Prelude.{◌≡◌};
ghost use Rattle.std.specs.List.{list_any};
ghost use Rattle.subtree_file.specs.Buffers.{is_missing as is_missing_file, is_too_long as is_too_long_file};
ghost use Rattle.subtree_file.specs.Buffers.{files_rows};
ghost use Rattle.subtree_file.specs.Decoding.{Decodes};

use crate::fault::{BitsFault, DecodeFault};

/// What was found under the name of a buffer's file.
#[derive(Drop)]
pub enum BufferFile {
    /// All its bytes.
    Whole(Vec<u8>),
    /// There is no file of the name.
    Missing,
    /// It is longer than what was left for it.
    TooLong,
}

// The faults 19 and 20, each asked over all files.
pub(crate) fn check_files(files: &[BufferFile]) -> Result<(), DecodeFault>
    ensures { Decodes (files_rows files.now) result }
{
    if any_is_missing(files) {
        return Err(DecodeFault::from(BitsFault::BufferMissing));
    }
    if any_is_too_long(files) {
        return Err(DecodeFault::from(BitsFault::BuffersLong));
    }
    Ok(())
}

fn any_is_missing(files: &[BufferFile]) -> bool
    ensures { result ≡ list_any is_missing_file files.now }
{
    files.iter().any(|one| is_missing(one))
}

fn is_missing(file: &BufferFile) -> bool
    ensures { result ≡ is_missing_file file.now }
{
    matches!(file, BufferFile::Missing)
}

fn any_is_too_long(files: &[BufferFile]) -> bool
    ensures { result ≡ list_any is_too_long_file files.now }
{
    files.iter().any(|one| is_too_long(one))
}

fn is_too_long(file: &BufferFile) -> bool
    ensures { result ≡ is_too_long_file file.now }
{
    matches!(file, BufferFile::TooLong)
}
