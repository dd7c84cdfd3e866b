// Laws of canonical files (OGC 22-025r4, subtree binary format, subtree JSON format).
ghost use Rattle.subtree_write.specs.Reading.{CanonicalFilesReadBack, CanonicalFilesAreGood};

/// For a layout that a subtree is of, its canonical file has no fault where its bits break no rule between them, and
/// holds the subtree with all its bits, those that count as 0 among them.
pub fn a_canonical_file_reads_back()
    ensures { CanonicalFilesReadBack }
{}

/// Such a file is no longer than a file may be: it is a good file of the subtree's root.
pub fn a_canonical_file_is_good()
    ensures { CanonicalFilesAreGood }
{}
