// Laws of the table of faults of a subtree file.
ghost use Rattle.implicit_tileset.specs.CutFiles.{CutFilesAreTold, FaultsAreNumbered};

/// Where a file in the binary form has none of the faults 3 to 6, its first k bytes have fault 3 exactly where they are
/// fewer than a header, and fault 6 exactly where they are a header and end before its parts do.
pub fn a_cut_file_has_fault_3_or_6()
    ensures { CutFilesAreTold }
{}

/// The faults of a file that is there and isn't too long are 3 to 20, and 3 to 13 where the names that it needs aren't
/// known.
pub fn faults_are_numbered()
    ensures { FaultsAreNumbered }
{}
