// Names and bytes in memory, in the order of their names.
ghost use Rattle.std.specs.Prelude.{◌≡◌, ◌↔◌, IsTrue};
ghost use Rattle.std.specs.Option.{option_copied};
ghost use Rattle.implicit_tiling.specs.Files.{file};
ghost use Rattle.scene_ports.specs.Files.{files_of, HasDistinctNames, HaveSameFiles};
ghost use Rattle.scene_ports.specs.Places.{IsSortedByName};

// Sorts the files by name, and tells whether no two of them have one name.
pub(crate) fn sort_by_name(files: &mut Vec<(String, Vec<u8>)>) -> bool
    ensures distinct { IsTrue result ↔ HasDistinctNames (files_of files.old.items) }
    ensures names { IsTrue result → HasDistinctNames (files_of files.new.items) }
    ensures sorted { IsTrue result → IsSortedByName (files_of files.new.items) }
    ensures same { IsTrue result → HaveSameFiles (files_of files.new.items) (files_of files.old.items) }
{
    files.sort_unstable();
    files.is_sorted_by(|one, next| one.0 < next.0)
}

// The bytes under the name, found by halving.
pub(crate) fn find_sorted<'a>(files: &'a [(String, Vec<u8>)], name: &str) -> Option<&'a [u8]>
    requires { IsSortedByName (files_of files.now) }
    ensures { option_copied result ≡ file name.now (files_of files.now) }
{
    match files.binary_search_by(|pair| pair.0.as_str().cmp(name)) {
        Ok(at) => Some(&files[at].1),
        Err(_) => None,
    }
}
