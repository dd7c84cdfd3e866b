// Names and bytes in memory.
ghost use Rattle.std.specs.Prelude.{◌≡◌, ◌↔◌, IsTrue, position, string_bytes};
ghost use Rattle.std.specs.Option.{option_copied};
ghost use Rattle.std.specs.Str.{bytes_eq};
ghost use Rattle.implicit_tiling.specs.Files.{file};
ghost use Rattle.scene_ports.specs.Files.{files_of, HasDistinctNames};

// The place of the first file of that name.
pub(crate) fn place_of(files: &[(String, Vec<u8>)], name: &str) -> Option<usize>
    ensures { result ≡ position (λ pair. bytes_eq (string_bytes pair.0) name.now) files.now }
{
    files.iter().position(|pair| pair.0.as_str() == name)
}

// The bytes of the first file of that name.
pub(crate) fn find<'a>(files: &'a [(String, Vec<u8>)], name: &str) -> Option<&'a [u8]>
    ensures { option_copied result ≡ file name.now (files_of files.now) }
{
    for pair in files {
        if pair.0.as_str() == name {
            return Some(&pair.1);
        }
    }
    None
}

// No two files have one name.
pub(crate) fn has_distinct_names(files: &[(String, Vec<u8>)]) -> bool
    ensures { IsTrue result ↔ HasDistinctNames (files_of files.now) }
{
    for (at, pair) in files.iter().enumerate() {
        if place_of(&files[at + 1..], pair.0.as_str()).is_some() {
            return false;
        }
    }
    true
}
