// A source of files in memory, which fails at chosen fetches.
ghost use Rattle.std.specs.Prelude.{◌≡◌, ◌≤◌, ◌≢◌, ◌↔◌, [], Some, IfSome, IsSome, vec_len};
ghost use Rattle.std.specs.Option.{option_copied};
ghost use Rattle.scene_ports.specs.Files.{files_of, HasDistinctNames, HasDistinctNames-prop};
ghost use Rattle.scene_ports.specs.Source.{IsFetched};

use crate::pairs::{find, has_distinct_names};
use crate::{Fetch, FileSource};

/// Files in memory, which tell all that they hold. Of the fetches, counted from 1, those whose numbers are in `failing`
/// fail.
#[derive(Drop)]
pub struct MemoryFiles {
    files: Vec<(String, Vec<u8>)>,
    failing: Vec<u64>,
    fetches: u64,
    faults: u64,
    ghost names: { HasDistinctNames (files_of files.items) } by { HasDistinctNames-prop _ },
}

impl MemoryFiles {
    /// A source of these files, with no fetch and no fault so far. None exactly where two names are equal.
    pub fn new(files: Vec<(String, Vec<u8>)>, failing: Vec<u64>) -> Option<MemoryFiles>
        ensures some { IsSome result ↔ HasDistinctNames (files_of files.items) }
        ensures told { IfSome result
            (λ source. ⟦<MemoryFiles as FileSource>⟧.told source ≡ Some (files_of files.items)) }
        ensures fetches { IfSome result (λ source. ⟦<MemoryFiles as FileSource>⟧.fetches source ≡ 0) }
        ensures faults { IfSome result (λ source. ⟦<MemoryFiles as FileSource>⟧.faults source ≡ 0) }
    {
        if !has_distinct_names(&files) {
            return None;
        }
        Some(MemoryFiles {
            files,
            failing,
            fetches: 0,
            faults: 0,
        })
    }
}

impl FileSource for MemoryFiles {
    ghost told = { λ s. Some (files_of s.files.items) };

    ghost faults = { λ s. s.faults };

    ghost fetches = { λ s. s.fetches };

    ghost distinct = { λ s. s.names };

    fn fetch(&mut self, name: &str, limit: usize, out: &mut Vec<u8>) -> Fetch {
        out.clear();
        self.fetches = self.fetches.saturating_add(1);
        if self.failing.contains(&self.fetches) {
            self.faults = self.faults.saturating_add(1);
            return Fetch::Failed;
        }
        answer(find(&self.files, name), limit, out)
    }
}

// The answer of a source where these bytes are found.
pub(crate) fn answer(found: Option<&[u8]>, limit: usize, out: &mut Vec<u8>) -> Fetch
    requires { out.old.items ≡ [] }
    ensures found { IsFetched (option_copied found.entry) limit out.new.items result }
    ensures fits { vec_len out.new ≤ limit }
    ensures emptied { result ≢ Fetch.Whole → out.new.items ≡ [] }
    ensures sure { result ≢ Fetch.Failed }
{
    let Some(bytes) = found else {
        return Fetch::Missing;
    };
    if bytes.len() > limit {
        return Fetch::TooLong;
    }
    match out.extend_from_slice(bytes) {
        Ok(_) => Fetch::Whole,
        Err(_) => Fetch::Memory,
    }
}
