// A source of files in memory that never fails.
ghost use Rattle.std.specs.Prelude.{◌≡◌, ◌≤◌, ◌↔◌, Some, IfSome, IsSome, vec_len};
ghost use Rattle.std.specs.List.Sorted.{IsStrictlySortedBy-prop};
ghost use Rattle.scene_ports.specs.Files.{files_of, HasDistinctNames, HasDistinctNames-prop, HaveSameFiles};
ghost use Rattle.scene_ports.specs.Places.{IsSortedByName};

use crate::memory_files::answer;
use crate::sorted_files::{find_sorted, sort_by_name};
use crate::{Fetch, FileSource};

/// Files in memory, in the order of their names, so that a fetch takes about as many steps as the logarithm of their
/// count. They tell all that they hold. No fetch of them fails, so a reader that reports a read fault over them is
/// refused by its own contract.
#[derive(Drop)]
pub struct SureFiles {
    files: Vec<(String, Vec<u8>)>,
    fetches: u64,
    ghost names: { HasDistinctNames (files_of files.items) } by { HasDistinctNames-prop _ },
    ghost sorted: { IsSortedByName (files_of files.items) } by { IsStrictlySortedBy-prop _ _ },
}

impl SureFiles {
    /// A source of these files, with no fetch so far. None exactly where two names are equal. It sorts the files where
    /// they lie.
    pub fn new(mut files: Vec<(String, Vec<u8>)>) -> Option<SureFiles>
        ensures some { IsSome result ↔ HasDistinctNames (files_of files.items) }
        ensures tells { IfSome result (λ source. IsSome (⟦<SureFiles as FileSource>⟧.told source)) }
        ensures told { IfSome result (λ source. IfSome (⟦<SureFiles as FileSource>⟧.told source)
            (λ all. HaveSameFiles all (files_of files.items))) }
        ensures fetches { IfSome result (λ source. ⟦<SureFiles as FileSource>⟧.fetches source ≡ 0) }
    {
        if !sort_by_name(&mut files) {
            return None;
        }
        Some(SureFiles { files, fetches: 0 })
    }
}

impl FileSource for SureFiles {
    ghost told = { λ s. Some (files_of s.files.items) };

    ghost faults = { λ _. 0 };

    ghost fetches = { λ s. s.fetches };

    ghost distinct = { λ s. s.names };

    fn fetch(&mut self, name: &str, limit: usize, out: &mut Vec<u8>) -> Fetch {
        out.clear();
        self.fetches = self.fetches.saturating_add(1);
        answer(find_sorted(&self.files, name), limit, out)
    }
}
