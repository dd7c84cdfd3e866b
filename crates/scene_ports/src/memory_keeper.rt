// A keeper of files in memory, which fails at chosen puts.
ghost use Rattle.std.specs.Prelude.{◌≡◌, ◌≢◌, ◌≤◌, Some, [], OnOk, OnErr};
ghost use Rattle.scene_ports.specs.Counts.{Rose};
ghost use Rattle.scene_ports.specs.Files.{files_of, HasDistinctNames, HasDistinctNames-prop};
ghost use Rattle.scene_ports.specs.Keeper.{Puts, PutsKnown};

use crate::pairs::place_of;
use crate::{FileKeeper, Put};
use std::alloc::{AllocError, Global};

/// Files in memory, in the order of their first puts. Of the puts, counted from 1, those whose numbers are in `failing`
/// fail, and leave all files as they were.
#[derive(Drop)]
pub struct MemoryKeeper {
    files: Vec<(String, Vec<u8>)>,
    failing: Vec<u64>,
    puts: u64,
    faults: u64,
    alloc: Global,
    ghost names: { HasDistinctNames (files_of files.items) } by { HasDistinctNames-prop _ },
}

impl MemoryKeeper {
    /// A keeper of no files, with no fault so far.
    pub fn new(alloc: Global, failing: Vec<u64>) -> MemoryKeeper
        ensures kept { ⟦<MemoryKeeper as FileKeeper>⟧.kept result ≡ Some [] }
        ensures faults { ⟦<MemoryKeeper as FileKeeper>⟧.faults result ≡ 0 }
    {
        MemoryKeeper {
            files: Vec::new(alloc),
            failing,
            puts: 0,
            faults: 0,
            alloc,
        }
    }

    /// The files that are kept.
    pub fn files(&self) -> &[(String, Vec<u8>)]
        ensures { ⟦<MemoryKeeper as FileKeeper>⟧.kept self.now ≡ Some (files_of result.now) }
    {
        &self.files
    }
}

impl FileKeeper for MemoryKeeper {
    ghost kept = { λ s. Some (files_of s.files.items) };

    ghost faults = { λ s. s.faults };

    ghost distinct = { λ s. s.names };

    fn put(&mut self, name: &str, bytes: &[u8]) -> Put
        ensures puts { PutsKnown name.now bytes.now (Some (files_of self.old.files.items))
            (Some (files_of self.new.files.items)) result }
        ensures memory { result ≡ Put.Memory
            → Some (files_of self.new.files.items) ≡ Some (files_of self.old.files.items) }
        ensures failed { result ≡ Put.Failed → Rose self.old.faults self.new.faults }
        ensures sure { result ≢ Put.Failed → self.new.faults ≡ self.old.faults }
        ensures later { self.old.faults ≤ self.new.faults }
        ensures unchanged { result ≢ Put.Kept → self.new.files.items ≡ self.old.files.items }
    {
        self.puts = self.puts.saturating_add(1);
        if self.failing.contains(&self.puts) {
            self.faults = self.faults.saturating_add(1);
            return Put::Failed;
        }
        match keep(self.alloc, &mut self.files, name, bytes) {
            Ok(()) => Put::Kept,
            Err(_) => Put::Memory,
        }
    }
}

// Puts the pair in place of the one of its name, or behind all others.
fn keep(
    alloc: Global,
    files: &mut Vec<(String, Vec<u8>)>,
    name: &str,
    bytes: &[u8],
) -> Result<(), AllocError>
    requires { HasDistinctNames (files_of files.old.items) }
    ensures distinct { HasDistinctNames (files_of files.new.items) }
    ensures kept { OnOk result (Puts name.now bytes.now (files_of files.old.items)
        (files_of files.new.items) Put.Kept) }
    ensures memory { OnErr result (files.new.items ≡ files.old.items) }
{
    let pair = (
        String::from_str(alloc, name)?,
        Vec::from_slice(alloc, bytes)?,
    );
    match place_of(files, name) {
        Some(at) => files[at] = pair,
        None => files.push(pair)?,
    }
    Ok(())
}
