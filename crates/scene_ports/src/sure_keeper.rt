// A keeper of files in memory that never fails.
ghost use Rattle.std.specs.Prelude.{◌≡◌, ◌++◌, ◌∷◌, None, Some, [], OnOk, OnErr, position, string_bytes};
ghost use Rattle.std.proofs.Props.{props};
ghost use Rattle.std.specs.Str.{bytes_eq};
ghost use Rattle.scene_ports.specs.Files.{files_of, HasDistinctNames, HasDistinctNames-prop};
ghost use Rattle.scene_ports.specs.Keeper.{Puts};
ghost use Rattle.scene_ports.specs.Places.{HasPlaces};

use crate::{FileKeeper, Put};
use std::alloc::{AllocError, Global};
use std::collections::HashMap;

/// Files in memory, in the order of their first puts, and the place of each name, so that a put takes as long among
/// many files as among few. No put of them fails, so a writer that reports a write fault over them is refused by its
/// own contract.
#[derive(Drop)]
pub struct SureKeeper {
    files: Vec<(String, Vec<u8>)>,
    places: HashMap<String, usize>,
    alloc: Global,
    ghost names: { HasDistinctNames (files_of files.items) } by { HasDistinctNames-prop _ },
    ghost placed: { HasPlaces places files.items } by { Prim.hlevel props },
}

impl SureKeeper {
    /// A keeper of no files.
    pub fn new(alloc: Global) -> SureKeeper
        ensures kept { ⟦<SureKeeper as FileKeeper>⟧.kept result ≡ Some [] }
    {
        SureKeeper {
            files: Vec::new(alloc),
            places: HashMap::new(alloc),
            alloc,
        }
    }

    /// The files that are kept.
    pub fn into_files(self) -> Vec<(String, Vec<u8>)>
        ensures kept { ⟦<SureKeeper as FileKeeper>⟧.kept self ≡ Some (files_of result.items) }
        ensures distinct { HasDistinctNames (files_of result.items) }
    {
        self.files
    }

    // Puts the pair in place of the one of its name, or behind all others.
    fn keep(&mut self, name: &str, bytes: &[u8]) -> Result<(), AllocError>
        ensures kept { OnOk result (Puts name.now bytes.now (files_of self.old.files.items)
            (files_of self.new.files.items) Put.Kept) }
        ensures memory { OnErr result (self.new.files.items ≡ self.old.files.items) }
    {
        let pair = (
            String::from_str(self.alloc, name)?,
            Vec::from_slice(self.alloc, bytes)?,
        );
        match self.places.get(name).copied() {
            Some(at) => {
                self.files[at] = pair;
                Ok(())
            }
            None => self.add(pair),
        }
    }

    // Puts the pair behind all others. All that may want memory comes before the first change.
    fn add(&mut self, pair: (String, Vec<u8>)) -> Result<(), AllocError>
        requires { position (λ other. bytes_eq (string_bytes other.0) (string_bytes pair.0)) self.old.files.items
            ≡ None }
        ensures added { OnOk result (self.new.files.items ≡ self.old.files.items ++ pair ∷ []) }
        ensures memory { OnErr result (self.new.files.items ≡ self.old.files.items) }
    {
        let key = pair.0.clone()?;
        self.files.reserve(1)?;
        self.places.insert(key, self.files.len())?;
        match self.files.push(pair) {
            Ok(()) => Ok(()),
            Err(_) => unreachable!(),
        }
    }
}

impl FileKeeper for SureKeeper {
    ghost kept = { λ s. Some (files_of s.files.items) };

    ghost faults = { λ _. 0 };

    ghost distinct = { λ s. s.names };

    fn put(&mut self, name: &str, bytes: &[u8]) -> Put {
        match self.keep(name, bytes) {
            Ok(()) => Put::Kept,
            Err(_) => Put::Memory,
        }
    }
}
