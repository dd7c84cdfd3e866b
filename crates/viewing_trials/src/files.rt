// A small tileset, and a source of its files that tells nothing of them.
ghost use Rattle.std.specs.Prelude.{◌≡◌, None, length, IfOk};
ghost use Rattle.std.specs.List.{All};
ghost use Rattle.shared_commands.specs.Desks.{IsFree};

use batch_run::Desk;
use scene_ports::{Fetch, FileSource, MemoryFiles};
use std::alloc::{AllocError, Global};
use viewer_session::{ViewerPass, Walked};

// A quadtree of three levels, with one file for all its subtrees of two levels.
const TILESET: &str =
    "{\"root\":{\"implicitTiling\":{\"subdivisionScheme\":\"QUADTREE\",\"subtreeLevels\":2,\"availableLevels\":3,\"subtrees\":{\"uri\":\"all.subtree\"}}}}";

const ALL_ONES: &str =
    "{\"childSubtreeAvailability\":{\"constant\":1},\"tileAvailability\":{\"constant\":1}}   ";

// Files in memory. What a source holds is no matter here.
#[derive(Drop)]
pub(crate) struct Untold {
    files: MemoryFiles,
    fetches: u64,
}

impl Untold {
    // How often it was asked.
    pub(crate) fn fetches(&self) -> u64 {
        self.fetches
    }
}

impl FileSource for Untold {
    ghost told = { λ _. None };

    ghost faults = { λ s. ⟦<MemoryFiles as FileSource>⟧.faults s.files };

    ghost fetches = { λ s. s.fetches };

    ghost distinct = { λ _. tt };

    fn fetch(&mut self, name: &str, limit: usize, out: &mut Vec<u8>) -> Fetch {
        self.fetches = self.fetches.saturating_add(1);
        self.files.fetch(name, limit, out)
    }
}

// A subtree file of a JSON part of less than 256 bytes alone, a multiple of 8.
fn packed(alloc: Global, json: &str) -> Result<Vec<u8>, AllocError> {
    let mut bytes = Vec::from_slice(alloc, b"subt\x01\0\0\0")?;
    bytes.push((json.len() % 256) as u8)?;
    bytes.extend_from_slice(&[0; 15])?;
    bytes.extend_from_slice(json.as_bytes())?;
    Ok(bytes)
}

// The files of the tileset, or of one with this text; the fetches of these numbers fail.
pub(crate) fn source(
    alloc: Global,
    tileset: Option<&str>,
    failing: &[u64],
) -> Result<Untold, AllocError> {
    let mut files = Vec::new(alloc);
    let text = tileset.unwrap_or(TILESET);
    files.push((
        String::from_str(alloc, "tileset.json")?,
        Vec::from_slice(alloc, text.as_bytes())?,
    ))?;
    files.push((
        String::from_str(alloc, "all.subtree")?,
        packed(alloc, ALL_ONES)?,
    ))?;
    let Some(files) = MemoryFiles::new(files, failing.to_vec(alloc)?) else {
        return Err(AllocError);
    };
    Ok(Untold { files, fetches: 0 })
}

// The desks of so many workers, each with such a source.
pub(crate) fn desks_for(
    alloc: Global,
    workers: usize,
    tileset: Option<&str>,
    failing: &[u64],
) -> Result<Vec<Desk<Untold, ViewerPass, Walked>>, AllocError>
    ensures count { IfOk result (λ desks. length desks.items ≡ workers) }
    ensures free { IfOk result (λ desks. All (IsFree ⟦<Untold as FileSource>⟧.told None) desks.items) }
{
    let mut desks = Vec::new(alloc);
    for _ in 0..workers {
        desks.push(Desk::new(alloc, source(alloc, tileset, failing)?))?;
    }
    Ok(desks)
}
