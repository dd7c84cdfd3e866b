// What the file of a subtree root holds, and reading it.
ghost use Rattle.std.specs.Prelude.{◌≡◌, ◌≢◌, ◌≤◌, ◌-◌, ◌∷◌, [], IfOk, IfSome, Err};
ghost use Rattle.implicit_tiling.specs.Availability.{IsRootOf};
ghost use Rattle.implicit_tiling.specs.Files.{file};
ghost use Rattle.implicit_tileset.specs.SubtreeFile.{outcome_from};
ghost use Rattle.implicit_tileset.specs.FileOutcome.{subtree_found, needed_names};
ghost use Rattle.implicit_tileset.specs.Scene.{scene_of};
ghost use Rattle.scene_ports.specs.Counts.{Rose, one_more, more_by};
ghost use Rattle.subtree_outcome.specs.Outcomes.{outcome_seen, IsOutcomeAt};
ghost use Rattle.subtree_outcome.specs.Reading.{fault_outcome};
ghost use Rattle.subtree_outcome.specs.Fetched.{HasFetched, HasFetchedBuffers, most_fetches};

use crate::buffers::fetch_buffers;
use availability::Subtree;
use scene_ports::{Fetch, FileSource, MOST_FILE_BYTES};
use std::alloc::{AllocError, AllocFailed, Global};
use subtree_file::{DecodeFault, SubtreeFile};
use tile_coords::Tile;
use tileset_json::Layout;

// The faults of files that aren't read (this project's own).
const MISSING: u64 = 1;

const TOO_LONG: u64 = 2;

/// What the file of a subtree root holds, with the files of its buffers.
#[derive(Drop)]
pub enum Outcome {
    /// A subtree of the layout that begins with the root.
    Good(Subtree),
    /// The number of the first fault: 1 that there is no such file, 2 that it has more than `MOST_FILE_BYTES`, or one
    /// of 3 to 20 that its bytes and the files of its buffers show.
    Bad(u64),
}

/// Why a walk stops before its end.
#[derive(Clone, Copy, Debug, PartialEq, Eq)]
pub enum WalkStop {
    /// The source failed, and has counted a fault.
    ReadFault,
    /// There was no memory.
    Memory,
}

impl From<AllocError> for WalkStop {
    ghost use Rattle.std.specs.Prelude.{◌≡◌};
    ghost use Rattle.subtree_outcome.specs.declared.outcome.WalkStop.TheVariants.{Memory};

    ghost from_gives = { λ _ stop. stop ≡ Memory };

    fn from(_: AllocError) -> WalkStop {
        WalkStop::Memory
    }
}

impl<T: Drop> From<AllocFailed<T>> for WalkStop {
    ghost use Rattle.std.specs.Prelude.{◌≡◌};
    ghost use Rattle.subtree_outcome.specs.declared.outcome.WalkStop.TheVariants.{Memory};

    ghost from_gives = { λ _ stop. stop ≡ Memory };

    fn from(_: AllocFailed<T>) -> WalkStop {
        WalkStop::Memory
    }
}

/// Reads the subtree of a root, a tile of the layout at a level where subtrees begin (OGC 22-025r4, implicit tiling:
/// subtrees): by one fetch of its file, and one of each file of an external buffer that it uses, which have together at
/// most `MOST_FILE_BYTES`. A missing file is the tileset's fault, so Bad; ReadFault is the source's alone, and no file
/// is fetched after it. Memory may come before the first fetch.
pub fn read_subtree<S: FileSource>(
    alloc: Global,
    files: &mut S,
    layout: &Layout,
    root: Tile,
) -> Result<Outcome, WalkStop>
    requires { IsRootOf layout.now root }
    ensures told { IfSome (S.told files.old)
        (λ all. IfOk result (λ found. (scene_of all layout.now).outcome root ≡ outcome_seen found)) }
    ensures found { IfOk result (IsOutcomeAt layout.now root) }
    ensures failed { result ≡ Err WalkStop.ReadFault → Rose (S.faults files.old) (S.faults files.new) }
    ensures sure { result ≢ Err WalkStop.ReadFault → S.faults files.new ≡ S.faults files.old }
    ensures later { S.faults files.old ≤ S.faults files.new }
    ensures fetched { IfOk result (λ found. HasFetched layout.now (S.told files.old) (root ∷ [])
        (S.fetches files.old) (S.fetches files.new)) }
    ensures asked { result ≢ Err WalkStop.Memory → one_more (S.fetches files.old) ≤ S.fetches files.new }
    ensures at_most { S.fetches files.new ≤ more_by (most_fetches layout.now) (S.fetches files.old) }
    ensures grown { S.fetches files.old ≤ S.fetches files.new }
    ensures same { S.told files.new ≡ S.told files.old }
{
    let mut name = String::new(alloc);
    let coordinates = [root.x, root.y, root.z];
    layout
        .subtree
        .fill(layout.scheme.axes(), root.level, coordinates, &mut name)?;
    let mut bytes = Vec::new(alloc);
    match files.fetch(name.as_str(), MOST_FILE_BYTES, &mut bytes) {
        Fetch::Whole => read_file(alloc, files, layout, root, &bytes),
        Fetch::Missing => Ok(Outcome::Bad(MISSING)),
        Fetch::TooLong => Ok(Outcome::Bad(TOO_LONG)),
        Fetch::Failed => Err(WalkStop::ReadFault),
        Fetch::Memory => Err(WalkStop::Memory),
    }
}

// The subtree that a file holds with the files of its buffers, which are fetched.
fn read_file<S: FileSource>(
    alloc: Global,
    files: &mut S,
    layout: &Layout,
    root: Tile,
    bytes: &[u8],
) -> Result<Outcome, WalkStop>
    requires { IsRootOf layout.now root }
    ensures told { IfSome (S.told files.old) (λ all. IfOk result (λ found. outcome_from
        (subtree_found (λ name. file name all) layout.now root bytes.now) ≡ outcome_seen found)) }
    ensures found { IfOk result (IsOutcomeAt layout.now root) }
    ensures failed { result ≡ Err WalkStop.ReadFault → Rose (S.faults files.old) (S.faults files.new) }
    ensures sure { result ≢ Err WalkStop.ReadFault → S.faults files.new ≡ S.faults files.old }
    ensures later { S.faults files.old ≤ S.faults files.new }
    ensures fetched { IfOk result (λ found. HasFetchedBuffers layout.now (needed_names layout.now root bytes.now)
        (S.fetches files.old) (S.fetches files.new)) }
    ensures at_most { S.fetches files.new ≤ more_by (most_fetches layout.now - 1) (S.fetches files.old) }
    ensures grown { S.fetches files.old ≤ S.fetches files.new }
    ensures same { S.told files.new ≡ S.told files.old }
{
    let file = match SubtreeFile::open(alloc, layout, bytes) {
        Ok(file) => file,
        Err(fault) => return outcome_of_fault(fault),
    };
    let names = match file.needed_buffers(alloc, layout, root) {
        Ok(names) => names,
        Err(fault) => return outcome_of_fault(fault),
    };
    let buffers = fetch_buffers(alloc, files, &names)?;
    match file.decode(alloc, layout, root, &buffers) {
        Ok(subtree) => Ok(Outcome::Good(subtree)),
        Err(fault) => outcome_of_fault(fault),
    }
}

// A fault is what the file holds; want of memory is none.
fn outcome_of_fault(fault: DecodeFault) -> Result<Outcome, WalkStop>
    ensures { result ≡ fault_outcome fault }
{
    match fault {
        DecodeFault::Fault(number) => Ok(Outcome::Bad(number)),
        DecodeFault::Memory => Err(WalkStop::Memory),
    }
}
