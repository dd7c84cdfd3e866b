// Fetching the layout.
ghost use Rattle.std.specs.Prelude.{◌≡◌, ◌≤◌, Err, IfSome, IfErr};
ghost use Rattle.scene_ports.specs.Counts.{Rose};
ghost use Rattle.program_status.specs.Sets.{IsOneOf};
ghost use Rattle.commands.specs.Replies.{layout_wanted, Agrees, early_ends};

use program_status::Status;
use scene_ports::{Fetch, FileSource, MOST_FILE_BYTES};
use std::alloc::Global;
use tileset_json::{Layout, LayoutFault};

/// The faults of `tileset.json` that a fetch shows.
const MISSING: u64 = 1;

const TOO_LONG: u64 = 2;

/// Fetches `tileset.json` and reads the layout. The `Err` is the status with which the program ends.
pub(crate) fn fetch_layout<S: FileSource>(alloc: Global, files: &mut S) -> Result<Layout, Status>
    ensures agrees { IfSome (S.told files.old) (λ all. Agrees (layout_wanted all) result) }
    ensures early { IfErr result (IsOneOf early_ends) }
    ensures failed { result ≡ Err Status.ReadFault → Rose (S.faults files.old) (S.faults files.new) }
    ensures later { S.faults files.old ≤ S.faults files.new }
    ensures same { S.told files.new ≡ S.told files.old }
{
    let mut bytes = Vec::new(alloc);
    match files.fetch("tileset.json", MOST_FILE_BYTES, &mut bytes) {
        Fetch::Whole => {}
        Fetch::Missing => return Err(Status::BadLayout(MISSING)),
        Fetch::TooLong => return Err(Status::BadLayout(TOO_LONG)),
        Fetch::Failed => return Err(Status::ReadFault),
        Fetch::Memory => return Err(Status::Memory),
    }
    match Layout::read(alloc, &bytes) {
        Ok(layout) => Ok(layout),
        Err(LayoutFault::Number(number)) => Err(Status::BadLayout(number)),
        Err(LayoutFault::Memory) => Err(Status::Memory),
    }
}
