// The words of the command `batch`: the answers to the request lines of an input.
ghost use Rattle.std.specs.Prelude.{◌≡◌, drop, map, option_map, string_bytes};
ghost use Rattle.commands.specs.Commands.{asked_seen, batch_asked, IsReadAs};
ghost use Rattle.commands.specs.Words.{without_dashes};

use crate::numbers::{read_frames, read_seats};
use crate::program::Asked;
use crate::words::{WordFault, matches_of};
use std::alloc::Global;

/// What `batch` and the words behind it ask for: WORKERS FRAMES.
#[tactic(auto, using(crate::proofs::Counted::no_batch))]
pub(crate) fn read(alloc: Global, words: &[String]) -> Result<Asked, WordFault>
    ensures { IsReadAs (batch_asked (without_dashes (drop 1 (map string_bytes words.now)))) result }
{
    let matches = matches_of(alloc, "batch", words)?;
    let Some(values) = matches.get_strs("values") else {
        return Err(WordFault::Usage);
    };
    asked_by(values).ok_or(WordFault::Usage)
}

// What words ask for, of which there have to be two.
fn asked_by(words: &[&str]) -> Option<Asked>
    ensures { option_map asked_seen result ≡ batch_asked (map (λ word. word.now) words.now) }
{
    match words {
        [workers, frames] => Some(Asked::Batch {
            workers: read_seats(workers)?,
            frames: read_frames(frames)?,
        }),
        _ => None,
    }
}
