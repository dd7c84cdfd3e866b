// The words of the command `serve`: the answers to requests over HTTP.
ghost use Rattle.std.specs.Prelude.{◌≡◌, drop, map, option_map, string_bytes};
ghost use Rattle.commands.specs.Commands.{asked_seen, serve_asked, IsReadAs};
ghost use Rattle.commands.specs.Words.{without_dashes};

use crate::numbers::{read_frames, read_port, read_seats};
use crate::program::Asked;
use crate::words::{WordFault, matches_of};
use std::alloc::Global;

/// What `serve` and the words behind it ask for: PORT VIEWERS FRAMES.
#[tactic(auto, using(crate::proofs::Counted::no_serve))]
pub(crate) fn read(alloc: Global, words: &[String]) -> Result<Asked, WordFault>
    ensures { IsReadAs (serve_asked (without_dashes (drop 1 (map string_bytes words.now)))) result }
{
    let matches = matches_of(alloc, "serve", words)?;
    let Some(values) = matches.get_strs("values") else {
        return Err(WordFault::Usage);
    };
    asked_by(values).ok_or(WordFault::Usage)
}

// What words ask for, of which there have to be three.
fn asked_by(words: &[&str]) -> Option<Asked>
    ensures { option_map asked_seen result ≡ serve_asked (map (λ word. word.now) words.now) }
{
    match words {
        [port, viewers, frames] => Some(Asked::Serve {
            port: read_port(port)?,
            viewers: read_seats(viewers)?,
            frames: read_frames(frames)?,
        }),
        _ => None,
    }
}
