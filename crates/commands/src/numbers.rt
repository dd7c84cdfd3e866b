// Numbers in ranges that begin at 1.
ghost use Rattle.std.specs.Prelude.{◌≡◌};
ghost use Rattle.commands.specs.Words.{number_to as number_of_word, seats_of_word, frames_of_word, port_of_word};

use request_text::read_number;

// The most passes, viewers and workers.
const MOST_SEATS: u32 = 64;

const MOST_FRAMES: u32 = 1024;

const LAST_PORT: u32 = 65_535;

/// The passes, viewers or workers of a word, 1 to 64. None where it is no number of these.
pub(crate) fn read_seats(word: &str) -> Option<u32>
    ensures { result ≡ seats_of_word word.now }
{
    number_to(MOST_SEATS, word)
}

/// The frames of a word, 1 to 1,024. None where it is no number of these.
pub(crate) fn read_frames(word: &str) -> Option<u32>
    ensures { result ≡ frames_of_word word.now }
{
    number_to(MOST_FRAMES, word)
}

/// The port of a word, 1 to 65,535. None where it is no number of these.
pub(crate) fn read_port(word: &str) -> Option<u32>
    ensures { result ≡ port_of_word word.now }
{
    number_to(LAST_PORT, word)
}

// The number of a word, 1 to `last`. None where it is no number of these.
fn number_to(last: u32, word: &str) -> Option<u32>
    ensures { result ≡ number_of_word last word.now }
{
    let number = read_number(word.as_bytes())?;
    if 1 <= number && number <= last {
        Some(number)
    } else {
        None
    }
}
