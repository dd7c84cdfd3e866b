// The words of a command, as `clap` takes them.
ghost use Rattle.std.specs.Prelude.{◌≡◌, true, Err, drop, length, map, string_bytes, IfOk};
ghost use Rattle.clap.specs.Words.{app_of};
ghost use Rattle.commands.specs.Values.{command, values_of};
ghost use Rattle.commands.specs.Words.{has_hyphen, without_dashes};

use clap::error::ErrorKind;
use clap::{Arg, ArgMatches, Command};
use std::alloc::{AllocError, Global};

/// Why words ask for nothing.
#[derive(Clone, Copy, Debug, PartialEq, Eq)]
pub enum WordFault {
    /// The words aren't those of a command.
    Usage,
    /// There was no memory.
    Memory,
}

impl From<AllocError> for WordFault {
    ghost use Rattle.commands.specs.declared.words.WordFault.TheVariants.{Memory};

    ghost from_gives = { λ _ fault. fault ≡ Memory };

    fn from(_error: AllocError) -> WordFault {
        WordFault::Memory
    }
}

/// A command's name and the words behind it, as `clap` takes them. Where it refuses them, one begins with a hyphen.
pub(crate) fn matches_of<'a>(
    alloc: Global,
    name: &'a str,
    words: &'a [String],
) -> Result<ArgMatches<'a>, WordFault>
    ensures taken { IfOk result (λ matches. values_of matches ≡ without_dashes (drop 1 (map string_bytes words.now))) }
    ensures refused { result ≡ Err WordFault.Usage → has_hyphen (without_dashes (drop 1 (map string_bytes words.now)))
        ≡ true }
{
    let _count = count_of(words);
    let command = command_of(alloc, name)?;
    match command.try_get_matches_from(words) {
        Ok(matches) => Ok(matches),
        Err(error) => match error.kind() {
            ErrorKind::OutOfMemory => Err(WordFault::Memory),
            _ => Err(WordFault::Usage),
        },
    }
}

// The command of a name: any number of values, and neither help nor version.
fn command_of<'a>(alloc: Global, name: &'a str) -> Result<Command<'a>, AllocError>
    ensures { IfOk result (λ made. app_of made ≡ command name.now) }
{
    let values = Arg::new(alloc, "values").num_args(..);
    let start = Command::new(alloc, name)
        .disable_help_flag(true)
        .disable_version_flag(true);
    start.arg(values)
}

// How many words there are: fewer than 2^64, which a slice itself does not show.
fn count_of(words: &[String]) -> usize
    ensures { result ≡ length words.now }
{
    words.len()
}
