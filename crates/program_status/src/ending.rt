// What the program does last.
ghost use Rattle.std.specs.Prelude.{◌≡◌, option_map};
ghost use Rattle.std.specs.Process.{exit_status};
ghost use Rattle.program_status.specs.Endings.{exit_of, error_text, line_text};

use crate::status::Status;
use std::fmt::{self, Display, Formatter, Write};
use std::process::ExitCode;

/// The line on standard error that tells of a status.
#[derive(Clone, Copy, Debug, PartialEq, Eq)]
pub struct ErrorLine {
    status: Status,
}

impl Display for ErrorLine {
    ghost use Rattle.std.specs.Prelude.{Some};
    ghost use Rattle.program_status.specs.Endings.{line_text};

    ghost output = { λ line. Some (line_text line) };

    fn fmt<W: Write>(&self, f: &mut Formatter<W>) -> fmt::Result {
        let status = self.status;
        write!(f, "view: {status}")
    }
}

/// What the program does last: it may write a line on standard error, and it ends with an exit status.
#[derive(Drop)]
pub struct Ending {
    /// None where the status is Done.
    pub line: Option<ErrorLine>,
    pub code: ExitCode,
}

impl Ending {
    /// What the program does last where a call ended with this status.
    pub fn new(status: Status) -> Ending
        ensures line { option_map line_text result.line ≡ error_text status }
        ensures code { exit_status result.code ≡ exit_of status }
    {
        let line = match status {
            Status::Done => None,
            _ => Some(ErrorLine { status }),
        };
        Ending {
            line,
            code: ExitCode::from(exit_code(status)),
        }
    }
}

// The exit status of a status.
fn exit_code(status: Status) -> u8
    ensures { result ≡ exit_of status }
{
    match status {
        Status::Done => 0,
        Status::Faulted => 1,
        Status::Usage => 2,
        Status::BadLayout(_) => 3,
        Status::ReadFault => 4,
        Status::WriteFault => 5,
        Status::InputFault => 6,
        Status::Memory => 7,
        Status::InputLong => 8,
        Status::ListenFault => 11,
    }
}
