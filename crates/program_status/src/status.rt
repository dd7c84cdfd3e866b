// The statuses of the program.
use std::fmt::{self, Display, Formatter, Write};

/// How a call of the program ends (this project's own).
#[derive(Clone, Copy, Debug, PartialEq, Eq)]
pub enum Status {
    /// The whole text was given.
    Done,
    /// The whole text was given, and it tells of a faulty subtree file.
    Faulted,
    /// The words aren't those of a command, or the request line was refused: then its refusal was given.
    Usage,
    /// The number of the first fault of `tileset.json`, 1 to 12.
    BadLayout(u64),
    /// The source of files failed, and nothing was given.
    ReadFault,
    /// The outlet failed, and a front of the text was given; or, in `make`, the keeper failed.
    WriteFault,
    /// The inlet failed.
    InputFault,
    /// There was no memory. A front of the text may have been given.
    Memory,
    /// More bytes were read than are taken.
    InputLong,
    /// The port can't be had, or no connection to it.
    ListenFault,
}

/// What the program says of the status on standard error.
impl Display for Status {
    ghost use Rattle.std.specs.Prelude.{Some};
    ghost use Rattle.program_status.specs.Endings.{status_text};

    ghost output = { λ status. Some (status_text status) };

    fn fmt<W: Write>(&self, f: &mut Formatter<W>) -> fmt::Result {
        match self {
            Status::Done => write!(f, "done"),
            Status::Faulted => write!(f, "a subtree is faulty"),
            Status::Usage => write!(f, "usage"),
            Status::BadLayout(number) => write!(f, "layout fault {number}"),
            Status::ReadFault => write!(f, "read fault"),
            Status::WriteFault => write!(f, "write fault"),
            Status::InputFault => write!(f, "input fault"),
            Status::Memory => write!(f, "out of memory"),
            Status::InputLong => write!(f, "input too long"),
            Status::ListenFault => write!(f, "listen fault"),
        }
    }
}
