// What viewers answer.

/// What viewers answer to a request line.
#[derive(Clone, Copy, Debug, PartialEq, Eq)]
pub enum ViewersAnswer {
    /// The line is refused by the rule of this number.
    Refused(u64),
    /// All frames are in use.
    Busy,
    /// A file could not be read.
    ReadFault,
    /// A text of so many bytes stands ready to be given.
    Text(u64),
    /// There was no memory.
    Memory,
}
