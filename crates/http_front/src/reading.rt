// What a connection begins with.
use http_text::HeadParts;

/// What is next on a connection (RFC 9112, section 2.2; the limit is this project's own).
#[derive(Clone, Copy, Debug, PartialEq, Eq)]
pub enum Reading {
    /// A whole head.
    Head(HeadParts),
    /// A head of more than `MOST_HEAD_BYTES` bytes: so many are there, and it isn't whole.
    TooLong,
    /// Bytes with which no head begins.
    Bad,
    /// The inlet has ended before a head was whole: between two requests, or in the middle of a head. No reply is due.
    End,
    /// The inlet failed before a head was whole, and has counted a fault.
    Failed,
}
