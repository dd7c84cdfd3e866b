// What became of the next request of a connection.

/// What became of the next request.
#[derive(Clone, Copy, Debug, PartialEq, Eq)]
pub(crate) enum Next {
    /// It has its reply, and the connection stays open.
    Open,
    /// It has its reply, and the connection is to be closed.
    Closed,
    /// There is none: the client has ended the connection.
    Ended,
    /// The link failed, and has counted a fault.
    LinkFault,
    /// There was no memory.
    Memory,
}
