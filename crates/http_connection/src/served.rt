// How a connection was served.

/// How the serving of a connection ended.
#[derive(Clone, Copy, Debug, PartialEq, Eq)]
pub enum ServedEnd {
    /// All requests have their replies, and the connection is to be closed: the last reply said so, or the client has
    /// ended it.
    Closed,
    /// The link failed, and has counted a fault.
    LinkFault,
    /// There was no memory.
    Memory,
}

/// How a connection was served, and how many replies were given whole.
#[derive(Clone, Copy, Debug, PartialEq, Eq)]
pub struct Served {
    pub end: ServedEnd,
    pub replies: u32,
}
