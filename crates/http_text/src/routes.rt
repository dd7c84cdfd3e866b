// The paths that are served.

/// What a request asks for (this project's own).
#[derive(Clone, Copy, Debug, PartialEq, Eq)]
pub enum Route {
    /// The answer for a plan: `/tiles`.
    Tiles,
    /// What is published of it: `/prefix`.
    Prefix,
    /// There is no such path.
    NotFound,
}
