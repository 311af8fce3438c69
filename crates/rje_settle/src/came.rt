//! What came first on a connection.

/// What came first of the other end's on a connection.
#[derive(Clone, Copy, Debug, PartialEq, Eq)]
pub enum Came {
    /// Nothing yet.
    Nothing,
    /// A receipt: the other end settles.
    Receipt,
    /// A job: the other end doesn't settle, and nothing counts.
    Job,
}
