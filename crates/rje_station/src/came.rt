//! What came of listening.

/// What came of one call of `listen`.
#[derive(Clone, Copy, Debug, PartialEq, Eq)]
pub enum Came {
    /// This many bytes, at the front of the slice.
    Bytes(usize),
    /// Nothing came in time.
    Quiet,
}
