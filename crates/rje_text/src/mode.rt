//! How the texts of a job are written.

/// How the texts of a job are written.
#[derive(Clone, Copy, Debug, PartialEq, Eq)]
pub enum Mode {
    /// Records with their blanks compressed, each ended by an IRS.
    Normal,
    /// Cards of 80 bytes, as they are.
    Transparent,
}
