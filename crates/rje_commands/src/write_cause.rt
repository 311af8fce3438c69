//! Why a file can't be written.
use rje_store::StoreFault;
use thiserror::Error;

/// Why a file can't be written.
#[derive(Clone, Copy, Debug, PartialEq, Eq, Error)]
pub enum WriteCause {
    /// The store fails so.
    #[error("{0}")]
    Store(StoreFault),
    /// It is the file that is sent.
    #[error("it is the file that is sent")]
    IsSent,
    /// It is the file that jobs are taken from.
    #[error("it is the file that jobs are taken from")]
    IsTakenFrom,
    /// There is such a file, and it isn't to be replaced.
    #[error("it is there already")]
    IsThere,
    /// It is a device or a pipe, in which no job can be marked.
    #[error("no job can be marked in a device or a pipe")]
    NoMarks,
    /// More comes than it, or a receiver, can have: bytes of a file, or records or jobs of one transmission.
    #[error("more than can be kept")]
    TooMuch,
}
