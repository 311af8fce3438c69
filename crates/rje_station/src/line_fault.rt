//! Why a line did nothing.
use thiserror::Error;

/// Why a line did nothing.
#[derive(Clone, Copy, Debug, PartialEq, Eq, Error)]
pub enum LineFault {
    /// The other end closed the line.
    #[error("line closed")]
    Closed,
    /// The line doesn't work.
    #[error("line failed")]
    Failed,
}
