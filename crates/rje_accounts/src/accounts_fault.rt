//! Why a station's accounts can't be used.

use std::alloc::AllocError;
use std::io::{self, ErrorKind};
use thiserror::Error;

/// Why a station's accounts can't be used.
#[derive(Clone, Copy, Debug, PartialEq, Eq, Error)]
pub enum AccountsFault {
    /// There is no memory for it.
    #[error("out of memory")]
    OutOfMemory,
    /// Its folder settle/, or a file that has a name there, can't be used, and why.
    #[error("settle: {0}")]
    Failed(ErrorKind),
    /// Two names there tell the same number of jobs, and not the same jobs.
    #[error("settle: two counts of one number")]
    TwoOfOneNumber,
    /// No more jobs can be counted.
    #[error("settle: no more jobs can be counted")]
    CountFull,
    /// Another file has the name of the one that was read, or that one was written to.
    #[error("replaced while it was being sent")]
    Replaced,
}

impl From<io::Error> for AccountsFault {
    fn from(error: io::Error) -> AccountsFault {
        match error.kind() {
            ErrorKind::OutOfMemory => AccountsFault::OutOfMemory,
            kind => AccountsFault::Failed(kind),
        }
    }
}

impl From<AllocError> for AccountsFault {
    fn from(_refused: AllocError) -> AccountsFault {
        AccountsFault::OutOfMemory
    }
}
