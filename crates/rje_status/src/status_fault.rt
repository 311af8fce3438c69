//! Why the folder of a station can't be read.
use std::alloc::AllocError;
use std::io::{self, ErrorKind};
use thiserror::Error;

/// Why the folder of a station can't be read.
#[derive(Clone, Copy, Debug, PartialEq, Eq, Error)]
pub enum StatusFault {
    /// There is no memory for it.
    #[error("out of memory")]
    OutOfMemory,
    /// There is no such folder.
    #[error(": no such folder")]
    NoFolder,
    /// This part of it can't be read, or it itself where that is none, and why.
    #[error("{0}: {1}")]
    Failed(&'static str, ErrorKind),
}

impl StatusFault {
    /// Why the folder itself can't be read.
    pub(crate) fn of_folder(error: &io::Error) -> StatusFault {
        match error.kind() {
            ErrorKind::NotFound => StatusFault::NoFolder,
            _ => StatusFault::of("", error),
        }
    }

    /// Why this part can't be read.
    pub(crate) fn of(part: &'static str, error: &io::Error) -> StatusFault {
        match error.kind() {
            ErrorKind::OutOfMemory => StatusFault::OutOfMemory,
            kind => StatusFault::Failed(part, kind),
        }
    }
}

impl From<AllocError> for StatusFault {
    fn from(_refused: AllocError) -> StatusFault {
        StatusFault::OutOfMemory
    }
}
