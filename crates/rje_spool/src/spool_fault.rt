//! Why a spool fails.

use rje_folder::FolderFault;
use std::alloc::AllocError;
use thiserror::Error;

/// Why a spool fails.
#[derive(Debug, Drop, PartialEq, Eq, Error)]
pub enum SpoolFault {
    /// There is no memory.
    #[error("out of memory")]
    OutOfMemory,
    /// A folder of the station, or a file there, can't be used.
    #[error("{0}")]
    Folder(FolderFault),
    /// The file of a job can't be dealt with: the operator was told which, and why.
    #[error("{0}")]
    OfFile(FolderFault),
}

impl From<FolderFault> for SpoolFault {
    fn from(fault: FolderFault) -> SpoolFault {
        match fault {
            FolderFault::OutOfMemory => SpoolFault::OutOfMemory,
            fault => SpoolFault::Folder(fault),
        }
    }
}

impl From<AllocError> for SpoolFault {
    fn from(_refused: AllocError) -> SpoolFault {
        SpoolFault::OutOfMemory
    }
}
