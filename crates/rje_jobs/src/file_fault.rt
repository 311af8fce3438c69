//! Why bytes are not read as jobs, or jobs are not written.
ghost use Rattle.std.specs.Prelude.{◌≡◌};
ghost use Rattle.rje_jobs.specs.declared.file_fault.FileFault.TheVariants.{OutOfMemory};

use std::alloc::AllocError;
use thiserror::Error;

/// Why bytes are not read as jobs, or jobs are not written. Places count from 0.
#[derive(Debug, PartialEq, Eq, Error, Clone, Copy)]
pub enum FileFault {
    /// The bytes are a job file, or can be written, but there is no memory.
    #[error("out of memory")]
    OutOfMemory,
    /// The first four bytes are not RJ37.
    #[error("not a job file")]
    NotJobFile,
    /// A job file of another version.
    #[error("job file version {0} is not read")]
    Version(u16),
    /// The file stops before its end: how many bytes there are.
    #[error("job file ends at byte {0}")]
    Truncated(usize),
    /// A value that its field can't have: its place.
    #[error("job file has a bad field at byte {0}")]
    BadField(usize),
    /// Bytes after the last job: the place of the first of them.
    #[error("job file goes on at byte {0}")]
    Trailing(usize),
    /// An entry that has no name, or a state that its job can't have: its number, counted from 1.
    #[error("job file has a bad entry {0}")]
    BadEntry(usize),
}

impl From<AllocError> for FileFault {
    ghost from_gives = { λ _ fault. fault ≡ OutOfMemory };

    fn from(_refused: AllocError) -> FileFault {
        FileFault::OutOfMemory
    }
}
