//! Why a station didn't do what it was asked.
ghost use Rattle.std.specs.Prelude.{◌≡◌};
ghost use Rattle.rje_station.specs.declared.station_fault.StationFault.TheVariants.{OutOfMemory};

use crate::LineFault;
use std::alloc::AllocError;
use thiserror::Error;

/// Why a station didn't do what it was asked.
#[derive(Clone, Copy, Debug, PartialEq, Eq, Error)]
pub enum StationFault {
    /// There is no memory for a new station; the jobs can be sent.
    #[error("out of memory")]
    OutOfMemory,
    /// The line failed. The station is over.
    #[error("{0}")]
    Line(LineFault),
    /// More than 8,192 bytes came in one hearing, and no frame. The station is over.
    #[error("babble")]
    Babble,
    /// The station was over before; the line wasn't touched.
    #[error("the transmission is over")]
    Over,
    /// A job that can't be sent: its number, from 1.
    #[error("job {0} can't be sent")]
    BadJob(usize),
}

impl From<AllocError> for StationFault {
    ghost from_gives = { λ _ fault. fault ≡ OutOfMemory };

    fn from(_refused: AllocError) -> StationFault {
        StationFault::OutOfMemory
    }
}
