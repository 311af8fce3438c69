//! Why there is no report of a run.
ghost use Rattle.std.specs.Prelude.{◌≡◌};
ghost use Rattle.line_world.specs.declared.world_fault.WorldFault.TheVariants.{OutOfMemory};
ghost use Rattle.line_world.specs.Faults.{fault_of, fault_in};

use rje_station::StationFault;
use std::alloc::AllocError;
use thiserror::Error;

/// Why there is no report of a run. Attempts, turns and jobs count from 1.
#[derive(Clone, Copy, Debug, PartialEq, Eq, Error)]
pub enum WorldFault {
    /// There is no memory for the run.
    #[error("out of memory")]
    OutOfMemory,
    /// A fate's bytes are no damage of what was sent: its attempt and turn.
    #[error("attempt {0} turn {1} is no damage")]
    NotDamage(usize, usize),
    /// The cuts of a fate don't fit what was sent: its attempt and turn.
    #[error("attempt {0} turn {1} has a bad cut")]
    BadCut(usize, usize),
    /// A job that can't be sent: its number.
    #[error("job {0} can't be sent")]
    BadJob(usize),
}

impl WorldFault {
    /// The same fault in this attempt.
    pub(crate) fn in_attempt(self, attempt: usize) -> WorldFault
        ensures { result ≡ fault_in self attempt }
    {
        match self {
            WorldFault::NotDamage(_, turn) => WorldFault::NotDamage(attempt, turn),
            WorldFault::BadCut(_, turn) => WorldFault::BadCut(attempt, turn),
            fault => fault,
        }
    }
}

impl From<AllocError> for WorldFault {
    ghost from_gives = { λ _ fault. fault ≡ OutOfMemory };

    fn from(_refused: AllocError) -> WorldFault {
        WorldFault::OutOfMemory
    }
}

/// A new station tells a job that can't be sent, or want of memory.
impl From<StationFault> for WorldFault {
    ghost from_gives = { λ station fault. fault ≡ fault_of station };

    fn from(fault: StationFault) -> WorldFault {
        match fault {
            StationFault::BadJob(number) => WorldFault::BadJob(number),
            _ => WorldFault::OutOfMemory,
        }
    }
}
