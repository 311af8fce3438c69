//! How a transmission of the station's own ended.
ghost use Rattle.std.specs.Prelude.{◌≡◌};

use crate::Disposition;

/// How a transmission of the station's own ended.
#[derive(Clone, Copy, Debug, PartialEq, Eq)]
pub enum Ended {
    /// All its jobs were counted.
    Done,
    /// It ended early: its first jobs were counted, and of the next one the last block wasn't out, or is known not to have been accepted.
    Early {
        /// How many jobs were counted.
        counted: usize,
    },
    /// It ended while the last block of a job was out: its first jobs were counted, and the next one may have arrived.
    InDoubt {
        /// How many jobs were counted.
        counted: usize,
    },
}

impl Ended {
    ghost use Rattle.rje_day.specs.Ended.{disposition_of, was_answered};

    /// What becomes of a job of the transmission; `job` is its number there, from 0.
    pub fn disposition(self, job: usize) -> Disposition
        ensures { result ≡ disposition_of self job }
    {
        match self {
            Ended::Early { counted } if job >= counted => Disposition::Ready,
            Ended::InDoubt { counted } if job == counted => Disposition::InDoubt,
            Ended::InDoubt { counted } if job > counted => Disposition::Ready,
            _ => Disposition::Sent,
        }
    }

    /// Whether the other end answered, as something was counted or is in doubt.
    pub(crate) fn was_answered(self) -> bool
        ensures { result ≡ was_answered self }
    {
        match self {
            Ended::Early { counted } => counted > 0,
            Ended::Done | Ended::InDoubt { .. } => true,
        }
    }
}
