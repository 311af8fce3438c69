//! Why a deck makes no job.
ghost use Rattle.std.specs.Prelude.{◌≡◌};
ghost use Rattle.rje_jobs.specs.declared.deck_fault.DeckFault.TheVariants.{OutOfMemory};

use std::alloc::AllocError;
use thiserror::Error;

/// Why a deck makes no job. Lines and columns count from 1.
#[derive(Debug, PartialEq, Eq, Error, Clone, Copy)]
pub enum DeckFault {
    /// The deck has no fault, but there is no memory for its job.
    #[error("out of memory")]
    OutOfMemory,
    /// A line that is longer than a card.
    #[error("deck line {0}: more than 80 columns")]
    LongLine(usize),
    /// A character that has no EBCDIC code: its line and its column.
    #[error("deck line {0} column {1}: no EBCDIC character")]
    BadCharacter(usize, usize),
}

impl From<AllocError> for DeckFault {
    ghost from_gives = { λ _ fault. fault ≡ OutOfMemory };

    fn from(_refused: AllocError) -> DeckFault {
        DeckFault::OutOfMemory
    }
}
