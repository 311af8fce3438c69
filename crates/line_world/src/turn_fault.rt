//! Why a turn of two stations came to nothing.
ghost use Rattle.std.specs.Prelude.{◌≡◌};
ghost use Rattle.line_world.specs.declared.turn_fault.TurnFault.TheVariants.{OutOfMemory};
ghost use Rattle.line_world.specs.Faults.{fault_at};

use crate::WorldFault;
use std::alloc::AllocError;

/// Why a turn of two stations came to nothing.
#[derive(Clone, Copy, Debug, PartialEq, Eq)]
pub enum TurnFault {
    /// There is no memory for the pieces.
    OutOfMemory,
    /// A fate's bytes are no damage of what was sent.
    NotDamage,
    /// The cuts of a fate don't fit what was sent.
    BadCut,
}

impl TurnFault {
    /// The fault of a run in its first attempt, in this turn.
    pub fn at(self, turn: usize) -> WorldFault
        ensures { result ≡ fault_at self turn }
    {
        match self {
            TurnFault::OutOfMemory => WorldFault::OutOfMemory,
            TurnFault::NotDamage => WorldFault::NotDamage(1, turn),
            TurnFault::BadCut => WorldFault::BadCut(1, turn),
        }
    }
}

impl From<AllocError> for TurnFault {
    ghost from_gives = { λ _ fault. fault ≡ OutOfMemory };

    fn from(_refused: AllocError) -> TurnFault {
        TurnFault::OutOfMemory
    }
}
