//! How a command over a line ends.
ghost use Rattle.std.specs.Prelude.{◌≡◌};
ghost use Rattle.rje_sockets.specs.Ending.{ending_of, ending_of_left, ending_status};

use crate::receive_end::ReceiveEnd;
use bsc_link::Outcome;

/// How a transmission ended that no fault ended.
#[derive(Clone, Copy, Debug, PartialEq, Eq)]
pub enum Ending {
    /// All was sent, or the sender ended it.
    Done,
    /// Some was not sent, or the receiver left.
    Other,
}

impl Ending {
    /// The exit status.
    pub fn status(self) -> u8
        ensures status { result ≡ ending_status self }
    {
        match self {
            Ending::Done => 0,
            Ending::Other => 4,
        }
    }
}

impl From<Option<Outcome>> for Ending {
    ghost from_gives = { λ outcome ending. ending ≡ ending_of outcome };

    fn from(outcome: Option<Outcome>) -> Ending {
        match outcome {
            Some(Outcome::Done) => Ending::Done,
            _ => Ending::Other,
        }
    }
}

impl From<ReceiveEnd> for Ending {
    ghost from_gives = { λ left ending. ending ≡ ending_of_left left };

    fn from(left: ReceiveEnd) -> Ending {
        match left {
            ReceiveEnd::Ended => Ending::Done,
            ReceiveEnd::Abandoned => Ending::Other,
        }
    }
}
