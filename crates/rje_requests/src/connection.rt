//! Connections: how a command comes to one, and what it keeps to there.
ghost use Rattle.std.specs.Prelude.{◌≡◌};
ghost use Rattle.rje_requests.specs.Connection.{rank_chosen};

use crate::callers::Callers;
use bsc_link::Rank;
use std::net::SocketAddr;

/// How a command comes to its connection, and what it keeps to there.
#[derive(Clone, Copy, Debug, PartialEq, Eq)]
pub struct Connection<'a> {
    /// Who calls whom.
    pub place: Meeting<'a>,
    /// How long a hearing waits for more bytes, in milliseconds, 1 to 60000.
    pub timeout: u16,
    /// Whether the other end is a line adapter, which makes and takes SYN, pads and checks itself.
    pub adapter: bool,
    /// Whether each turn is reported on standard error as it happens.
    pub trace: bool,
    /// Whether nothing is shown on a terminal of how far it is.
    pub quiet: bool,
}

/// How two stations come to a connection.
#[derive(Clone, Copy, Debug, PartialEq, Eq)]
pub enum Meeting<'a> {
    /// This one calls the other at its address.
    Calls(SocketAddr),
    /// This one listens at its own, and takes the calls of these callers.
    Listens(SocketAddr, Callers<'a>),
}

impl Meeting<'_> {
    /// The rank that the options for the two ranks choose: where neither is given the end that calls is the primary, and none where both are.
    pub fn rank_chosen(self, primary: bool, secondary: bool) -> Option<Rank>
        ensures rank { result ≡ rank_chosen self.entry primary secondary }
    {
        match (primary, secondary, self) {
            (true, true, _) => None,
            (true, false, _) | (false, false, Meeting::Calls(_)) => Some(Rank::Primary),
            (false, true, _) | (false, false, Meeting::Listens(..)) => Some(Rank::Secondary),
        }
    }
}
