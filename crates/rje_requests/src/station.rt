//! What a station that stays on the line is asked for.
ghost use Rattle.std.specs.Prelude.{◌≡◌};
ghost use Rattle.rje_requests.specs.Station.{has_callers, station_rank};

use crate::callers::Callers;
use bsc_link::Rank;
use std::net::SocketAddr;

/// What `station` is asked for.
#[derive(Clone, Copy, Debug, PartialEq, Eq)]
pub struct StationOrder<'a> {
    /// The station's folder.
    pub folder: &'a str,
    /// Who calls whom.
    pub partner: Partner<'a>,
    /// How long a hearing waits for more bytes, in milliseconds, 1 to 60000.
    pub timeout: u16,
    /// After so many hearings in a row without a word it leaves a connection, 0 to 1000000000; with 0 never.
    pub patience: u32,
    /// Which of the two ends this one is: where both bid at once the secondary yields.
    pub rank: Rank,
    /// Whether the other end is a line adapter, which makes and takes SYN, pads and checks itself.
    pub adapter: bool,
    /// How long an end that calls waits before its next call, in seconds, 1 to 86400.
    pub every: u32,
    /// How long another end has the line while no job comes whole and none is counted, in seconds, 0 to 1000000; with 0 for ever.
    pub progress: u32,
    /// Whether it ends after one connection.
    pub once: bool,
    /// Whether doubt is settled by receipts, as the other end does it too.
    pub settle: bool,
    /// Whether nothing is shown on a terminal of how far it is.
    pub quiet: bool,
}

/// How a station comes to its connections, one after another.
#[derive(Clone, Copy, Debug, PartialEq, Eq)]
pub enum Partner<'a> {
    /// It calls the other end at this address: a host's name or four numbers, a colon and a port.
    Calls(&'a str),
    /// It listens at its own address, and takes the calls of these callers.
    Listens(SocketAddr, Callers<'a>),
}

impl Partner<'_> {
    /// The rank that the options for the two ranks choose: where neither is given the end that calls is the primary, and none where both are.
    pub fn rank_chosen(self, primary: bool, secondary: bool) -> Option<Rank>
        ensures rank { result ≡ station_rank self.entry primary secondary }
    {
        match (primary, secondary, self) {
            (true, true, _) => None,
            (true, false, _) | (false, false, Partner::Calls(_)) => Some(Rank::Primary),
            (false, true, _) | (false, false, Partner::Listens(..)) => Some(Rank::Secondary),
        }
    }

    /// Whether calls of more than one address that is named are taken.
    pub fn has_callers(self) -> bool
        ensures { result ≡ has_callers self.entry }
    {
        match self {
            Partner::Calls(_) => false,
            Partner::Listens(_, callers) => callers.are_several(),
        }
    }
}
