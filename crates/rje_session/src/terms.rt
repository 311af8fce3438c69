//! How a station takes part in transmissions.

use bsc_link::Rank;

/// How a station takes part in the transmissions of a connection.
#[derive(Clone, Copy, Debug)]
pub struct Terms {
    /// Its rank: a secondary yields where both bid at once.
    pub rank: Rank,
    /// After so many hearings in a row that brought no word it leaves a transmission of the other end's, and the connection with it; with 0 after
    /// the first.
    pub patience: u32,
    /// Whether the other end is a host behind a line adapter, which may leave unanswered what is said while it doesn't listen: that ends no
    /// connection then.
    pub host: bool,
}
