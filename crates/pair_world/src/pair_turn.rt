//! One turn of a schedule of two stations that both have jobs.
use bsc_history::Bids;
use line_world::Turn;

/// One turn of a schedule of two stations that both have jobs: who speaks where both could, and what the line will do. `up` of the turn
/// is the fate of what is said, `down` that of the reply; where both speak they aren't used.
#[derive(Debug, Drop)]
pub struct PairTurn {
    /// Who speaks where something is due at both.
    pub bids: Bids,
    /// What the line will do, and what both are told.
    pub turn: Turn,
}
