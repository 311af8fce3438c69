//! What a run of two stations that both have jobs was.
use crate::{PairSpoken, Side};

/// What a run of two stations that both have jobs was.
#[derive(Drop)]
pub struct PairReport {
    /// The turns, the oldest first.
    pub turns: Vec<PairSpoken>,
    /// The jobs of the primary.
    pub up: Side,
    /// The jobs of the secondary.
    pub down: Side,
}
