//! What driving two stations that both have jobs was.
use crate::PairSpoken;
use rje_station::Station;

/// What driving two stations that both have jobs over a schedule was, and the stations as the turns left them.
#[derive(Drop)]
pub struct Paired<'a> {
    /// The turns, the oldest first.
    pub turns: Vec<PairSpoken>,
    pub primary: Station<'a>,
    pub secondary: Station<'a>,
}
