//! What became of the jobs of one station.
use bsc_link::Outcome;
use rje_jobs::Jobs;

/// What became of the jobs of one of two stations.
#[derive(Drop)]
pub struct Side {
    /// Those that the other station delivers. One of which blocks came and no last one stands last, and isn't whole.
    pub handed: Jobs,
    /// How many of the jobs given are counted as sent.
    pub counted: usize,
    /// How the transmission ends; None where the schedule ended first.
    pub outcome: Option<Outcome>,
}
