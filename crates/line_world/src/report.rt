//! What a run over a schedule was.
use crate::Spoken;
use bsc_link::Outcome;
use rje_jobs::Jobs;

/// What a run over a schedule was.
#[derive(Drop)]
pub struct Report {
    /// The turns, the oldest first.
    pub turns: Vec<Spoken>,
    /// The jobs that the receiving station delivers. One of which blocks came and no last one stands last, and isn't whole.
    pub handed: Jobs,
    /// How many of the jobs given are counted as sent.
    pub counted: usize,
    /// How the transmission ends; None where the schedule ended first.
    pub outcome: Option<Outcome>,
}
