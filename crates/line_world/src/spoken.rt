//! One turn of a report.
use bsc_link::{Reply, Say, Sound};

/// One turn of a report: what was said and replied, and what of it came through.
#[derive(Clone, Copy, Debug, PartialEq, Eq)]
pub struct Spoken {
    /// What the sender said.
    pub said: Say,
    /// What the receiver heard.
    pub arrived: Sound,
    /// A whole block arrived and found no memory at the receiver.
    pub refused: bool,
    /// What the receiver replied; None where it was silent.
    pub reply: Option<Reply>,
    /// What the sender heard.
    pub heard: Sound,
}
