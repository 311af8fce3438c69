//! How a transmission ends.

/// How a transmission ended at its sender.
#[derive(Clone, Copy, Debug, PartialEq, Eq)]
pub enum Outcome {
    /// Every block was counted.
    Done,
    /// The receiver asked to stop, and the job in hand was finished.
    Turned,
    /// Too many turns brought no progress.
    GaveUp,
    /// The receiver sent EOT.
    Ended,
}
