//! What is to be done with a job.

/// What becomes of a job once a transmission that it was given to has ended.
#[derive(Clone, Copy, Debug, PartialEq, Eq)]
pub enum Disposition {
    /// It was counted.
    Sent,
    /// It may have arrived: the operator looks at the other end.
    InDoubt,
    /// It lies ready still.
    Ready,
}
