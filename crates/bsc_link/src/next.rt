//! What comes after a block.

/// What follows the outstanding block; before the first block, what comes first.
#[derive(Clone, Copy, Debug, PartialEq, Eq)]
pub enum Next {
    /// A block of the same job.
    Block,
    /// The first block of a job.
    NewJob,
    /// Nothing.
    Done,
}
