//! Why nothing is promised.

/// Why a job isn't promised, and so must not be sent.
#[derive(Clone, Copy, Debug, PartialEq, Eq)]
pub enum PromiseFault {
    /// It isn't known yet what the other end has kept: no receipt came.
    NothingKnown,
    /// As many jobs are promised as can be counted.
    CountFull,
    /// The promise isn't the next one after those of the account.
    OutOfOrder,
    /// There isn't memory enough.
    OutOfMemory,
}
