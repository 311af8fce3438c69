//! One job that was promised.

use crate::{JobPlace, Receipt};

/// One job that was promised: from before its last block is said until a receipt reports what became
/// of it.
#[derive(Clone, Copy, Debug, PartialEq, Eq)]
pub struct Promise {
    /// What the other end says once it has kept this job and no later one.
    pub receipt: Receipt,
    /// Which job of its file it is.
    pub place: JobPlace,
}
