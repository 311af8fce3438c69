//! A disk in memory for the tests of whatever uses one: it fails at a call that a test names, and can be read while it is in use.
#![tactic(auto)]

mod failing_disk;
mod locking;
mod shared_disk;

pub use failing_disk::{FailingDisk, OpenFile};
pub use locking::Locking;
pub use shared_disk::SharedDisk;
