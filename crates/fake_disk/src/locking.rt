//! What comes of a lock.

/// What comes of a lock of a file.
#[derive(Clone, Copy, Debug, PartialEq, Eq)]
pub enum Locking {
    /// The file is locked.
    Done,
    /// Another process has it.
    InUse,
    /// It can't be locked, as on a file system that has no locks.
    Fails,
    /// The file is locked, and has lost its last name meanwhile.
    OfNoName,
}
