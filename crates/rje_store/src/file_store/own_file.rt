//! The file that a lock is for.
use crate::disk::Disk;
use std::io::{self, ErrorKind};

/// The file that a lock is for, which stands beside the lock's own.
#[derive(Drop)]
pub(super) enum OwnFile<F: Drop> {
    /// It is locked too.
    Locked(F),
    /// It can't be locked: the lock's own file keeps the other commands out.
    Unlocked,
    /// There was none, and none was put there.
    Free,
    /// Another process has it, has taken it away, or has put another one in its place.
    Lost,
}

impl<F: Drop> OwnFile<F> {
    /// Whether it still has this path; where there was none, whether nothing has it.
    pub(super) fn still_has<D: Disk<File = F>>(&self, disk: &D, path: &str) -> io::Result<bool> {
        match self {
            OwnFile::Locked(file) => stands_at(disk, path, file),
            OwnFile::Unlocked => Ok(true),
            OwnFile::Free => is_free(disk, path),
            OwnFile::Lost => Ok(false),
        }
    }
}

/// Whether nothing has this path.
fn is_free<D: Disk>(disk: &D, path: &str) -> io::Result<bool> {
    match disk.status(path) {
        Ok(_) => Ok(false),
        Err(error) if error.kind() == ErrorKind::NotFound => Ok(true),
        Err(error) => Err(error),
    }
}

/// Whether an open file is the one that has this path.
pub(super) fn stands_at<D: Disk>(disk: &D, path: &str, file: &D::File) -> io::Result<bool> {
    let found = disk.status_of(file)?;
    match disk.status(path) {
        Ok(stands) => Ok(found.device == stands.device && found.inode == stands.inode),
        Err(error) if error.kind() == ErrorKind::NotFound => Ok(false),
        Err(error) => Err(error),
    }
}
