//! The locks of files: whoever has that of a file changes it alone.
//!
//! A file is replaced by another one, so the lock is not the file's own: it is that of a hidden file beside it, which is removed when it is
//! given up. The file itself is locked too, where it is there, since it may have a second name. The system gives up both when the process
//! ends. What a station was sending when it ended has a second name of the station's own until that begins again, and is in use as long.
use super::beside::resolved;
use super::own_file::{OwnFile, stands_at};
use crate::disk::{Disk, FileKind};
use crate::new_access::NewAccess;
use crate::store::StoreFault;
use std::alloc::Global;
use std::fs::TryLockError;
use std::io::{self, ErrorKind};

/// How many times to lock the file beside another anew where it was removed meanwhile.
const MAX_TRIES: u32 = 1000;

/// The lock of the file of a name.
#[derive(Drop)]
pub(super) struct FileLock<F: Drop> {
    name: String,
    path: String,
    beside: String,
    // Locked as long as they are open.
    lock: F,
    own: OwnFile<F>,
}

impl<F: Drop> FileLock<F> {
    /// The lock of the file of this name; missing where neither that nor the file beside can be. `None` where a device or a pipe is there,
    /// which is never replaced, or a folder, which is never written.
    pub(super) fn take<D: Disk<File = F>>(
        disk: &mut D,
        alloc: Global,
        name: &str,
    ) -> Result<Option<FileLock<F>>, StoreFault> {
        let path = resolved(disk, alloc, name)?;
        let beside = lock_beside(alloc, path.as_str())?;
        let name = String::from_str(alloc, name)?;
        let is_there = match disk.status(path.as_str()) {
            Ok(found) if found.kind == FileKind::Regular => true,
            Ok(_) => return Ok(None),
            Err(_) => false,
        };
        let lock = match lock_of(disk, beside.as_str()) {
            Err(StoreFault::Failed(_) | StoreFault::Missing) if !is_there => {
                return Err(StoreFault::Missing);
            }
            Err(StoreFault::Missing) => return Err(StoreFault::Failed(ErrorKind::NotFound)),
            taken => taken?,
        };
        let own = match is_there {
            true => open_to_lock(disk, path.as_str()).ok(),
            false => None,
        };
        match own_locked(disk, alloc, path.as_str(), own.as_ref()) {
            Ok(()) => Ok(Some(FileLock {
                name,
                path,
                beside,
                lock,
                own: match own {
                    Some(file) => OwnFile::Locked(file),
                    None if is_there => OwnFile::Unlocked,
                    None => OwnFile::Free,
                },
            })),
            Err(fault) => {
                let _ = disk.remove(beside.as_str());
                Err(fault)
            }
        }
    }

    /// The file that is there now is this one, if any, in place of the one that it has replaced, which the disk would keep until the end.
    pub(super) fn follow(&mut self, file: Option<F>) {
        self.own = match file {
            Some(file) => OwnFile::Locked(file),
            None => OwnFile::Unlocked,
        };
    }

    /// The same of a file that has grown, which is locked, and lost where another one has the path, or another process has it.
    pub(super) fn follow_grown<D: Disk<File = F>>(&mut self, disk: &D, grown: &F) {
        self.own = match open_to_lock(disk, self.path.as_str()) {
            Ok(file) if !are_one(disk, &file, grown) => OwnFile::Lost,
            Ok(file) => match locked(disk, &file) {
                Ok(()) => OwnFile::Locked(file),
                Err(StoreFault::InUse) => OwnFile::Lost,
                Err(_) => OwnFile::Unlocked,
            },
            Err(error) if error.kind() == ErrorKind::NotFound => OwnFile::Lost,
            Err(_) => OwnFile::Unlocked,
        };
    }

    /// Whether this is the lock of the file of this name.
    pub(super) fn is_of(&self, name: &str) -> bool {
        self.name.as_str() == name
    }

    /// The file itself.
    pub(super) fn own(&self) -> &OwnFile<F> {
        &self.own
    }

    /// Whether the name led to this path when it was taken.
    pub(super) fn is_at(&self, path: &str) -> bool {
        self.path.as_str() == path
    }

    /// Removes the file beside, unless another process has done so: then the name may be another file's. It is locked until this value is let
    /// go, so whoever opened it before finds that it has no name any more.
    pub(super) fn remove<D: Disk<File = F>>(&self, disk: &mut D) {
        if has_name(disk, &self.lock) {
            let _ = disk.remove(self.beside.as_str());
        }
    }
}

/// The path of the file beside this one that is locked: hidden, in the same folder.
fn lock_beside(alloc: Global, path: &str) -> io::Result<String> {
    match path.rsplit_once('/') {
        Some((folder, name)) => Ok(format!(in alloc; "{folder}/.{name}.rje-lock")?),
        None => Ok(format!(in alloc; ".{path}.rje-lock")?),
    }
}

/// The file of this path, open to be written where that can be, else to be read.
fn open_to_lock<D: Disk>(disk: &D, path: &str) -> io::Result<D::File> {
    match disk.open_to_lock(path) {
        Ok(file) => Ok(file),
        Err(_) => disk.open_to_read(path),
    }
}

/// The file of this path, made where there is none, and locked. Whoever gives up its lock removes it first, so one that has no name any
/// more when it is locked was left by a process that has gone: then there is another one, or none.
fn lock_of<D: Disk>(disk: &mut D, path: &str) -> Result<D::File, StoreFault> {
    for _ in 0..MAX_TRIES {
        if let Some(file) = open_lock(disk, path)? {
            locked(disk, &file)?;
            if has_name(disk, &file) {
                return Ok(file);
            }
        }
    }
    Err(StoreFault::Failed(ErrorKind::ResourceBusy))
}

/// Whether an open file has a name.
pub(super) fn has_name<D: Disk>(disk: &D, file: &D::File) -> bool {
    match disk.status_of(file) {
        Ok(found) => found.links != 0,
        Err(_) => false,
    }
}

/// A lock's file, which is empty, and which any user may read: so one that was left keeps no one out. It is made where nothing stands under its name.
fn open_lock<D: Disk>(disk: &mut D, path: &str) -> io::Result<Option<D::File>> {
    let file = match disk.create(path, NewAccess::Usual) {
        Ok(file) => file,
        Err(error) if error.kind() == ErrorKind::AlreadyExists => return found_lock(disk, path),
        Err(error) => return Err(error),
    };
    let _ = disk.set_mode(&file, 0o644);
    Ok(Some(file))
}

/// A lock's file that was left, or that another process has; none where it is gone meanwhile. A link, a folder, a device, a pipe and a file with bytes
/// are none of ours, and stay as they are. Another user's can perhaps only be read.
fn found_lock<D: Disk>(disk: &D, path: &str) -> io::Result<Option<D::File>> {
    let stands = match disk.status_of_name(path) {
        Err(error) if error.kind() == ErrorKind::NotFound => return Ok(None),
        found => found?,
    };
    if stands.kind != FileKind::Regular || stands.len != 0 {
        return Err(io::Error::from(ErrorKind::AlreadyExists));
    }
    let file = match open_to_lock(disk, path) {
        Ok(file) => file,
        Err(error) if error.kind() == ErrorKind::NotFound => return Ok(None),
        Err(error) => return Err(error),
    };
    let found = disk.status_of(&file)?;
    if found.len != 0 {
        return Err(io::Error::from(ErrorKind::AlreadyExists));
    }
    // (another process made it anew in between)
    if found.device != stands.device || found.inode != stands.inode {
        return Ok(None);
    }
    Ok(Some(file))
}

/// Locks an open file: in use where another process has it.
fn locked<D: Disk>(disk: &D, file: &D::File) -> Result<(), StoreFault> {
    match disk.try_lock(file) {
        Ok(()) => Ok(()),
        Err(TryLockError::WouldBlock) => Err(StoreFault::InUse),
        Err(TryLockError::Error(error)) => Err(StoreFault::from(error)),
    }
}

/// Whether two open files are one, as far as the disk says.
fn are_one<D: Disk>(disk: &D, one: &D::File, other: &D::File) -> bool {
    match (disk.status_of(one), disk.status_of(other)) {
        (Ok(one), Ok(other)) => one.device == other.device && one.inode == other.inode,
        _ => false,
    }
}

/// Locks the file itself, where it is there. In use as well where another one has its path by then, as a station put it there or took it away, and where
/// a station may be sending it.
fn own_locked<D: Disk>(
    disk: &D,
    alloc: Global,
    path: &str,
    own: Option<&D::File>,
) -> Result<(), StoreFault> {
    let Some(file) = own else {
        return Ok(());
    };
    locked(disk, file)?;
    if stands_at(disk, path, file)? && !is_promised(disk, alloc, path, file)? {
        Ok(())
    } else {
        Err(StoreFault::InUse)
    }
}

/// Whether an open file may be one of which a station is sending a job, or was when it ended: this path is one in its out/ or doubt/, and the file has a
/// second name.
fn is_promised<D: Disk>(disk: &D, alloc: Global, path: &str, file: &D::File) -> io::Result<bool> {
    if disk.status_of(file)?.links < 2 {
        return Ok(false);
    }
    let path = disk.whole_path(alloc, path)?;
    let Some((folder, _)) = path.as_str().rsplit_once('/') else {
        return Ok(false);
    };
    let Some((station, "out" | "doubt")) = folder.rsplit_once('/') else {
        return Ok(false);
    };
    Ok(is_folder(disk, alloc, station, "out")? && is_folder(disk, alloc, station, "doubt")?)
}

/// Whether a folder of this name is in another one.
fn is_folder<D: Disk>(disk: &D, alloc: Global, parent: &str, name: &str) -> io::Result<bool> {
    let path = format!(in alloc; "{parent}/{name}")?;
    match disk.status(path.as_str()) {
        Ok(found) => Ok(found.kind == FileKind::Folder),
        Err(error) if error.kind() == ErrorKind::NotFound => Ok(false),
        Err(error) => Err(error),
    }
}
