//! A disk with folders.
ghost use Rattle.std.specs.Prelude.{◌≡◌, ℕ, List, true, IfOk, OnOk, map, string_bytes};
ghost use Rattle.rje_folder.specs.declared.file_identity.FileIdentity.{FileIdentity as Identity};
ghost use Rattle.rje_store.specs.Disk.{Asked};

use crate::file_identity::FileIdentity;
use rje_store::{Disk, FileKind, FileStatus, SystemDisk};
use std::alloc::Global;
use std::fs::{self, File, TryLockError};
use std::io::{self, ErrorKind};
use std::rt::Files;

/// A disk with folders. Each call may fail at any time.
pub trait FolderDisk: Disk {
    /// After these calls, the disk said that two names are of one file.
    ghost are_one: { List Asked → List ℕ → List ℕ → Type 0 };

    /// After these calls, the disk said that this file stands under a name.
    ghost is_file: { List Asked → List ℕ → Identity → Type 0 };

    /// After these calls, the disk said that an open file is this one.
    ghost is_open: { List Asked → Self.File → Identity → Type 0 };

    /// After these calls, the disk said that a folder has these names, in some order, and no other that is text.
    ghost has_names: { List Asked → List ℕ → List (List ℕ) → Type 0 };

    /// This open file is locked: no command of this program writes to it, or puts another in its place, as long as it is open.
    ghost is_locked: { Self.File → Type 0 };

    /// Whether two names are of one file, which is a symbolic link itself where they are names of one. Not found where nothing stands under one of them.
    fn is_one_file(&self, one: &str, other: &str) -> io::Result<bool>
        ensures { IfOk result (λ is_one. is_one ≡ true
            → are_one (Self.asked self.now) one.now other.now) };

    /// Which file stands under a name, itself and not what it leads to where it is a symbolic link.
    fn identity(&self, name: &str) -> io::Result<FileIdentity>
        ensures { IfOk result (λ file. is_file (Self.asked self.now) name.now file) };

    /// Which file an open one is.
    fn identity_of(&self, file: &Self::File) -> io::Result<FileIdentity>
        ensures { IfOk result (λ is. is_open (Self.asked self.now) file.now is) };

    /// Locks an open file against those who write it, as long as it is open. It would block where a process has locked it to write it; others may read it
    /// so too.
    fn try_lock_to_read(&self, file: &Self::File) -> Result<(), TryLockError>
        ensures { OnOk result (is_locked file.now) };

    /// The names in a folder, in no order, except those that are no text.
    fn names_in(&self, alloc: Global, folder: &str) -> io::Result<Vec<String>>
        ensures { IfOk result (λ names. has_names (Self.asked self.now) folder.now
            (map string_bytes names.items)) };

    /// How many names in a folder are no text.
    fn count_unreadable_names(&self, folder: &str) -> io::Result<usize>;

    /// Makes a folder, where there is none of this name, that its owner alone may read and write. Not a directory where something else has the name.
    fn make_folder(&mut self, path: &str) -> io::Result<()>
        ensures { Self.discloses → Self.asked self.new ≡ Self.asked self.old };
}

impl<'a, R: Files<File = File> + Alloc + Clone + Drop> FolderDisk for SystemDisk<'a, R> {
    ghost are_one = { λ _ _ _. Unit {0} };

    ghost is_file = { λ _ _ _. Unit {0} };

    ghost is_open = { λ _ _ _. Unit {0} };

    ghost has_names = { λ _ _ _. Unit {0} };

    ghost is_locked = { λ _. Unit {0} };

    fn is_one_file(&self, one: &str, other: &str) -> io::Result<bool> {
        let found = self.status_of_name(one)?;
        let also = self.status_of_name(other)?;
        Ok(found.device == also.device && found.inode == also.inode)
    }

    fn identity(&self, name: &str) -> io::Result<FileIdentity> {
        let found = self.runtime().symlink_metadata(name)?;
        Ok(FileIdentity::of(&FileStatus::from(found)))
    }

    fn identity_of(&self, file: &File) -> io::Result<FileIdentity> {
        Ok(FileIdentity::of(&self.status_of(file)?))
    }

    fn try_lock_to_read(&self, file: &File) -> Result<(), TryLockError> {
        file.try_lock_shared()
    }

    fn names_in(&self, alloc: Global, folder: &str) -> io::Result<Vec<String>> {
        let mut names = Vec::new(alloc);
        for entry in fs::read_dir(self.runtime(), folder)? {
            match entry {
                Ok(entry) => names.push(String::from_str(alloc, entry.file_name())?)?,
                Err(error) if error.kind() == ErrorKind::InvalidFilename => {}
                Err(error) => return Err(error),
            }
        }
        Ok(names)
    }

    fn count_unreadable_names(&self, folder: &str) -> io::Result<usize> {
        let mut count: usize = 0;
        for entry in fs::read_dir(self.runtime(), folder)? {
            match entry {
                Ok(_) => {}
                Err(error) if error.kind() == ErrorKind::InvalidFilename => {
                    count = count.saturating_add(1);
                }
                Err(error) => return Err(error),
            }
        }
        Ok(count)
    }

    fn make_folder(&mut self, path: &str) -> io::Result<()> {
        match self.runtime().create_dir_with_mode(path, 0o700) {
            Err(error) if error.kind() == ErrorKind::AlreadyExists => {
                match self.status(path)?.kind {
                    FileKind::Folder => Ok(()),
                    _ => Err(io::Error::from(ErrorKind::NotADirectory)),
                }
            }
            made => made,
        }
    }
}
