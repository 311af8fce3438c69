//! The system's disk.
ghost use Rattle.std.specs.Prelude.{[]};

use crate::disk::{Disk, FileStatus};
use crate::new_access::NewAccess;
use std::alloc::Global;
use std::fs::{self, File, OpenOptions, Permissions, TryLockError};
use std::io::{self, Seek, SeekFrom, Write};
use std::os::fd::AsFd;
use std::os::unix::fs::{FileExt, OpenOptionsExt, PermissionsExt, fchown};
use std::rt::Files;

/// What the runtime reaches. It discloses nothing that it is asked.
#[derive(Drop)]
pub struct SystemDisk<'a, R> {
    rt: &'a R,
}

impl<'a, R: Files<File = File>> SystemDisk<'a, R> {
    /// The disk that the runtime reaches.
    pub fn new(rt: &'a R) -> Self {
        SystemDisk { rt }
    }

    /// The runtime that reaches it.
    pub fn runtime(&self) -> &'a R {
        self.rt
    }
}

impl<'a, R: Files<File = File>> Disk for SystemDisk<'a, R> {
    type File = File;

    type Folder = File;

    ghost discloses = { ⊥ };

    ghost asked = { λ _. [] };

    ghost opened = { λ _. record { name = []; number = 0 } };

    ghost folder_of = { λ _. [] };

    ghost leads = { λ _ _. Unit {0} };

    ghost is_device = { λ _ _. Unit {0} };

    fn status(&self, name: &str) -> io::Result<FileStatus> {
        Ok(FileStatus::from(self.rt.metadata(name)?))
    }

    fn status_of_name(&self, name: &str) -> io::Result<FileStatus> {
        Ok(FileStatus::from(self.rt.symlink_metadata(name)?))
    }

    fn status_of(&self, file: &File) -> io::Result<FileStatus> {
        Ok(FileStatus::from(file.metadata()?))
    }

    fn is_link(&self, name: &str) -> io::Result<bool> {
        Ok(self.rt.symlink_metadata(name)?.is_symlink())
    }

    fn whole_path(&self, alloc: Global, name: &str) -> io::Result<String> {
        Ok(self.rt.canonicalize(alloc, name)?.into_string())
    }

    fn open_to_read(&self, name: &str) -> io::Result<File> {
        fs::open(self.rt, name)
    }

    fn open_to_lock(&self, name: &str) -> io::Result<File> {
        OpenOptions::new()
            .read(true)
            .write(true)
            .open(self.rt, name)
    }

    fn try_to_write(&self, name: &str) -> io::Result<()> {
        OpenOptions::new().write(true).open(self.rt, name)?;
        Ok(())
    }

    fn create(&mut self, name: &str, access: NewAccess) -> io::Result<File> {
        let mode = match access {
            NewAccess::Usual => 0o666,
            NewAccess::Private => 0o600,
        };
        OpenOptions::new()
            .read(true)
            .write(true)
            .create_new(true)
            .mode(mode)
            .open(self.rt, name)
    }

    fn open_to_copy(&mut self, name: &str) -> io::Result<File> {
        fs::open(self.rt, name)
    }

    fn open_to_write(&mut self, name: &str) -> io::Result<File> {
        OpenOptions::new().write(true).open(self.rt, name)
    }

    fn open_or_create(&mut self, name: &str) -> io::Result<File> {
        OpenOptions::new()
            .read(true)
            .write(true)
            .create(true)
            .mode(0o600)
            .open(self.rt, name)
    }

    fn try_lock(&self, file: &File) -> Result<(), TryLockError> {
        file.try_lock()
    }

    fn set_owner(&mut self, file: &File, owner: u32, group: u32) -> io::Result<bool> {
        Ok(
            fchown(file.as_fd(), Some(owner), Some(group)).is_ok()
                || fchown(file.as_fd(), None, Some(group)).is_ok(),
        )
    }

    fn set_mode(&mut self, file: &File, mode: u32) -> io::Result<()> {
        file.set_permissions(Permissions::from_mode(mode))
    }

    fn fill(&mut self, mut file: &File, bytes: &[u8]) -> io::Result<()> {
        file.write_all(bytes)
    }

    fn go_on(
        &mut self,
        mut file: &File,
        mut from: &File,
        place: u64,
        bytes: &[u8],
    ) -> io::Result<()> {
        from.seek(SeekFrom::Start(place))?;
        file.seek(SeekFrom::Start(place))?;
        io::copy(&mut from, &mut file)?;
        file.write_all(bytes)
    }

    fn write_at(&mut self, file: &File, place: u64, bytes: &[u8]) -> io::Result<()> {
        file.write_all_at(bytes, place)
    }

    fn sync(&mut self, file: &File) -> io::Result<()> {
        file.sync_all()
    }

    fn sync_bytes(&mut self, file: &File) -> io::Result<()> {
        file.sync_data()
    }

    fn rename(&mut self, from: &str, to: &str) -> io::Result<()> {
        self.rt.rename(from, to)
    }

    fn link(&mut self, from: &str, to: &str) -> io::Result<()> {
        self.rt.hard_link(from, to)
    }

    fn remove(&mut self, name: &str) -> io::Result<()> {
        self.rt.remove_file(name)
    }

    fn open_folder(&self, path: &str) -> io::Result<File> {
        let folder = match path.rsplit_once('/') {
            Some(("", _)) => "/",
            Some((folder, _)) => folder,
            None => ".",
        };
        fs::open(self.rt, folder)
    }

    fn sync_folder(&mut self, folder: &File) -> io::Result<()> {
        folder.sync_all()
    }

    fn write_device(&mut self, name: &str, bytes: &[u8]) -> io::Result<()> {
        fs::write(self.rt, name, bytes)
    }
}
