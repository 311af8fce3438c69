//! A disk that is in use, and is read meanwhile.
ghost use Rattle.std.specs.Prelude.{[]};

use crate::failing_disk::{FailingDisk, OpenFile};
use rje_folder::{FileIdentity, FolderDisk};
use rje_store::{Disk, FileStatus, NewAccess};
use std::alloc::Global;
use std::cell::{Ref, RefCell, RefMut};
use std::fs::TryLockError;
use std::io::{self, ErrorKind};

/// A disk that others have too: a test puts files there, and looks at them, while a station has it.
#[derive(Clone, Copy)]
pub struct SharedDisk<'a> {
    disk: &'a RefCell<FailingDisk>,
}

impl<'a> SharedDisk<'a> {
    /// This disk, shared.
    pub fn new(disk: &'a RefCell<FailingDisk>) -> SharedDisk<'a> {
        SharedDisk { disk }
    }

    /// The disk, to be read. One that is in use at the very moment is busy.
    pub fn seen(&self) -> io::Result<Ref<'a, FailingDisk>> {
        self.disk
            .try_borrow()
            .map_err(|_| io::Error::from(ErrorKind::ResourceBusy))
    }

    /// The disk, to be changed. One that is in use at the very moment is busy.
    pub fn changed(&self) -> io::Result<RefMut<'a, FailingDisk>> {
        self.disk
            .try_borrow_mut()
            .map_err(|_| io::Error::from(ErrorKind::ResourceBusy))
    }
}

impl Disk for SharedDisk<'_> {
    type File = OpenFile;

    type Folder = ();

    ghost discloses = { ⊥ };

    ghost asked = { λ _. [] };

    ghost opened = { λ _. record { name = []; number = 0 } };

    ghost folder_of = { λ _. [] };

    ghost leads = { λ _ _. Unit {0} };

    ghost is_device = { λ _ _. Unit {0} };

    fn status(&self, name: &str) -> io::Result<FileStatus> {
        self.seen()?.status(name)
    }

    fn status_of_name(&self, name: &str) -> io::Result<FileStatus> {
        self.seen()?.status_of_name(name)
    }

    fn status_of(&self, file: &OpenFile) -> io::Result<FileStatus> {
        self.seen()?.status_of(file)
    }

    fn is_link(&self, name: &str) -> io::Result<bool> {
        self.seen()?.is_link(name)
    }

    fn whole_path(&self, alloc: Global, name: &str) -> io::Result<String> {
        self.seen()?.whole_path(alloc, name)
    }

    fn open_to_read(&self, name: &str) -> io::Result<OpenFile> {
        self.seen()?.open_to_read(name)
    }

    fn open_to_lock(&self, name: &str) -> io::Result<OpenFile> {
        self.seen()?.open_to_lock(name)
    }

    fn try_to_write(&self, name: &str) -> io::Result<()> {
        self.seen()?.try_to_write(name)
    }

    fn create(&mut self, name: &str, access: NewAccess) -> io::Result<OpenFile> {
        self.changed()?.create(name, access)
    }

    fn open_to_copy(&mut self, name: &str) -> io::Result<OpenFile> {
        self.changed()?.open_to_copy(name)
    }

    fn open_to_write(&mut self, name: &str) -> io::Result<OpenFile> {
        self.changed()?.open_to_write(name)
    }

    fn open_or_create(&mut self, name: &str) -> io::Result<OpenFile> {
        self.changed()?.open_or_create(name)
    }

    fn try_lock(&self, file: &OpenFile) -> Result<(), TryLockError> {
        match self.seen() {
            Ok(disk) => disk.try_lock(file),
            Err(error) => Err(TryLockError::Error(error)),
        }
    }

    fn set_owner(&mut self, file: &OpenFile, owner: u32, group: u32) -> io::Result<bool> {
        self.changed()?.set_owner(file, owner, group)
    }

    fn set_mode(&mut self, file: &OpenFile, mode: u32) -> io::Result<()> {
        self.changed()?.set_mode(file, mode)
    }

    fn fill(&mut self, file: &OpenFile, bytes: &[u8]) -> io::Result<()> {
        self.changed()?.fill(file, bytes)
    }

    fn go_on(
        &mut self,
        file: &OpenFile,
        from: &OpenFile,
        place: u64,
        bytes: &[u8],
    ) -> io::Result<()> {
        self.changed()?.go_on(file, from, place, bytes)
    }

    fn write_at(&mut self, file: &OpenFile, place: u64, bytes: &[u8]) -> io::Result<()> {
        self.changed()?.write_at(file, place, bytes)
    }

    fn sync(&mut self, file: &OpenFile) -> io::Result<()> {
        self.changed()?.sync(file)
    }

    fn sync_bytes(&mut self, file: &OpenFile) -> io::Result<()> {
        self.changed()?.sync_bytes(file)
    }

    fn rename(&mut self, from: &str, to: &str) -> io::Result<()> {
        self.changed()?.rename(from, to)
    }

    fn link(&mut self, from: &str, to: &str) -> io::Result<()> {
        self.changed()?.link(from, to)
    }

    fn remove(&mut self, name: &str) -> io::Result<()> {
        self.changed()?.remove(name)
    }

    fn open_folder(&self, path: &str) -> io::Result<()> {
        self.seen()?.open_folder(path)
    }

    fn sync_folder(&mut self, folder: &()) -> io::Result<()> {
        self.changed()?.sync_folder(folder)
    }

    fn write_device(&mut self, name: &str, bytes: &[u8]) -> io::Result<()> {
        self.changed()?.write_device(name, bytes)
    }
}

impl FolderDisk for SharedDisk<'_> {
    ghost are_one = { λ _ _ _. Unit {0} };

    ghost is_file = { λ _ _ _. Unit {0} };

    ghost is_open = { λ _ _ _. Unit {0} };

    ghost has_names = { λ _ _ _. Unit {0} };

    ghost is_locked = { λ _. Unit {0} };

    fn is_one_file(&self, one: &str, other: &str) -> io::Result<bool> {
        self.seen()?.is_one_file(one, other)
    }

    fn identity(&self, name: &str) -> io::Result<FileIdentity> {
        self.seen()?.identity(name)
    }

    fn identity_of(&self, file: &OpenFile) -> io::Result<FileIdentity> {
        self.seen()?.identity_of(file)
    }

    fn try_lock_to_read(&self, file: &OpenFile) -> Result<(), TryLockError> {
        match self.seen() {
            Ok(disk) => disk.try_lock_to_read(file),
            Err(error) => Err(TryLockError::Error(error)),
        }
    }

    fn names_in(&self, alloc: Global, folder: &str) -> io::Result<Vec<String>> {
        self.seen()?.names_in(alloc, folder)
    }

    fn count_unreadable_names(&self, folder: &str) -> io::Result<usize> {
        self.seen()?.count_unreadable_names(folder)
    }

    fn make_folder(&mut self, path: &str) -> io::Result<()> {
        self.changed()?.make_folder(path)
    }
}
