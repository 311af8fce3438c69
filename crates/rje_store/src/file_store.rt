//! The system's files.
ghost use Rattle.std.specs.Prelude.{◌≡◌, ◌≢◌, ◌≤◌, ◌⊎◌, None, false, length, string_bytes, IfOk, OnOk};
ghost use Rattle.rje_store.specs.Replacing.{Adds, Either};
ghost use Rattle.rje_store.specs.Growing.{HasExtended, HasGrowing, IsReady, MayGrow, MayOpen};
ghost use Rattle.rje_store.specs.FileStore.{HasLooked, HasSet, IsWritten, MayLook, MayPut, MaySet, MaySettle, copy_of};

mod beside;
mod growing;
mod locks;
mod marked;
mod own_file;

use crate::disk::{Disk, FileAccess, FileKind};
use crate::reading::{MAX_INPUT, read_all};
use crate::store::{Store, StoreFault, WriteMode};
use crate::system_disk::SystemDisk;
use beside::{lead_to_one, replace, resolved, try_beside};
use growing::Growing;
use locks::FileLock;
use marked::MarkedDisk;
use std::alloc::Global;
use std::fs::File;
use std::io::{self, ErrorKind};
use std::rt::Files;

/// The files on a disk. It discloses none of them. A file is replaced whole or not at all, by way of a file beside it; a device or a
/// pipe is written where it is. A file that it has for itself is locked, by way of another file beside it, until `release` or the end of
/// the process.
#[derive(Drop)]
pub struct FileStore<D: Disk> {
    disk: MarkedDisk<D>,
    alloc: Global,
    growing: Option<Growing<D>>,
    locks: Vec<FileLock<D::File>>,
}

/// What stands under a name that can be written.
#[derive(Drop)]
enum Target {
    /// Nothing.
    New,
    /// A file on disk, with this access.
    File(FileAccess),
    /// A device or a pipe.
    Device,
}

impl<'a, R: Files<File = File>> FileStore<SystemDisk<'a, R>> {
    /// The files that the runtime reaches.
    pub fn new(rt: &'a R, alloc: Global) -> Self {
        FileStore::over(SystemDisk::new(rt), alloc)
    }
}

impl<D: Disk> FileStore<D> {
    /// The files on this disk.
    pub fn over(disk: D, alloc: Global) -> Self
        ensures disk { result.disk ≡ disk }
        ensures settled { result.growing ≡ None }
    {
        FileStore {
            disk: MarkedDisk::over(disk),
            alloc,
            growing: None,
            locks: Vec::new(alloc),
        }
    }

    /// The disk.
    pub fn disk(&self) -> &D
        ensures { result.now ≡ self.now.disk }
    {
        self.disk.disk()
    }

    /// Gives up all locks, and leaves nothing of them beside the files.
    pub fn release(&mut self) {
        for lock in self.locks.iter() {
            lock.remove(self.disk.closed());
        }
        self.locks.clear();
    }

    /// The file of this name was replaced by this one, if any: the lock of it is that of the new file.
    fn follow(&mut self, name: &str, file: Option<D::File>)
        ensures disk { self.new.disk ≡ self.old.disk }
        ensures growing { self.new.growing ≡ self.old.growing }
    {
        if let Some(lock) = self.locks.iter_mut().find(|lock| lock.is_of(name)) {
            lock.follow(file);
        }
    }

    /// The file of this name was replaced by one that has grown: the lock of it is that of the new file.
    fn follow_grown(&mut self, name: &str)
        ensures disk { self.new.disk ≡ self.old.disk }
        ensures growing { self.new.growing ≡ self.old.growing }
    {
        let Some(growing) = &self.growing else {
            return;
        };
        if let Some(lock) = self.locks.iter_mut().find(|lock| lock.is_of(name)) {
            lock.follow_grown(self.disk.disk(), growing.newest());
        }
    }

    /// Busy if the file of this name is locked, and the name leads to another path than it did then, as by a link that somebody put in its place.
    fn leads_as_locked(&self, name: &str, path: &str) -> io::Result<()> {
        if self
            .locks
            .iter()
            .any(|lock| lock.is_of(name) && !lock.is_at(path))
        {
            Err(io::Error::from(ErrorKind::ResourceBusy))
        } else {
            Ok(())
        }
    }

    /// The same before a byte of it is set; busy as well if another file has the name by then, unless the one that had bytes set is elsewhere now.
    fn stays_locked(&self, name: &str) -> io::Result<()> {
        if self.disk.has_open(name) {
            let path = resolved(self.disk.disk(), self.alloc, name)?;
            self.leads_as_locked(name, path.as_str())
        } else {
            self.stays_own(name)
        }
    }

    /// The same before it grows; busy as well if another file has the name by then.
    fn stays_own(&self, name: &str) -> io::Result<()> {
        let path = resolved(self.disk.disk(), self.alloc, name)?;
        let path = path.as_str();
        self.leads_as_locked(name, path)?;
        match self.locks.iter().find(|lock| lock.is_of(name)) {
            Some(lock) if !lock.own().still_has(self.disk.disk(), path)? => {
                Err(io::Error::from(ErrorKind::ResourceBusy))
            }
            _ => Ok(()),
        }
    }

    /// Puts a file of these bytes under the name. The new file, open and locked as the old one was; `None` where it is no file.
    fn put(&mut self, name: &str, bytes: &[u8]) -> Result<Option<D::File>, StoreFault>
        ensures asks { D.discloses → Adds (MayPut D.leads name.now bytes.now)
            (D.asked self.old.disk) (D.asked self.new.disk) }
        ensures on_disk { D.discloses
            → OnOk result (IsWritten D.leads name.now bytes.now (D.asked self.new.disk)) }
        ensures growing { self.new.growing ≡ self.old.growing }
    {
        let path = resolved(self.disk.disk(), self.alloc, name)?;
        let path = path.as_str();
        self.leads_as_locked(name, path)?;
        let lock = self.locks.iter().find(|lock| lock.is_of(name));
        let access = match target_of(self.disk.disk(), path)? {
            Target::Device => {
                self.disk.closed().write_device(path, bytes)?;
                return Ok(None);
            }
            Target::New => None,
            Target::File(access) => Some(access),
        };
        let file = replace(self.disk.closed(), self.alloc, path, lock, access, bytes)?;
        Ok(Some(file))
    }

    fn place(&mut self, name: &str) -> io::Result<WriteMode>
        ensures asks { D.discloses → Adds (MayLook D.leads name.now)
            (D.asked self.old.disk) (D.asked self.new.disk) }
        ensures tried { D.discloses → IfOk result (λ place. place ≡ WriteMode.Growing
            → HasLooked D.leads name.now (D.asked self.new.disk)) }
    {
        let path = resolved(self.disk.disk(), self.alloc, name)?;
        let path = path.as_str();
        match target_of(self.disk.disk(), path)? {
            Target::Device => Ok(WriteMode::Once),
            Target::New | Target::File(_) => {
                try_beside(self.disk.closed(), self.alloc, path)?;
                Ok(WriteMode::Growing)
            }
        }
    }

    /// What it has for the growth of the file of this name, opened where it has nothing.
    fn growing_of(&mut self, name: &str) -> io::Result<Growing<D>>
        ensures asks { D.discloses
            → Adds (Either (MaySettle (copy_of self.old.growing)) (MayOpen D.leads name.now))
            (D.asked self.old.disk) (D.asked self.new.disk) }
        ensures growing { D.discloses
            → IsReady D.leads D.opened D.folder_of self.old.growing (D.asked self.old.disk)
            → IfOk result (λ growing. HasGrowing D.leads D.opened D.folder_of growing
            (D.asked self.new.disk)) }
        ensures name { IfOk result (λ growing. string_bytes growing.name ≡ name.now) }
        ensures taken { self.new.growing ≡ None }
    {
        match self.growing.take() {
            Some(growing) if growing.is_of(name) => Ok(growing),
            Some(other) => {
                let disk = self.disk.closed();
                other.settle(disk);
                Growing::open(disk, self.alloc, name)
            }
            None => Growing::open(self.disk.closed(), self.alloc, name),
        }
    }

    fn grow(&mut self, name: &str, front: &[u8], tail: &[u8]) -> Result<(), StoreFault>
        ensures asks { D.discloses
            → IsReady D.leads D.opened D.folder_of self.old.growing (D.asked self.old.disk)
            → Adds (Either (MaySettle (copy_of self.old.growing)) (MayGrow D.leads name.now))
            (D.asked self.old.disk) (D.asked self.new.disk) }
        ensures on_disk { D.discloses
            → IsReady D.leads D.opened D.folder_of self.old.growing (D.asked self.old.disk)
            → OnOk result (HasExtended D.leads name.now front.now tail.now
            (D.asked self.old.disk) (D.asked self.new.disk)) }
        ensures ready { D.discloses
            → IsReady D.leads D.opened D.folder_of self.old.growing (D.asked self.old.disk)
            → IsReady D.leads D.opened D.folder_of self.new.growing (D.asked self.new.disk) }
    {
        let growing = self.growing_of(name)?;
        let growing = growing.extended(self.disk.closed(), self.alloc, front, tail)?;
        self.growing = Some(growing);
        Ok(())
    }
}

/// What stands under this path, where it can be written.
fn target_of<D: Disk>(disk: &D, path: &str) -> io::Result<Target>
    ensures { IfOk result (λ target. target ≡ Target.Device → D.is_device disk.now path.now) }
{
    match disk.status(path) {
        Ok(found) => match found.kind {
            FileKind::Folder => Err(io::Error::from(ErrorKind::IsADirectory)),
            FileKind::Regular => {
                disk.try_to_write(path)?;
                Ok(Target::File(found.access))
            }
            FileKind::Device => Ok(Target::Device),
        },
        Err(error) if error.kind() == ErrorKind::NotFound => Ok(Target::New),
        Err(error) => Err(error),
    }
}

impl<D: Disk> Store for FileStore<D> {
    ghost files = { λ _. None };

    fn lock(&mut self, alloc: Global, name: &str) -> Result<(), StoreFault> {
        if self.locks.iter().any(|lock| lock.is_of(name)) {
            return Ok(());
        }
        // The room first: a lock that there is no room for would leave its file.
        self.locks.reserve(1)?;
        if let Some(lock) = FileLock::take(self.disk.closed(), alloc, name)? {
            if self.locks.push(lock).is_err() {
                return Err(StoreFault::OutOfMemory);
            }
        }
        Ok(())
    }

    fn read(&mut self, alloc: Global, name: &str) -> Result<Vec<u8>, StoreFault>
        ensures limit { IfOk result (λ bytes. length bytes.items ≤ MAX_INPUT) }
        ensures same { self.new ≡ self.old }
    {
        read_all(alloc, &mut self.disk.disk().open_to_read(name)?)
    }

    fn write(&mut self, name: &str, bytes: &[u8]) -> Result<(), StoreFault>
        ensures asks { D.discloses
            → Adds (Either (MaySettle (copy_of self.old.growing))
            (MayPut D.leads name.now bytes.now))
            (D.asked self.old.disk) (D.asked self.new.disk) }
        ensures on_disk { D.discloses
            → OnOk result (IsWritten D.leads name.now bytes.now (D.asked self.new.disk)) }
        ensures settled { self.new.growing ≡ None }
    {
        self.settle();
        let file = self.put(name, bytes)?;
        self.follow(name, file);
        Ok(())
    }

    fn look(&mut self, name: &str) -> Result<WriteMode, StoreFault>
        ensures asks { D.discloses → Adds (MayLook D.leads name.now)
            (D.asked self.old.disk) (D.asked self.new.disk) }
        ensures tried { D.discloses → IfOk result (λ place. place ≡ WriteMode.Growing
            → HasLooked D.leads name.now (D.asked self.new.disk)) }
    {
        Ok(self.place(name)?)
    }

    fn is_one_file(&mut self, alloc: Global, one: &str, other: &str) -> Result<bool, StoreFault>
        ensures two { IfOk result (λ is_one. is_one ≡ false → one.now ≢ other.now) }
        ensures same { self.new ≡ self.old }
    {
        if one == other {
            return Ok(true);
        }
        Ok(lead_to_one(self.disk.disk(), alloc, one, other)?)
    }

    fn extend(
        &mut self,
        _alloc: Global,
        name: &str,
        front: &[u8],
        tail: &[u8],
    ) -> Result<(), StoreFault>
        ensures asks { D.discloses
            → IsReady D.leads D.opened D.folder_of self.old.growing (D.asked self.old.disk)
            → Adds (Either (MaySettle (copy_of self.old.growing)) (MayGrow D.leads name.now))
            (D.asked self.old.disk) (D.asked self.new.disk) }
        ensures on_disk { D.discloses
            → IsReady D.leads D.opened D.folder_of self.old.growing (D.asked self.old.disk)
            → OnOk result (HasExtended D.leads name.now front.now tail.now
            (D.asked self.old.disk) (D.asked self.new.disk)) }
        ensures ready { D.discloses
            → IsReady D.leads D.opened D.folder_of self.old.growing (D.asked self.old.disk)
            → IsReady D.leads D.opened D.folder_of self.new.growing (D.asked self.new.disk) }
    {
        self.stays_own(name)?;
        self.grow(name, front, tail)?;
        self.follow_grown(name);
        Ok(())
    }

    fn set_byte(
        &mut self,
        _alloc: Global,
        name: &str,
        place: usize,
        byte: u8,
    ) -> Result<(), StoreFault>
        ensures asks { D.discloses
            → Adds (Either (MaySettle (copy_of self.old.growing))
            (MaySet D.leads name.now place byte))
            (D.asked self.old.disk) (D.asked self.new.disk) }
        ensures on_disk { D.discloses
            → OnOk result (HasSet D.leads name.now place byte
            (D.asked self.old.disk) (D.asked self.new.disk)) }
        ensures settled { self.new.growing ≡ None }
    {
        self.settle();
        self.stays_locked(name)?;
        Ok(self.disk.set_byte(self.alloc, name, place, byte)?)
    }

    fn settle(&mut self)
        ensures asks { D.discloses → Adds (MaySettle (copy_of self.old.growing))
            (D.asked self.old.disk) (D.asked self.new.disk) }
        ensures settled { self.new.growing ≡ None }
    {
        if let Some(growing) = self.growing.take() {
            growing.settle(self.disk.closed());
        }
    }
}
