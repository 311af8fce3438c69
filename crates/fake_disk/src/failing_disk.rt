//! A disk in memory that fails at one of its calls.
ghost use Rattle.std.specs.Prelude.{[]};

use crate::locking::Locking;
use rje_folder::{FileIdentity, FolderDisk};
use rje_store::{ChangeTime, Disk, FileAccess, FileKind, FileStatus, NewAccess};
use std::alloc::Global;
use std::fs::TryLockError;
use std::io::{self, Cursor, ErrorKind, Read};

/// Names with the numbers of their files, and what these have. Of calls that change something, the one of a number fails, and is done or not.
#[derive(Drop)]
pub struct FailingDisk {
    alloc: Global,
    names: Vec<Name>,
    files: u64,
    contents: Vec<Content>,
    calls: usize,
    fails_at: usize,
    is_done: bool,
    // A file that is written to by nobody, and gets no second name.
    denied: u64,
    // A file that another process has locked.
    locked: u64,
    // A file whose names nobody changes.
    stuck: u64,
    // What others do meanwhile.
    meanwhile: Option<Meanwhile>,
    // From this call on none is done; of no number at 0.
    ends_at: usize,
    // The folders that were made, where there were none; and whether their names are on disk.
    folders: Option<usize>,
    are_on_disk: bool,
    // What comes of each lock.
    locking: Locking,
    // A folder whose names can't be seen.
    hidden: Option<String>,
    // A name that is listed though no file has it any more.
    listed: Option<String>,
    // The most bytes that a file has room for.
    room: usize,
}

/// At a call of this number another file is put in the place of the one under a path, or that one is written to.
#[derive(Drop)]
struct Meanwhile {
    at: usize,
    path: String,
    // What the other file has; none where the one that is there is written to.
    bytes: Option<Vec<u8>>,
    // Whether it was put there, and then whether no file had the path.
    was_free: Option<bool>,
}

/// A name of a file.
#[derive(Drop)]
struct Name {
    path: String,
    file: u64,
}

/// The bytes of a file that isn't empty, and how often they changed.
#[derive(Drop)]
struct Content {
    file: u64,
    bytes: Vec<u8>,
    changes: i64,
}

/// An open file, and what there is to be read of it.
#[derive(Drop)]
pub struct OpenFile {
    file: u64,
    bytes: Cursor<Vec<u8>>,
}

impl FailingDisk {
    /// A disk with no files, whose call of this number fails, done or not; none does at 0.
    pub fn new(alloc: Global, fails_at: usize, is_done: bool) -> FailingDisk {
        FailingDisk {
            alloc,
            names: Vec::new(alloc),
            files: 0,
            contents: Vec::new(alloc),
            calls: 0,
            fails_at,
            is_done,
            denied: 0,
            locked: 0,
            stuck: 0,
            meanwhile: None,
            ends_at: 0,
            folders: None,
            are_on_disk: true,
            locking: Locking::Done,
            hidden: None,
            listed: None,
            room: usize::MAX,
        }
    }

    /// From now on the file of this number is written to by nobody, and gets no second name.
    pub fn deny(&mut self, file: u64) {
        self.denied = file;
    }

    /// From now on another process has the file of this number locked.
    pub fn lock(&mut self, file: u64) {
        self.locked = file;
    }

    /// From now on the names of the file of this number stay.
    pub fn stick(&mut self, file: u64) {
        self.stuck = file;
    }

    /// Right before the call of this number, of those that change something, a file of the bytes NEW is put in the place of the one under a path.
    pub fn put_meanwhile(&mut self, at: usize, path: &str) -> io::Result<()> {
        self.put_bytes_meanwhile(at, path, b"NEW")
    }

    /// The same with a file of these bytes.
    pub fn put_bytes_meanwhile(&mut self, at: usize, path: &str, bytes: &[u8]) -> io::Result<()> {
        let path = String::from_str(self.alloc, path)?;
        let mut own = Vec::new(self.alloc);
        own.extend_from_slice(bytes)?;
        self.meanwhile = Some(Meanwhile {
            at,
            path,
            bytes: Some(own),
            was_free: None,
        });
        Ok(())
    }

    /// Right before the call of this number, of those that change something, the first byte of the file under a path becomes an X.
    pub fn write_meanwhile(&mut self, at: usize, path: &str) -> io::Result<()> {
        let path = String::from_str(self.alloc, path)?;
        self.meanwhile = Some(Meanwhile {
            at,
            path,
            bytes: None,
            was_free: None,
        });
        Ok(())
    }

    /// From now on the names in this folder can't be seen.
    pub fn hide_folder(&mut self, folder: &str) -> io::Result<()> {
        self.hidden = Some(String::from_str(self.alloc, folder)?);
        Ok(())
    }

    /// From now on this name is listed, though no file has it: as if its file was taken away once the list was made.
    pub fn list_too(&mut self, path: &str) -> io::Result<()> {
        self.listed = Some(String::from_str(self.alloc, path)?);
        Ok(())
    }

    /// From now on no file gets more bytes than these.
    pub fn set_room(&mut self, bytes: usize) {
        self.room = bytes;
    }

    /// Whether what was to be put meanwhile was put there, and then whether no file had the path.
    pub fn was_free(&self) -> Option<bool> {
        match &self.meanwhile {
            Some(other) => other.was_free,
            None => None,
        }
    }

    /// There are no folders: each is made from now on.
    pub fn drop_folders(&mut self) {
        self.folders = Some(0);
    }

    /// How many folders were made, where there were none, and their names are on disk.
    pub fn folders_on_disk(&self) -> Option<usize> {
        if self.are_on_disk { self.folders } else { None }
    }

    /// The call of this number fails and isn't done, and so do all that come after it: as if the one who asks was ended then.
    pub fn end_at(&mut self, at: usize) {
        self.ends_at = at;
    }

    /// The next call that changes something fails.
    pub fn fail_next(&mut self) {
        self.fails_at = self.calls.saturating_add(1);
    }

    /// The number of the next call that changes something.
    pub fn next_call(&self) -> usize {
        self.calls.saturating_add(1)
    }

    /// From now on this comes of each lock.
    pub fn lock_so(&mut self, locking: Locking) {
        self.locking = locking;
    }

    /// The same disk, none of whose calls fails any more.
    pub fn mended(self) -> FailingDisk {
        let mut disk = self;
        disk.fails_at = 0;
        disk.ends_at = 0;
        disk
    }

    /// A new file under a name.
    pub fn put(&mut self, path: &str) -> io::Result<u64> {
        self.files = self.files.saturating_add(1);
        let file = self.files;
        self.give(path, file)?;
        Ok(file)
    }

    /// A new file with these bytes under a name.
    pub fn put_bytes(&mut self, path: &str, bytes: &[u8]) -> io::Result<u64> {
        let file = self.put(path)?;
        self.write(file, bytes)?;
        Ok(file)
    }

    /// Whether a file of just these bytes stands under a name.
    pub fn has(&self, path: &str, bytes: &[u8]) -> bool {
        match self.file_of(path) {
            Some(file) => self.bytes_of(file) == bytes,
            None => false,
        }
    }

    fn bytes_of(&self, file: u64) -> &[u8] {
        for content in &self.contents {
            if content.file == file {
                return content.bytes.as_slice();
            }
        }
        &[]
    }

    /// Gives an empty file these bytes.
    fn write(&mut self, file: u64, bytes: &[u8]) -> io::Result<()> {
        let mut own = Vec::new(self.alloc);
        own.extend_from_slice(bytes)?;
        self.contents.push(Content {
            file,
            bytes: own,
            changes: 1,
        })?;
        Ok(())
    }

    /// Sets a byte of a file.
    pub fn set(&mut self, file: u64, place: usize, byte: u8) {
        for content in &mut self.contents {
            if content.file == file && place < content.bytes.len() {
                content.bytes[place] = byte;
                content.changes = content.changes.saturating_add(1);
            }
        }
    }

    /// How often the bytes of a file changed.
    fn changes_of(&self, file: u64) -> i64 {
        for content in &self.contents {
            if content.file == file {
                return content.changes;
            }
        }
        0
    }

    /// Puts a new file with these bytes in the place of the one under a name.
    pub fn replace(&mut self, path: &str, bytes: &[u8]) -> io::Result<u64> {
        self.drop_name(path);
        self.put_bytes(path, bytes)
    }

    /// Takes a name away, where it is there.
    fn drop_name(&mut self, path: &str) {
        if let Some(place) = self.place_of(path) {
            if place < self.names.len() {
                self.names.swap_remove(place);
            }
        }
    }

    fn opened(&self, path: &str) -> io::Result<OpenFile> {
        let file = self.found(path)?;
        let mut bytes = Vec::new(self.alloc);
        bytes.extend_from_slice(self.bytes_of(file))?;
        Ok(OpenFile {
            file,
            bytes: Cursor::new(bytes),
        })
    }

    /// The number of the file under a name.
    pub fn file_of(&self, path: &str) -> Option<u64> {
        for name in &self.names {
            if name.path.as_str() == path {
                return Some(name.file);
            }
        }
        None
    }

    /// How many names there are.
    pub fn count(&self) -> usize {
        self.names.len()
    }

    fn give(&mut self, path: &str, file: u64) -> io::Result<()> {
        let path = String::from_str(self.alloc, path)?;
        self.names.push(Name { path, file })?;
        Ok(())
    }

    /// Counts a call. Whether it is to be done.
    fn begins(&mut self) -> bool {
        self.calls = self.calls.saturating_add(1);
        let _ = self.goes_on_meanwhile();
        !self.is_ended() && (self.calls != self.fails_at || self.is_done)
    }

    /// What others do right before the call that was counted last.
    fn goes_on_meanwhile(&mut self) -> io::Result<()> {
        let Some(other) = self.meanwhile.take() else {
            return Ok(());
        };
        let mut other = other;
        if other.at == self.calls {
            let found = self.file_of(other.path.as_str());
            other.was_free = Some(found.is_none());
            match (&other.bytes, found) {
                (Some(bytes), _) => {
                    self.replace(other.path.as_str(), bytes.as_slice())?;
                }
                (None, Some(file)) => self.set(file, 0, b'X'),
                (None, None) => {}
            }
        }
        self.meanwhile = Some(other);
        Ok(())
    }

    /// Whether nothing is done any more.
    fn is_ended(&self) -> bool {
        self.ends_at != 0 && self.ends_at <= self.calls
    }

    /// How the call ends that was counted last.
    fn ended(&self) -> io::Result<()> {
        if self.calls == self.fails_at || self.is_ended() {
            return Err(io::Error::from(ErrorKind::StorageFull));
        }
        Ok(())
    }

    fn found(&self, path: &str) -> io::Result<u64> {
        self.file_of(path)
            .ok_or(io::Error::from(ErrorKind::NotFound))
    }

    fn place_of(&self, path: &str) -> Option<usize> {
        for (place, name) in self.names.iter().enumerate() {
            if name.path.as_str() == path {
                return Some(place);
            }
        }
        None
    }

    fn links_of(&self, file: u64) -> u64 {
        if self.locking == Locking::OfNoName {
            return 0;
        }
        let mut links: u64 = 0;
        for name in &self.names {
            if name.file == file {
                links = links.saturating_add(1);
            }
        }
        links
    }

    fn status_of_file(&self, file: u64) -> FileStatus {
        FileStatus {
            kind: FileKind::Regular,
            access: FileAccess {
                mode: 0o640,
                owner: 0,
                group: 0,
            },
            len: self.bytes_of(file).len() as u64,
            device: 1,
            inode: file,
            links: self.links_of(file),
            changed: ChangeTime {
                seconds: self.changes_of(file),
                nanoseconds: 0,
            },
        }
    }
}

impl Read for OpenFile {
    fn read(&mut self, buf: &mut [u8]) -> io::Result<usize> {
        self.bytes.read(buf)
    }
}

impl Disk for FailingDisk {
    type File = OpenFile;

    type Folder = ();

    ghost discloses = { ⊥ };

    ghost asked = { λ _. [] };

    ghost opened = { λ _. record { name = []; number = 0 } };

    ghost folder_of = { λ _. [] };

    ghost leads = { λ _ _. Unit {0} };

    ghost is_device = { λ _ _. Unit {0} };

    fn status(&self, name: &str) -> io::Result<FileStatus> {
        let file = self.found(name)?;
        Ok(self.status_of_file(file))
    }

    fn status_of_name(&self, name: &str) -> io::Result<FileStatus> {
        self.status(name)
    }

    fn status_of(&self, file: &OpenFile) -> io::Result<FileStatus> {
        Ok(self.status_of_file(file.file))
    }

    fn is_link(&self, _name: &str) -> io::Result<bool> {
        Ok(false)
    }

    fn whole_path(&self, alloc: Global, name: &str) -> io::Result<String> {
        Ok(String::from_str(alloc, name)?)
    }

    fn open_to_read(&self, name: &str) -> io::Result<OpenFile> {
        self.opened(name)
    }

    fn open_to_lock(&self, name: &str) -> io::Result<OpenFile> {
        self.open_to_read(name)
    }

    fn try_to_write(&self, name: &str) -> io::Result<()> {
        if self.found(name)? == self.denied {
            return Err(io::Error::from(ErrorKind::PermissionDenied));
        }
        Ok(())
    }

    fn create(&mut self, name: &str, _access: NewAccess) -> io::Result<OpenFile> {
        if self.file_of(name).is_some() {
            return Err(io::Error::from(ErrorKind::AlreadyExists));
        }
        if self.begins() {
            if self.file_of(name).is_some() {
                return Err(io::Error::from(ErrorKind::AlreadyExists));
            }
            self.put(name)?;
        }
        self.ended()?;
        self.open_to_read(name)
    }

    fn open_to_copy(&mut self, name: &str) -> io::Result<OpenFile> {
        self.open_to_read(name)
    }

    fn open_to_write(&mut self, name: &str) -> io::Result<OpenFile> {
        self.open_to_read(name)
    }

    fn open_or_create(&mut self, name: &str) -> io::Result<OpenFile> {
        if self.file_of(name).is_none() {
            self.put(name)?;
        }
        self.open_to_read(name)
    }

    fn try_lock(&self, _file: &OpenFile) -> Result<(), TryLockError> {
        match self.locking {
            Locking::Done | Locking::OfNoName => Ok(()),
            Locking::InUse => Err(TryLockError::WouldBlock),
            Locking::Fails => Err(TryLockError::Error(io::Error::from(ErrorKind::Unsupported))),
        }
    }

    fn set_owner(&mut self, _file: &OpenFile, _owner: u32, _group: u32) -> io::Result<bool> {
        self.begins();
        self.ended()?;
        Ok(true)
    }

    fn set_mode(&mut self, _file: &OpenFile, _mode: u32) -> io::Result<()> {
        self.begins();
        self.ended()
    }

    fn fill(&mut self, file: &OpenFile, bytes: &[u8]) -> io::Result<()> {
        if self.begins() {
            if self.room < bytes.len() {
                return Err(io::Error::from(ErrorKind::StorageFull));
            }
            self.write(file.file, bytes)?;
        }
        self.ended()
    }

    fn go_on(
        &mut self,
        _file: &OpenFile,
        _from: &OpenFile,
        _place: u64,
        _bytes: &[u8],
    ) -> io::Result<()> {
        Err(io::Error::from(ErrorKind::Unsupported))
    }

    fn write_at(&mut self, file: &OpenFile, place: u64, bytes: &[u8]) -> io::Result<()> {
        if self.begins() {
            for byte in bytes {
                self.set(file.file, place as usize, *byte);
            }
        }
        self.ended()
    }

    fn sync(&mut self, _file: &OpenFile) -> io::Result<()> {
        self.begins();
        self.ended()
    }

    fn sync_bytes(&mut self, _file: &OpenFile) -> io::Result<()> {
        self.begins();
        self.ended()
    }

    fn rename(&mut self, from: &str, to: &str) -> io::Result<()> {
        if self.found(from)? == self.stuck {
            return Err(io::Error::from(ErrorKind::PermissionDenied));
        }
        if self.begins() {
            let file = self.found(from)?;
            self.drop_name(from);
            self.drop_name(to);
            self.give(to, file)?;
        }
        self.ended()
    }

    fn link(&mut self, from: &str, to: &str) -> io::Result<()> {
        let file = self.found(from)?;
        if self.file_of(to).is_some() {
            return Err(io::Error::from(ErrorKind::AlreadyExists));
        }
        if file == self.denied {
            return Err(io::Error::from(ErrorKind::PermissionDenied));
        }
        if self.begins() {
            if self.file_of(to).is_some() {
                return Err(io::Error::from(ErrorKind::AlreadyExists));
            }
            self.give(to, file)?;
        }
        self.ended()
    }

    fn remove(&mut self, name: &str) -> io::Result<()> {
        self.found(name)?;
        if self.begins() {
            self.drop_name(name);
        }
        self.ended()
    }

    fn open_folder(&self, _path: &str) -> io::Result<()> {
        Ok(())
    }

    fn sync_folder(&mut self, _folder: &()) -> io::Result<()> {
        // One that comes first has nothing to put on disk, and isn't counted.
        if self.calls == 0 {
            return Ok(());
        }
        if self.begins() {
            self.are_on_disk = true;
        }
        self.ended()
    }

    fn write_device(&mut self, _name: &str, _bytes: &[u8]) -> io::Result<()> {
        Err(io::Error::from(ErrorKind::Unsupported))
    }
}

impl FolderDisk for FailingDisk {
    ghost are_one = { λ _ _ _. Unit {0} };

    ghost is_file = { λ _ _ _. Unit {0} };

    ghost is_open = { λ _ _ _. Unit {0} };

    ghost has_names = { λ _ _ _. Unit {0} };

    ghost is_locked = { λ _. Unit {0} };

    fn is_one_file(&self, one: &str, other: &str) -> io::Result<bool> {
        Ok(self.found(one)? == self.found(other)?)
    }

    fn identity(&self, name: &str) -> io::Result<FileIdentity> {
        Ok(FileIdentity::of(&self.status(name)?))
    }

    fn identity_of(&self, file: &OpenFile) -> io::Result<FileIdentity> {
        Ok(FileIdentity::of(&self.status_of(file)?))
    }

    fn try_lock_to_read(&self, file: &OpenFile) -> Result<(), TryLockError> {
        if self.locked == file.file {
            return Err(TryLockError::WouldBlock);
        }
        Ok(())
    }

    fn names_in(&self, alloc: Global, folder: &str) -> io::Result<Vec<String>> {
        if let Some(hidden) = &self.hidden {
            if hidden.as_str() == folder {
                return Err(io::Error::from(ErrorKind::PermissionDenied));
            }
        }
        let mut names = Vec::new(alloc);
        for name in &self.names {
            if let Some(own) = own_name(name.path.as_str(), folder) {
                names.push(String::from_str(alloc, own)?)?;
            }
        }
        if let Some(listed) = &self.listed {
            if let Some(own) = own_name(listed.as_str(), folder) {
                names.push(String::from_str(alloc, own)?)?;
            }
        }
        Ok(names)
    }

    fn count_unreadable_names(&self, _folder: &str) -> io::Result<usize> {
        Ok(0)
    }

    fn make_folder(&mut self, _path: &str) -> io::Result<()> {
        let Some(made) = self.folders else {
            return Ok(());
        };
        if self.begins() {
            self.folders = Some(made.saturating_add(1));
            self.are_on_disk = false;
        }
        self.ended()
    }
}

/// The name that a path has in this folder, if it is there.
fn own_name<'a>(path: &'a str, folder: &str) -> Option<&'a str> {
    match path.rsplit_once('/') {
        Some((of, own)) if of == folder => Some(own),
        _ => None,
    }
}
