//! What the system is asked about files, one method for each thing.
ghost use Rattle.std.specs.Prelude.{◌≡◌, ℕ, List, ◌∷◌, length, None, IfOk, IfSome, OnOk, string_bytes};
ghost use Rattle.rje_store.specs.Disk.{Asked, Opened, Create, OpenLock, SetOwner, SetMode, Fill, GoOn, WriteAt, Sync, SyncBytes, Rename, Link, Remove, SyncFolder, WriteDevice, IsOpened, came_to, seen_as, standing, bytes_of};

use crate::new_access::NewAccess;
use std::alloc::Global;
use std::fs::{Metadata, TryLockError};
use std::io::{self, Read};
use std::os::unix::fs::MetadataExt;

/// What kind of file stands under a name.
#[derive(Clone, Copy, Debug, PartialEq, Eq)]
pub enum FileKind {
    /// A file on disk.
    Regular,
    /// A folder.
    Folder,
    /// A device or a pipe.
    Device,
}

/// When the bytes of a file last changed, by the clock of its disk, since 1970.
#[derive(Clone, Copy, Debug, PartialEq, Eq)]
pub struct ChangeTime {
    /// The whole seconds.
    pub seconds: i64,
    /// The rest of it.
    pub nanoseconds: i64,
}

/// Who may read and write a file.
#[derive(Clone, Copy, Debug, PartialEq, Eq)]
pub struct FileAccess {
    /// What its owner, its group and others may do, as the bits of its mode.
    pub mode: u32,
    /// Its owner, as a number.
    pub owner: u32,
    /// Its group, as a number.
    pub group: u32,
}

/// What the system says of a file.
#[derive(Drop)]
pub struct FileStatus {
    /// The kind of file.
    pub kind: FileKind,
    /// Who may read and write it.
    pub access: FileAccess,
    /// How many bytes it has.
    pub len: u64,
    /// The disk that it is on, as a number.
    pub device: u64,
    /// Its number on that disk.
    pub inode: u64,
    /// How many names it has.
    pub links: u64,
    /// When its bytes last changed.
    pub changed: ChangeTime,
}

impl From<Metadata> for FileStatus {
    fn from(found: Metadata) -> FileStatus {
        FileStatus {
            kind: kind_of(&found),
            access: FileAccess {
                mode: found.mode() & 0o777,
                owner: found.uid(),
                group: found.gid(),
            },
            len: found.len(),
            device: found.dev(),
            inode: found.ino(),
            links: found.nlink(),
            changed: ChangeTime {
                seconds: found.mtime(),
                nanoseconds: found.mtime_nsec(),
            },
        }
    }
}

fn kind_of(found: &Metadata) -> FileKind {
    if found.is_dir() {
        FileKind::Folder
    } else if found.is_file() {
        FileKind::Regular
    } else {
        FileKind::Device
    }
}

/// A disk with files. One that discloses what it was asked was asked just that, in this order. Each call may fail at any time, and one that
/// failed may be done, in part or whole.
pub trait Disk {
    /// An open file.
    type File: Read + Drop;

    /// The open folder of a file.
    type Folder: Drop;

    /// The disk discloses what it was asked.
    ghost discloses: { Type 0 };

    /// What it was asked so far that changes something or opens what may be changed, the last call first.
    ghost asked: { Self → List Asked };

    /// Which file this is.
    ghost opened: { Self.File → Opened };

    /// Of which file this is the folder.
    ghost folder_of: { Self.Folder → List ℕ };

    /// A name leads to this path.
    ghost leads: { List ℕ → List ℕ → Type 0 };

    /// A device or a pipe stands under this name.
    ghost is_device: { Self → List ℕ → Type 0 };

    /// What stands under a name, through links.
    fn status(&self, name: &str) -> io::Result<FileStatus>
        ensures { IfOk result (λ status. status.kind ≡ FileKind.Device
            → is_device self.now name.now) };

    /// What stands under a name, itself and not what it leads to: a symbolic link is a device then.
    fn status_of_name(&self, name: &str) -> io::Result<FileStatus>;

    /// What an open file is.
    fn status_of(&self, file: &Self::File) -> io::Result<FileStatus>
        ensures { discloses → IfOk result (λ status.
            IfSome (bytes_of (opened file.now).number (asked self.now))
            (λ bytes. status.len ≡ length bytes)) };

    /// Whether a symbolic link stands under a name.
    fn is_link(&self, name: &str) -> io::Result<bool>;

    /// The path of what a name leads to, without links and dots.
    fn whole_path(&self, alloc: Global, name: &str) -> io::Result<String>
        ensures { IfOk result (λ path. leads name.now (string_bytes path)) };

    /// The file under a name, open to be read.
    fn open_to_read(&self, name: &str) -> io::Result<Self::File>
        ensures { discloses → IfOk result (λ file. (opened file).name ≡ name.now) };

    /// The file under a name, open to be read and written.
    fn open_to_lock(&self, name: &str) -> io::Result<Self::File>;

    /// Whether the file under a name can be opened to be written.
    fn try_to_write(&self, name: &str) -> io::Result<()>;

    /// A new, empty file under a name that no file has, open to be read and written, for those whom `access` says.
    fn create(&mut self, name: &str, access: NewAccess) -> io::Result<Self::File>
        ensures asks { discloses
            → asked self.new ≡ came_to result (Create access name.now) ∷ asked self.old }
        ensures free { discloses → OnOk result (standing name.now (asked self.old) ≡ None) }
        ensures file { discloses → IfOk result (λ file.
            opened file ≡ record { name = name.now; number = length (asked self.old) }) };

    /// The file under a name, open to be read, of which a copy is to be made.
    fn open_to_copy(&mut self, name: &str) -> io::Result<Self::File>
        ensures asks { discloses → IsOpened result name.now (asked self.old) (asked self.new) }
        ensures file { discloses → IfOk result (λ file.
            opened file ≡ record { name = name.now; number = seen_as name.now (asked self.old) }) };

    /// The file under a name, open to be written.
    fn open_to_write(&mut self, name: &str) -> io::Result<Self::File>
        ensures asks { discloses → IsOpened result name.now (asked self.old) (asked self.new) }
        ensures file { discloses → IfOk result (λ file.
            opened file ≡ record { name = name.now; number = seen_as name.now (asked self.old) }) };

    /// The file under a name, open to be read and written: an empty one where there is none, that its owner alone may read and write.
    fn open_or_create(&mut self, name: &str) -> io::Result<Self::File>
        ensures asks { discloses
            → asked self.new ≡ came_to result (OpenLock name.now) ∷ asked self.old }
        ensures file { discloses → IfOk result (λ file.
            opened file ≡ record { name = name.now; number = seen_as name.now (asked self.old) }) };

    /// Locks an open file, as long as it is open.
    fn try_lock(&self, file: &Self::File) -> Result<(), TryLockError>;

    /// Gives a file this owner and this group, or the group alone where it can't have the owner. Whether it has the group.
    fn set_owner(&mut self, file: &Self::File, owner: u32, group: u32) -> io::Result<bool>
        ensures { discloses
            → asked self.new ≡ came_to result (SetOwner (opened file.now)) ∷ asked self.old };

    /// Gives a file this mode.
    fn set_mode(&mut self, file: &Self::File, mode: u32) -> io::Result<()>
        ensures { discloses
            → asked self.new ≡ came_to result (SetMode (opened file.now)) ∷ asked self.old };

    /// Writes these bytes into a file that is empty.
    fn fill(&mut self, file: &Self::File, bytes: &[u8]) -> io::Result<()>
        ensures { discloses → asked self.new
            ≡ came_to result (Fill (opened file.now) bytes.now) ∷ asked self.old };

    /// Makes a file of `place` bytes go on as another one does from there, and then with these bytes.
    fn go_on(
        &mut self,
        file: &Self::File,
        from: &Self::File,
        place: u64,
        bytes: &[u8],
    ) -> io::Result<()>
        ensures { discloses → asked self.new
            ≡ came_to result (GoOn (opened file.now) (opened from.now) place bytes.now)
            ∷ asked self.old };

    /// Writes these bytes at a place of a file.
    fn write_at(&mut self, file: &Self::File, place: u64, bytes: &[u8]) -> io::Result<()>
        ensures { discloses → asked self.new
            ≡ came_to result (WriteAt (opened file.now) place bytes.now) ∷ asked self.old };

    /// Puts a file on disk.
    fn sync(&mut self, file: &Self::File) -> io::Result<()>
        ensures { discloses
            → asked self.new ≡ came_to result (Sync (opened file.now)) ∷ asked self.old };

    /// Puts the bytes of a file on disk.
    fn sync_bytes(&mut self, file: &Self::File) -> io::Result<()>
        ensures { discloses
            → asked self.new ≡ came_to result (SyncBytes (opened file.now)) ∷ asked self.old };

    /// Gives the file under one name another name, in place of the file there.
    fn rename(&mut self, from: &str, to: &str) -> io::Result<()>
        ensures { discloses
            → asked self.new ≡ came_to result (Rename from.now to.now) ∷ asked self.old };

    /// Gives the file under one name a second name, that no file has.
    fn link(&mut self, from: &str, to: &str) -> io::Result<()>
        ensures asks { discloses
            → asked self.new ≡ came_to result (Link from.now to.now) ∷ asked self.old }
        ensures free { discloses → OnOk result (standing to.now (asked self.old) ≡ None) };

    /// Takes a name away.
    fn remove(&mut self, name: &str) -> io::Result<()>
        ensures { discloses → asked self.new ≡ came_to result (Remove name.now) ∷ asked self.old };

    /// Opens the folder of the file of this path.
    fn open_folder(&self, path: &str) -> io::Result<Self::Folder>
        ensures { discloses → IfOk result (λ folder. folder_of folder ≡ path.now) };

    /// Puts the names in a folder on disk. An invalid input where its file system keeps no names to be put on disk.
    fn sync_folder(&mut self, folder: &Self::Folder) -> io::Result<()>
        ensures { discloses
            → asked self.new ≡ came_to result (SyncFolder (folder_of folder.now))
            ∷ asked self.old };

    /// Writes these bytes to the device or the pipe under a name.
    fn write_device(&mut self, name: &str, bytes: &[u8]) -> io::Result<()>
        requires { is_device self.old name.now }
        ensures { discloses
            → asked self.new ≡ came_to result (WriteDevice name.now bytes.now) ∷ asked self.old };
}
