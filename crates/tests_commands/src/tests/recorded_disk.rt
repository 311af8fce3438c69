//! A disk of the tests' own that records what it is asked to change, and fails at one of these calls.
ghost use Rattle.std.specs.Prelude.{[]};

use rje_store::{ChangeTime, Disk, FileAccess, FileKind, FileStatus, NewAccess};
use std::alloc::Global;
use std::cell::Cell;
use std::fs::TryLockError;
use std::io::{self, ErrorKind, Read};

/// A disk on which the same stands under each name: nothing, or a file of this many bytes, or a device. What stands under a name that begins
/// with /second/ is on a second disk, with the same number.
#[derive(Drop)]
pub(super) struct RecordedDisk {
    alloc: Global,
    kind: Option<FileKind>,
    len: u64,
    // What it was asked, a line for each call.
    asked: Vec<u8>,
    count: usize,
    fails_at: usize,
    fault: ErrorKind,
    // How many names each file has.
    pub(super) links: Cell<u64>,
}

/// An open file, as it was called when it was opened.
#[derive(Drop)]
pub(super) struct RecordedFile {
    name: String,
}

impl RecordedDisk {
    /// A disk whose call of this number fails; none does at 0.
    pub(super) fn new(alloc: Global, kind: Option<FileKind>, len: u64, fails_at: usize) -> Self {
        RecordedDisk {
            alloc,
            kind,
            len,
            asked: Vec::new(alloc),
            count: 0,
            fails_at,
            fault: ErrorKind::StorageFull,
            links: Cell::new(1),
        }
    }

    /// The same disk, where that call fails so.
    pub(super) fn failing_by(self, fault: ErrorKind) -> Self {
        let RecordedDisk {
            alloc,
            kind,
            len,
            asked,
            count,
            fails_at,
            fault: _,
            links,
        } = self;
        RecordedDisk {
            alloc,
            kind,
            len,
            asked,
            count,
            fails_at,
            fault,
            links,
        }
    }

    /// What it was asked, a line for each call.
    pub(super) fn asked(&self) -> &[u8] {
        self.asked.as_slice()
    }

    fn note(&mut self, words: &[&[u8]]) -> io::Result<()> {
        for word in words {
            self.asked.extend_from_slice(word)?;
        }
        self.asked.push(b'\n')?;
        self.count = self.count.saturating_add(1);
        if self.count == self.fails_at {
            return Err(io::Error::from(self.fault));
        }
        Ok(())
    }

    fn opened(&self, name: &str) -> io::Result<RecordedFile> {
        Ok(RecordedFile {
            name: String::from_str(self.alloc, name)?,
        })
    }

    fn found(&self, device: u64) -> io::Result<FileStatus> {
        match self.kind {
            Some(kind) => Ok(FileStatus {
                kind,
                access: FileAccess {
                    mode: 0o640,
                    owner: 0,
                    group: 0,
                },
                len: self.len,
                device,
                inode: 1,
                links: self.links.get(),
                changed: ChangeTime {
                    seconds: 0,
                    nanoseconds: 0,
                },
            }),
            None => Err(io::Error::from(ErrorKind::NotFound)),
        }
    }
}

impl Read for RecordedFile {
    fn read(&mut self, _buf: &mut [u8]) -> io::Result<usize> {
        Ok(0)
    }
}

impl Disk for RecordedDisk {
    type File = RecordedFile;

    type Folder = RecordedFile;

    ghost discloses = { ⊥ };

    ghost asked = { λ _. [] };

    ghost opened = { λ _. record { name = []; number = 0 } };

    ghost folder_of = { λ _. [] };

    ghost leads = { λ _ _. Unit {0} };

    ghost is_device = { λ _ _. Unit {0} };

    fn status(&self, name: &str) -> io::Result<FileStatus> {
        self.found(if name.starts_with("/second/") { 2 } else { 1 })
    }

    fn status_of_name(&self, name: &str) -> io::Result<FileStatus> {
        self.status(name)
    }

    fn status_of(&self, file: &RecordedFile) -> io::Result<FileStatus> {
        self.status(file.name.as_str())
    }

    fn is_link(&self, _name: &str) -> io::Result<bool> {
        Ok(false)
    }

    fn whole_path(&self, alloc: Global, name: &str) -> io::Result<String> {
        Ok(String::from_str(alloc, name)?)
    }

    fn open_to_read(&self, name: &str) -> io::Result<RecordedFile> {
        self.opened(name)
    }

    fn open_to_lock(&self, name: &str) -> io::Result<RecordedFile> {
        self.opened(name)
    }

    fn try_to_write(&self, _name: &str) -> io::Result<()> {
        Ok(())
    }

    fn create(&mut self, name: &str, access: NewAccess) -> io::Result<RecordedFile> {
        match access {
            NewAccess::Usual => self.note(&[b"create ", name.as_bytes()])?,
            NewAccess::Private => self.note(&[b"create private ", name.as_bytes()])?,
        }
        self.opened(name)
    }

    fn open_to_copy(&mut self, name: &str) -> io::Result<RecordedFile> {
        self.note(&[b"open ", name.as_bytes()])?;
        self.opened(name)
    }

    fn open_to_write(&mut self, name: &str) -> io::Result<RecordedFile> {
        self.note(&[b"open ", name.as_bytes()])?;
        self.opened(name)
    }

    fn open_or_create(&mut self, name: &str) -> io::Result<RecordedFile> {
        self.note(&[b"open or create ", name.as_bytes()])?;
        self.opened(name)
    }

    fn try_lock(&self, _file: &RecordedFile) -> Result<(), TryLockError> {
        Ok(())
    }

    fn set_owner(&mut self, file: &RecordedFile, _owner: u32, _group: u32) -> io::Result<bool> {
        self.note(&[b"owner of ", file.name.as_bytes()])?;
        Ok(true)
    }

    fn set_mode(&mut self, file: &RecordedFile, _mode: u32) -> io::Result<()> {
        self.note(&[b"mode of ", file.name.as_bytes()])
    }

    fn fill(&mut self, file: &RecordedFile, bytes: &[u8]) -> io::Result<()> {
        self.note(&[b"fill ", file.name.as_bytes(), b" with ", bytes])
    }

    fn go_on(
        &mut self,
        file: &RecordedFile,
        from: &RecordedFile,
        _place: u64,
        bytes: &[u8],
    ) -> io::Result<()> {
        self.note(&[
            b"go on with ",
            file.name.as_bytes(),
            b" as ",
            from.name.as_bytes(),
            b" and ",
            bytes,
        ])
    }

    fn write_at(&mut self, file: &RecordedFile, _place: u64, bytes: &[u8]) -> io::Result<()> {
        self.note(&[b"write to ", file.name.as_bytes(), b": ", bytes])
    }

    fn sync(&mut self, file: &RecordedFile) -> io::Result<()> {
        self.note(&[b"sync ", file.name.as_bytes()])
    }

    fn sync_bytes(&mut self, file: &RecordedFile) -> io::Result<()> {
        self.note(&[b"sync bytes of ", file.name.as_bytes()])
    }

    fn rename(&mut self, from: &str, to: &str) -> io::Result<()> {
        self.note(&[b"rename ", from.as_bytes(), b" to ", to.as_bytes()])
    }

    fn link(&mut self, from: &str, to: &str) -> io::Result<()> {
        self.note(&[b"link ", from.as_bytes(), b" as ", to.as_bytes()])
    }

    fn remove(&mut self, name: &str) -> io::Result<()> {
        self.note(&[b"remove ", name.as_bytes()])
    }

    fn open_folder(&self, path: &str) -> io::Result<RecordedFile> {
        self.opened(path)
    }

    fn sync_folder(&mut self, folder: &RecordedFile) -> io::Result<()> {
        self.note(&[b"sync folder of ", folder.name.as_bytes()])
    }

    fn write_device(&mut self, name: &str, bytes: &[u8]) -> io::Result<()> {
        self.note(&[b"write to device ", name.as_bytes(), b": ", bytes])
    }
}
