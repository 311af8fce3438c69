//! What no clause says of a station's spool: names, marks, times, lines, and what it holds.
mod braking;
mod console;
mod cutting;
mod given;
mod holding;
mod keeping;
mod locks;
mod page;
mod passing;
mod sending;
mod step;
mod telling;
mod test_clock;
mod watching;

use fake_disk::{FailingDisk, SharedDisk};
use page::Page;
use rje_folder::StationFolder;
use rje_spool::{Console, FolderSpool};
use rje_store::Disk;
use std::alloc::Global;
use std::cell::{Cell, RefCell};
use std::process::Abort;
use test_clock::TestClock;

/// A spool of the tests.
type TestSpool<'a> = FolderSpool<SharedDisk<'a>, TestClock<'a>, Page<'a>, Page<'a>>;

/// What a spool uses: a disk, a clock, the page of its console, and its log.
#[derive(Drop)]
struct Ground {
    alloc: Global,
    disk: RefCell<FailingDisk>,
    clock: Cell<Option<u64>>,
    page: RefCell<Vec<u8>>,
    log: RefCell<Vec<u8>>,
}

impl Ground {
    /// An empty disk none of whose calls fails, five past one in the afternoon of 28 November 2026, and empty pages.
    fn new(alloc: Global) -> Ground {
        Ground::failing(alloc, 0)
    }

    /// The same, but that the call of this number fails, of those that change something on the disk.
    fn failing(alloc: Global, fails_at: usize) -> Ground {
        Ground {
            alloc,
            disk: RefCell::new(FailingDisk::new(alloc, fails_at, false)),
            clock: Cell::new(Some(1795871109)),
            page: RefCell::new(Vec::new(alloc)),
            log: RefCell::new(Vec::new(alloc)),
        }
    }

    /// The disk.
    fn disk(&self) -> SharedDisk<'_> {
        SharedDisk::new(&self.disk)
    }

    /// Puts a file of these bytes on the disk.
    fn put(&self, rt: &impl Abort, path: &str, bytes: &[u8]) {
        let mut disk = self.disk().changed().expect(rt, "a disk");
        assert!(rt; disk.put_bytes(path, bytes).is_ok());
    }

    /// Puts a file of another user on the disk, which may be renamed or not.
    fn put_of_another(&self, rt: &impl Abort, path: &str, bytes: &[u8], stays: bool) {
        let mut disk = self.disk().changed().expect(rt, "a disk");
        let file = disk.put_bytes(path, bytes).expect(rt, "memory");
        disk.deny(file);
        if stays {
            disk.stick(file);
        }
    }

    /// Whether a file of just these bytes is there.
    fn has(&self, rt: &impl Abort, path: &str, bytes: &[u8]) -> bool {
        self.disk().seen().expect(rt, "a disk").has(path, bytes)
    }

    /// A file of just these bytes is there.
    fn assert_file(&self, rt: &impl Abort, path: &str, bytes: &[u8]) {
        assert!(rt; self.has(rt, path, bytes));
    }

    /// Whether a file is there.
    fn stands(&self, path: &str) -> bool {
        match self.disk().seen() {
            Ok(disk) => disk.file_of(path).is_some(),
            Err(_) => false,
        }
    }

    /// Puts another file of these bytes in the place of one.
    fn replace(&self, rt: &impl Abort, path: &str, bytes: &[u8]) {
        let mut disk = self.disk().changed().expect(rt, "a disk");
        assert!(rt; disk.replace(path, bytes).is_ok());
    }

    /// Writes a byte to the beginning of a file, where it lies.
    fn write(&self, rt: &impl Abort, path: &str, byte: u8) {
        let mut disk = self.disk().changed().expect(rt, "a disk");
        let file = disk.file_of(path).expect(rt, "a file");
        disk.set(file, 0, byte);
    }

    /// The file there is another user's: it gets no second name.
    fn deny(&self, rt: &impl Abort, path: &str) {
        let mut disk = self.disk().changed().expect(rt, "a disk");
        let file = disk.file_of(path).expect(rt, "a file");
        disk.deny(file);
    }

    /// Takes a file away.
    fn remove(&self, rt: &impl Abort, path: &str) {
        assert!(rt; self.disk().remove(path).is_ok());
    }

    /// The next call that changes something on the disk fails.
    fn fail_next(&self, rt: &impl Abort) {
        self.disk().changed().expect(rt, "a disk").fail_next();
    }

    /// At the next call that changes something on the disk the first byte of a file becomes an X.
    fn write_meanwhile(&self, rt: &impl Abort, path: &str) {
        let mut disk = self.disk().changed().expect(rt, "a disk");
        let next = disk.next_call();
        assert!(rt; disk.write_meanwhile(next, path).is_ok());
    }

    /// The names in this folder can't be seen from now on.
    fn hide_folder(&self, rt: &impl Abort, folder: &str) {
        let mut disk = self.disk().changed().expect(rt, "a disk");
        assert!(rt; disk.hide_folder(folder).is_ok());
    }

    /// No file on the disk gets more bytes than these from now on.
    fn set_room(&self, rt: &impl Abort, bytes: usize) {
        self.disk().changed().expect(rt, "a disk").set_room(bytes);
    }

    /// How many names there are on the disk.
    fn count(&self, rt: &impl Abort) -> usize {
        self.disk().seen().expect(rt, "a disk").count()
    }

    /// A console whose lines go to the page, which is a terminal or none, and to the log.
    fn console_on(&self, is_terminal: bool) -> Console<TestClock<'_>, Page<'_>, Page<'_>> {
        let clock = TestClock::new(&self.clock);
        Console::new(
            clock,
            self.alloc,
            Page::new(&self.page),
            Page::new(&self.log),
            is_terminal,
        )
    }

    /// A console whose lines go to the page and to the log.
    fn console(&self) -> Console<TestClock<'_>, Page<'_>, Page<'_>> {
        self.console_on(false)
    }

    /// Whether just this is on the page and in the log.
    fn has_told(&self, lines: &[u8]) -> bool {
        Page::new(&self.page).shows(lines) && Page::new(&self.log).shows(lines)
    }

    /// Just this is on the page and in the log.
    fn assert_told(&self, rt: &impl Abort, lines: &[u8]) {
        assert!(rt; self.has_told(lines));
    }

    /// The page and the log are empty.
    fn clear(&self) {
        Page::new(&self.page).clear();
        Page::new(&self.log).clear();
    }

    /// The spool of the folder `s`.
    fn spool(&self, rt: &impl Abort) -> TestSpool<'_> {
        let folder = StationFolder::open(self.disk(), self.alloc, "s").expect(rt, "a folder");
        FolderSpool::new(self.alloc, folder, self.console())
    }

    /// The same where the page is a terminal.
    fn spool_on_terminal(&self, rt: &impl Abort) -> TestSpool<'_> {
        let folder = StationFolder::open(self.disk(), self.alloc, "s").expect(rt, "a folder");
        FolderSpool::new(self.alloc, folder, self.console_on(true))
    }
}
