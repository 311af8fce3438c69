//! What no clause says: that files in memory are there. What the system's files do is in tests/.
use super::recorded_disk::RecordedDisk;
use super::{assert_file, joined};
use rje_store::{Disk, FileKind, FileStore, MemoryStore, Store, StoreFault, SystemDisk};
use std::alloc::Global;
use std::io::ErrorKind;
use std::process::Abort;
use std::test::Fail;

/// The disk is full.
const FULL: StoreFault = StoreFault::Failed(ErrorKind::StorageFull);

/// There is no such byte, or no file that grows.
const INVALID: StoreFault = StoreFault::Failed(ErrorKind::InvalidInput);

#[test]
fn files_in_memory_are_read_back(rt: HostRuntime) {
    let mut files = MemoryStore::new(rt.alloc());
    assert!(rt; files.write("a", b"one").is_ok());
    assert!(rt; files.write("b", b"two").is_ok());
    assert!(rt; files.write("a", b"three").is_ok());
    assert_file(&rt, &mut files, "a", b"three");
    assert_file(&rt, &mut files, "b", b"two");
    assert!(rt; files.read(rt.alloc(), "c").err() == Some(StoreFault::Missing));
}

#[test]
fn a_file_in_memory_grows_and_has_a_byte_set(rt: HostRuntime) {
    let mut files = MemoryStore::new(rt.alloc());
    assert!(rt; files.set_byte(rt.alloc(), "a", 0, b'-') == Err(StoreFault::Missing));
    assert!(rt; files.write("a", b"1 job").is_ok());
    assert!(rt; files.extend(rt.alloc(), "a", b"2", b"s").is_ok());
    assert_file(&rt, &mut files, "a", b"2 jobs");
    assert!(rt; files.set_byte(rt.alloc(), "a", 1, b'-').is_ok());
    assert_file(&rt, &mut files, "a", b"2-jobs");
    assert!(rt; files.set_byte(rt.alloc(), "a", 6, b'-') == Err(StoreFault::TooShort));
    assert!(rt; files.extend(rt.alloc(), "b", b"2", b"s").is_err());
}

/// The store of a disk on which a file of four bytes stands under each name, and which fails so at its call of this number.
fn store_failing_at(alloc: Global, fails_at: usize, fault: ErrorKind) -> FileStore<RecordedDisk> {
    let disk = RecordedDisk::new(alloc, Some(FileKind::Regular), 4, fails_at);
    FileStore::over(disk.failing_by(fault), alloc)
}

/// What a disk is asked when a file that is there is written, and its call of this number fails.
fn asked_to_write(rt: &impl Abort, alloc: Global, fails_at: usize, asked: &[u8]) {
    let disk = RecordedDisk::new(alloc, Some(FileKind::Regular), 4, fails_at);
    let mut files = FileStore::over(disk, alloc);
    let written = files.write("a.job", b"one");
    assert!(rt; written.is_ok() == (fails_at == 0));
    assert!(rt; files.disk().asked() == asked);
}

#[test]
fn a_file_is_on_disk_before_it_gets_its_name(rt: HostRuntime) {
    let alloc = rt.alloc();
    asked_to_write(
        &rt,
        alloc,
        0,
        b"create private a.job.rje-0\nowner of a.job.rje-0\nmode of a.job.rje-0\nfill a.job.rje-0 with one\nsync a.job.rje-0\nrename a.job.rje-0 to a.job\nsync folder of a.job\n",
    );
    asked_to_write(&rt, alloc, 1, b"create private a.job.rje-0\n");
    asked_to_write(
        &rt,
        alloc,
        2,
        b"create private a.job.rje-0\nowner of a.job.rje-0\nremove a.job.rje-0\n",
    );
    asked_to_write(
        &rt,
        alloc,
        3,
        b"create private a.job.rje-0\nowner of a.job.rje-0\nmode of a.job.rje-0\nremove a.job.rje-0\n",
    );
    asked_to_write(
        &rt,
        alloc,
        4,
        b"create private a.job.rje-0\nowner of a.job.rje-0\nmode of a.job.rje-0\nfill a.job.rje-0 with one\nremove a.job.rje-0\n",
    );
    asked_to_write(
        &rt,
        alloc,
        5,
        b"create private a.job.rje-0\nowner of a.job.rje-0\nmode of a.job.rje-0\nfill a.job.rje-0 with one\nsync a.job.rje-0\nremove a.job.rje-0\n",
    );
    asked_to_write(
        &rt,
        alloc,
        6,
        b"create private a.job.rje-0\nowner of a.job.rje-0\nmode of a.job.rje-0\nfill a.job.rje-0 with one\nsync a.job.rje-0\nrename a.job.rje-0 to a.job\nremove a.job.rje-0\n",
    );
    asked_to_write(
        &rt,
        alloc,
        7,
        b"create private a.job.rje-0\nowner of a.job.rje-0\nmode of a.job.rje-0\nfill a.job.rje-0 with one\nsync a.job.rje-0\nrename a.job.rje-0 to a.job\nsync folder of a.job\n",
    );
}

#[test]
fn a_file_grows_by_way_of_a_copy(rt: HostRuntime) {
    let alloc = rt.alloc();
    let mut files = FileStore::over(
        RecordedDisk::new(alloc, Some(FileKind::Regular), 4, 0),
        alloc,
    );
    assert!(rt; files.extend(alloc, "a.job", b"2", b"s").is_ok());
    assert!(rt; files.extend(alloc, "a.job", b"3", b"t").is_ok());
    files.settle();
    assert!(rt;
        files.disk().asked()
            == b"open a.job\ncreate private a.job.rje-0\nowner of a.job.rje-0\nmode of a.job.rje-0\ngo on with a.job.rje-0 as a.job and s\nwrite to a.job.rje-0: 2\nsync a.job.rje-0\nrename a.job.rje-0 to a.job\nsync folder of a.job\ncreate private a.job.rje-0\nowner of a.job.rje-0\nmode of a.job.rje-0\ngo on with a.job.rje-0 as a.job.rje-0 and t\nwrite to a.job.rje-0: 3\nsync a.job.rje-0\nlink a.job as a.job.rje-1\nrename a.job.rje-0 to a.job\nsync folder of a.job\nremove a.job.rje-1\n".as_slice()
    );
}

#[test]
fn a_byte_is_set_where_the_file_is(rt: HostRuntime) {
    let alloc = rt.alloc();
    let mut files = FileStore::over(
        RecordedDisk::new(alloc, Some(FileKind::Regular), 4, 0),
        alloc,
    );
    assert!(rt; files.set_byte(alloc, "a.job", 3, b'-').is_ok());
    assert!(rt; files.set_byte(alloc, "a.job", 4, b'-') == Err(INVALID));
    assert!(rt;
        files.disk().asked() == b"open a.job\nwrite to a.job: -\nsync bytes of a.job\n".as_slice()
    );
}

#[test]
fn a_file_stays_open_from_one_byte_to_the_next(rt: HostRuntime) {
    let alloc = rt.alloc();
    let mut files = store_failing_at(alloc, 0, ErrorKind::StorageFull);
    assert!(rt; files.set_byte(alloc, "a.job", 0, b'-').is_ok());
    assert!(rt; files.set_byte(alloc, "a.job", 1, b'*').is_ok());
    assert!(rt; files.set_byte(alloc, "b.job", 1, b'+').is_ok());
    assert!(rt; files.set_byte(alloc, "a.job", 2, b'-').is_ok());
    assert!(rt;
        files.disk().asked()
            == b"open a.job\nwrite to a.job: -\nsync bytes of a.job\nwrite to a.job: *\nsync bytes of a.job\nopen b.job\nwrite to b.job: +\nsync bytes of b.job\nopen a.job\nwrite to a.job: -\nsync bytes of a.job\n".as_slice()
    );

    // Another file may have its name.
    assert!(rt; files.write("a.job", b"one").is_ok());
    assert!(rt; files.set_byte(alloc, "a.job", 2, b'*').is_ok());
    assert!(rt;
        files.disk().asked().ends_with(
            b"sync folder of a.job\nopen a.job\nwrite to a.job: *\nsync bytes of a.job\n"
        )
    );

    // What it has is not known once it can't be put on disk.
    let mut files = store_failing_at(alloc, 3, ErrorKind::StorageFull);
    assert!(rt; files.set_byte(alloc, "a.job", 0, b'-') == Err(FULL));
    assert!(rt; files.set_byte(alloc, "a.job", 1, b'*').is_ok());
    assert!(rt;
        files.disk().asked()
            == b"open a.job\nwrite to a.job: -\nsync bytes of a.job\nopen a.job\nwrite to a.job: *\nsync bytes of a.job\n".as_slice()
    );
}

#[test]
fn names_that_a_file_system_does_not_keep_are_no_fault(rt: HostRuntime) {
    let alloc = rt.alloc();
    let mut files = store_failing_at(alloc, 7, ErrorKind::InvalidInput);
    assert!(rt; files.write("a.job", b"one") == Ok(()));
    let mut files = store_failing_at(alloc, 7, ErrorKind::StorageFull);
    assert!(rt; files.write("a.job", b"one") == Err(StoreFault::Unsynced));
}

#[test]
fn a_growth_that_fails_leaves_nothing_beside_the_file(rt: HostRuntime) {
    let alloc = rt.alloc();

    // The copy can't be put on disk.
    let mut files = store_failing_at(alloc, 7, ErrorKind::StorageFull);
    assert!(rt; files.extend(alloc, "a.job", b"2", b"s") == Err(FULL));
    assert!(rt;
        files
            .disk()
            .asked()
            .ends_with(b"sync a.job.rje-0\nremove a.job.rje-0\n")
    );

    // It can't have the name in the second growth, by which the file has a second one.
    let mut files = store_failing_at(alloc, 17, ErrorKind::StorageFull);
    assert!(rt; files.extend(alloc, "a.job", b"2", b"s").is_ok());
    assert!(rt; files.extend(alloc, "a.job", b"3", b"t") == Err(FULL));
    assert!(rt;
        files.disk().asked().ends_with(
            b"link a.job as a.job.rje-1\nrename a.job.rje-0 to a.job\nremove a.job.rje-1\nremove a.job.rje-0\n"
        )
    );

    // A copy whose front is longer than the one that is to be written is of no use.
    let mut files = store_failing_at(alloc, 20, ErrorKind::StorageFull);
    assert!(rt; files.extend(alloc, "a.job", b"22", b"s").is_ok());
    assert!(rt; files.extend(alloc, "a.job", b"33", b"t").is_ok());
    assert!(rt; files.extend(alloc, "a.job", b"4", b"u") == Err(FULL));
    assert!(rt;
        files.disk().asked().ends_with(
            b"sync folder of a.job\nremove a.job.rje-1\ncreate private a.job.rje-0\n"
        )
    );
}

#[test]
fn a_device_neither_grows_nor_has_a_byte_set(rt: HostRuntime) {
    let alloc = rt.alloc();
    let disk = RecordedDisk::new(alloc, Some(FileKind::Device), 4, 0);
    let mut files = FileStore::over(disk, alloc);
    assert!(rt; files.set_byte(alloc, "a.job", 0, b'-') == Err(INVALID));
    assert!(rt; files.extend(alloc, "a.job", b"2", b"s") == Err(INVALID));
    assert!(rt; files.disk().asked() == b"open a.job\nopen a.job\n".as_slice());
}

#[test]
fn a_file_is_one_on_its_disk(rt: HostRuntime) -> Result<(), Fail> {
    let alloc = rt.alloc();
    let mut files = store_failing_at(alloc, 0, ErrorKind::StorageFull);
    assert!(rt; files.is_one_file(alloc, "/first/a.job", "/first/b.job")?);
    assert!(rt; !files.is_one_file(alloc, "/first/a.job", "/second/a.job")?);
    Ok(())
}

/// What a disk is asked for the lock of a file, where the lock's own file has so many names when it is given up.
fn asked_to_lock(rt: &(impl Abort + AllocGlobal), links: u64, asked: &[u8]) {
    let alloc = rt.alloc();
    let disk = RecordedDisk::new(alloc, Some(FileKind::Regular), 0, 0);
    let mut files = FileStore::over(disk, alloc);
    assert!(rt; files.lock(alloc, "a.job").is_ok());
    files.disk().links.set(links);
    files.release();
    assert!(rt; files.disk().asked() == asked);
}

#[test]
fn the_file_of_a_lock_that_was_taken_away_is_not_removed(rt: HostRuntime) {
    let lock = b"create .a.job.rje-lock\nmode of .a.job.rje-lock\n".as_slice();
    let removed = joined(&rt, &[lock, b"remove .a.job.rje-lock\n"]);
    asked_to_lock(&rt, 1, removed.as_slice());
    asked_to_lock(&rt, 0, lock);
}

#[test]
fn the_folder_of_a_path_is_the_one_that_is_opened(rt: HostRuntime) -> Result<(), Fail> {
    let disk = SystemDisk::new(&rt);
    for (path, folder) in [("/a.job", "/"), ("/dev/a.job", "/dev")] {
        let found = disk.status_of(&disk.open_folder(path)?)?;
        let wanted = disk.status(folder)?;
        assert!(rt; found.device == wanted.device);
        assert!(rt; found.inode == wanted.inode);
    }
    Ok(())
}
