//! Locks that are had, that another process has, and that fail.
use super::Ground;
use fake_disk::{FailingDisk, Locking};
use rje_folder::{FolderFault, StationFolder};
use rje_store::{Disk, FileStore, Store, StoreFault};
use std::alloc::Global;
use std::io::ErrorKind;
use std::process::Abort;

/// Why a station doesn't get its folder where this comes of its lock.
fn fault_of(alloc: Global, locking: Locking) -> Option<FolderFault> {
    let mut disk = FailingDisk::new(alloc, 0, false);
    disk.lock_so(locking);
    StationFolder::open(disk, alloc, "s").err()
}

#[test]
fn a_station_has_its_folder_only_where_it_has_the_lock(rt: HostRuntime) {
    assert!(rt; fault_of(rt.alloc(), Locking::Done).is_none());
    assert!(rt; fault_of(rt.alloc(), Locking::InUse) == Some(FolderFault::InUse));
    let failed = fault_of(rt.alloc(), Locking::Fails);
    assert!(rt; failed.is_some_and(|fault| fault != FolderFault::InUse));
}

/// What a store gives for the lock of a file where this comes of each lock.
fn lock_of(rt: &(impl Abort + AllocGlobal), locking: Locking) -> Result<(), StoreFault> {
    let mut disk = FailingDisk::new(rt.alloc(), 0, false);
    assert!(rt; disk.put("a.job").is_ok());
    disk.lock_so(locking);
    FileStore::over(disk, rt.alloc()).lock(rt.alloc(), "a.job")
}

/// A lock whose file has no name any more was left by a process that has gone: it keeps nobody out.
#[test]
fn a_store_has_a_file_only_where_it_has_the_lock(rt: HostRuntime) {
    assert!(rt; lock_of(&rt, Locking::Done).is_ok());
    assert!(rt; lock_of(&rt, Locking::InUse) == Err(StoreFault::InUse));
    let failed = Err(StoreFault::Failed(ErrorKind::Unsupported));
    assert!(rt; lock_of(&rt, Locking::Fails) == failed);
    let busy = Err(StoreFault::Failed(ErrorKind::ResourceBusy));
    assert!(rt; lock_of(&rt, Locking::OfNoName) == busy);
}

/// A folder that another station has is left as it is: what that one is writing, and both names of a file whose last block it has out.
#[test]
fn a_folder_in_use_is_left_as_it_is(rt: HostRuntime) {
    let ground = Ground::new(rt.alloc());
    ground.put(&rt, "s/lock", b"");
    ground.put(&rt, "s/in/.rje-0.part", b"1 job");
    ground.put(&rt, "s/out/a.deck", b"A\n");
    assert!(rt; ground.disk().link("s/out/a.deck", "s/doubt/a.deck").is_ok());
    ground
        .disk()
        .changed()
        .expect(&rt, "a disk")
        .lock_so(Locking::InUse);
    let refused = StationFolder::open(ground.disk(), rt.alloc(), "s").err();
    assert!(rt; refused == Some(FolderFault::InUse));
    ground.assert_file(&rt, "s/in/.rje-0.part", b"1 job");
    ground.assert_file(&rt, "s/out/a.deck", b"A\n");
    ground.assert_file(&rt, "s/doubt/a.deck", b"A\n");
    assert!(rt; ground.count(&rt) == 4);
}
