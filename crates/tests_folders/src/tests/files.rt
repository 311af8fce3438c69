//! The files of a station's folder: how they are listed, read, marked, put in doubt and explained, and what a killed station left.
use fake_disk::FailingDisk;
use rje_folder::{Folder, FolderDisk, FolderFault, StationFolder};
use std::alloc::Global;
use std::io::{self, ErrorKind};
use std::process::Abort;
use std::test::Fail;

/// More calls than the station makes for one file.
const MAX_CALLS: usize = 16;

/// The folder of the station on this disk, which has tried some hidden names.
fn opened(rt: &impl Abort, alloc: Global, disk: FailingDisk) -> StationFolder<FailingDisk> {
    let mut station = StationFolder::open(disk, alloc, "s").expect(rt, "a folder");
    let _ = station.finish_taking_over("", None);
    station
}

/// A disk with a file of these bytes under this name.
fn disk_with(alloc: Global, fails_at: usize, is_done: bool, path: &str) -> io::Result<FailingDisk> {
    let mut disk = FailingDisk::new(alloc, fails_at, is_done);
    disk.put_bytes(path, b"12345")?;
    Ok(disk)
}

#[test]
fn names_lie_ready_in_their_order(rt: HostRuntime) -> Result<(), Fail> {
    let alloc = rt.alloc();
    let mut disk = FailingDisk::new(alloc, 0, false);
    for path in [
        "s/out/b.job",
        "s/out/.a.job",
        "s/out/a.deck.part",
        "s/out/a.deck",
    ] {
        disk.put(path)?;
    }
    let ready = opened(&rt, alloc, disk).names_ready().expect(&rt, "names");
    assert!(rt; ready.len() == 2);
    assert!(rt; ready.first().is_some_and(|name| name.as_str() == "a.deck"));
    assert!(rt; ready.last().is_some_and(|name| name.as_str() == "b.job"));
    Ok(())
}

#[test]
fn a_file_is_read_whole_or_not_at_all(rt: HostRuntime) -> Result<(), Fail> {
    let alloc = rt.alloc();
    let mut station = opened(&rt, alloc, disk_with(alloc, 0, false, "s/out/A.job")?);
    let whole = station.read("A.job", 5).expect(&rt, "bytes");
    assert!(rt; whole.bytes.as_slice() == b"12345".as_slice());
    assert!(rt; station.identity("A.job").ok() == Some(whole.file));
    let more = station.read("A.job", 4).err();
    assert!(rt; more == Some(FolderFault::TooLarge(Folder::Out)));
    let missing = station.read("B.job", 5).err();
    assert!(rt; missing == Some(FolderFault::Failed(Folder::Out, ErrorKind::NotFound)));
    Ok(())
}

#[test]
fn a_mark_is_written_where_the_file_is(rt: HostRuntime) -> Result<(), Fail> {
    let alloc = rt.alloc();
    for fails_at in 0..MAX_CALLS {
        for is_done in [false, true] {
            let disk = disk_with(alloc, fails_at, is_done, "s/doubt/A.job")?;
            let file = disk.identity("s/doubt/A.job")?;
            let mut station = opened(&rt, alloc, disk);
            let marked = station.mark("s/doubt/A.job", 3, b'*', file);
            let disk = station.close();
            let has = disk.has("s/doubt/A.job", b"123*5");
            assert!(rt; has || disk.has("s/doubt/A.job", b"12345"));
            if let Ok(marked) = marked {
                assert!(rt; has && marked != file);
                assert!(rt; disk.identity("s/doubt/A.job")? == marked);
            }
        }
    }
    Ok(())
}

#[test]
fn a_mark_behind_the_end_is_refused(rt: HostRuntime) -> Result<(), Fail> {
    let alloc = rt.alloc();
    let disk = disk_with(alloc, 0, false, "s/doubt/A.job")?;
    let file = disk.identity("s/doubt/A.job")?;
    let mut station = opened(&rt, alloc, disk);
    let refused = station.mark("s/doubt/A.job", 5, b'*', file).err();
    assert!(rt; refused == Some(FolderFault::Failed(Folder::Doubt, ErrorKind::InvalidInput)));
    assert!(rt; station.close().has("s/doubt/A.job", b"12345"));
    Ok(())
}

#[test]
fn a_file_that_was_written_to_is_not_marked(rt: HostRuntime) -> Result<(), Fail> {
    let alloc = rt.alloc();
    let mut disk = disk_with(alloc, 0, false, "s/doubt/A.job")?;
    let file = disk.identity("s/doubt/A.job")?;
    disk.set(1, 0, b'9');
    let mut station = opened(&rt, alloc, disk);
    let marked = station.mark("s/doubt/A.job", 3, b'*', file).err();
    assert!(rt; marked == Some(FolderFault::Replaced));
    assert!(rt; station.close().has("s/doubt/A.job", b"92345"));
    Ok(())
}

#[test]
fn what_was_counted_is_put_in_doubt(rt: HostRuntime) -> Result<(), Fail> {
    let alloc = rt.alloc();
    for fails_at in 0..MAX_CALLS {
        for is_done in [false, true] {
            let disk = disk_with(alloc, fails_at, is_done, "s/sent/A.deck.2")?;
            let mut station = opened(&rt, alloc, disk);
            let moved = station.doubt("s/sent/A.deck.2", "A.deck");
            let disk = station.close();
            let in_doubt = disk.file_of("s/doubt/A.deck") == Some(1);
            let in_sent = disk.file_of("s/sent/A.deck.2") == Some(1);
            assert!(rt; in_doubt || in_sent);
            if let Ok(path) = moved {
                assert!(rt; path.as_str() == "s/doubt/A.deck" && !in_sent);
            }
        }
    }
    Ok(())
}

#[test]
fn a_file_says_why_another_is_refused(rt: HostRuntime) -> Result<(), Fail> {
    let alloc = rt.alloc();
    for fails_at in 0..MAX_CALLS {
        for is_done in [false, true] {
            let disk = disk_with(alloc, fails_at, is_done, "s/refused/A.job")?;
            let mut station = opened(&rt, alloc, disk);
            let said = station.explain("s/refused/A.job", "too long");
            let disk = station.close();
            assert!(rt; disk.has("s/refused/A.job", b"12345"));
            if let Ok(path) = said {
                assert!(rt; path.as_str() == "s/refused/A.job.why");
                assert!(rt; disk.has("s/refused/A.job.why", b"too long"));
            }
        }
    }
    Ok(())
}

#[test]
fn a_file_is_kept_under_the_next_number(rt: HostRuntime) -> Result<(), Fail> {
    let alloc = rt.alloc();
    let mut station = opened(&rt, alloc, FailingDisk::new(alloc, 0, false));
    let first = station
        .keep(Folder::Print, "T", 41, ".txt", b"1")
        .expect(&rt, "a file");
    assert!(rt; first.path.as_str() == "s/print/T-41.txt" && first.next == 42);
    let second = station.keep(Folder::Print, "T", first.next, ".txt", b"2");
    let second = second.expect(&rt, "a file");
    assert!(rt; second.path.as_str() == "s/print/T-42.txt" && second.next == 43);
    Ok(())
}

/// Whichever call fails, a file that can't be kept isn't there, and nothing of it is left.
#[test]
fn nothing_is_left_of_a_file_that_cannot_be_kept(rt: HostRuntime) -> Result<(), Fail> {
    let alloc = rt.alloc();
    for fails_at in 0..MAX_CALLS {
        let mut station = opened(&rt, alloc, FailingDisk::new(alloc, fails_at, false));
        let kept = station.keep(Folder::In, "T", 7, ".job", b"1");
        let disk = station.close();
        let is_there = disk.has("s/in/T-7.job", b"1");
        assert!(rt; is_there == kept.is_ok());
        // (the lock is there too)
        assert!(rt; is_there || disk.count() == 1);
    }
    Ok(())
}

/// Names under which a killed station was writing.
const LEFT: [&str; 5] = [
    "s/in/.rje-0.part",
    "s/print/.rje-12.part",
    "s/punch/.rje-0.part",
    "s/cut/.rje-0.part",
    "s/refused/.rje-999.part",
];

/// Names under which no station writes.
const OTHERS: [&str; 5] = [
    "s/out/.rje-0.part",
    "s/in/.rje-00.part",
    "s/in/.rje-.part",
    "s/in/T-1.job",
    "s/in/a.part",
];

/// A disk with all of them.
fn disk_left(alloc: Global, fails_at: usize, is_done: bool) -> io::Result<FailingDisk> {
    let mut disk = FailingDisk::new(alloc, fails_at, is_done);
    for path in LEFT {
        disk.put(path)?;
    }
    for path in OTHERS {
        disk.put(path)?;
    }
    Ok(disk)
}

#[test]
fn what_a_killed_station_was_writing_is_taken_away(rt: HostRuntime) -> Result<(), Fail> {
    let alloc = rt.alloc();
    let disk = opened(&rt, alloc, disk_left(alloc, 0, false)?).close();
    for path in LEFT {
        assert!(rt; disk.file_of(path).is_none());
    }
    for path in OTHERS {
        assert!(rt; disk.file_of(path).is_some());
    }
    for fails_at in 1..=LEFT.len() {
        let refused = StationFolder::open(disk_left(alloc, fails_at, false)?, alloc, "s");
        assert!(rt; refused.is_err());
    }
    Ok(())
}

/// A file that a command has locked isn't read, and goes once it isn't locked any more.
#[test]
fn a_file_that_a_command_has_locked_is_being_written(rt: HostRuntime) -> Result<(), Fail> {
    let alloc = rt.alloc();
    let mut disk = disk_with(alloc, 0, false, "s/out/A.job")?;
    disk.lock(1);
    let mut station = opened(&rt, alloc, disk);
    let refused = station.read("A.job", 5).err();
    assert!(rt; refused == Some(FolderFault::BeingWritten(Folder::Out)));
    let mut disk = station.close();
    assert!(rt; disk.has("s/out/A.job", b"12345") && disk.count() == 2);
    disk.lock(0);
    assert!(rt; opened(&rt, alloc, disk).read("A.job", 5).is_ok());
    Ok(())
}

#[test]
fn a_file_that_gets_no_second_name_is_not_read(rt: HostRuntime) -> Result<(), Fail> {
    let alloc = rt.alloc();
    let mut disk = disk_with(alloc, 0, false, "s/out/A.job")?;
    let other = disk.put("s/out/B.job")?;
    disk.deny(other);
    let mut station = opened(&rt, alloc, disk);
    assert!(rt; station.read("A.job", 5).is_ok());
    let refused = station.read("B.job", 5).err();
    assert!(rt; refused == Some(FolderFault::NoSecondName(ErrorKind::PermissionDenied)));
    let disk = station.close();
    assert!(rt; disk.count() == 3 && disk.file_of("s/out/B.job") == Some(other));
    Ok(())
}

/// Whichever of the two calls fails by which a file is read, done or not, it lies ready, and has its one name again at the next begin.
#[test]
fn a_file_that_is_read_keeps_its_name(rt: HostRuntime) -> Result<(), Fail> {
    let alloc = rt.alloc();
    for is_done in [false, true] {
        for fails_at in 0..3 {
            let disk = disk_with(alloc, fails_at, is_done, "s/out/A.job")?;
            let mut station = opened(&rt, alloc, disk);
            let read = station.read("A.job", 5);
            // A second name that stays keeps nothing from being read.
            assert!(rt; read.is_ok() == (fails_at != 1));
            let again = station.read("A.job", 5).expect(&rt, "bytes");
            assert!(rt; again.bytes.as_slice() == b"12345".as_slice());
            let disk = opened(&rt, alloc, station.close().mended()).close();
            assert!(rt; disk.count() == 2 && disk.file_of("s/out/A.job").is_some());
        }
    }
    Ok(())
}

/// A file that is taken back as a station begins, once the names in its folder were listed, keeps it from nothing.
#[test]
fn a_file_that_is_taken_back_as_a_station_begins_is_forgotten(rt: HostRuntime) -> Result<(), Fail> {
    let alloc = rt.alloc();
    for path in ["s/out/B.job", "s/doubt/B.job", "s/out/.B.job.taken-0"] {
        let mut disk = disk_with(alloc, 0, false, "s/out/A.job")?;
        disk.list_too(path)?;
        let station = opened(&rt, alloc, disk);
        let ready = station.names_ready().expect(&rt, "names");
        assert!(rt; ready.len() == 1 && ready.first().is_some_and(|name| name.as_str() == "A.job"));
    }
    Ok(())
}

/// A file that takes the name between the link and the look isn't read for the one that had it.
#[test]
fn a_file_that_took_the_name_is_not_read(rt: HostRuntime) -> Result<(), Fail> {
    let alloc = rt.alloc();
    let mut disk = disk_with(alloc, 0, false, "s/out/A.job")?;
    disk.put_meanwhile(2, "s/out/A.job")?;
    let mut station = opened(&rt, alloc, disk);
    let refused = station.read("A.job", 5).err();
    assert!(rt; refused == Some(FolderFault::BeingWritten(Folder::Out)));
    let read = station.read("A.job", 5).expect(&rt, "bytes");
    assert!(rt; read.bytes.as_slice() == b"NEW".as_slice());
    Ok(())
}

#[test]
fn a_cut_file_is_taken_away_where_it_is_this_one(rt: HostRuntime) -> Result<(), Fail> {
    let alloc = rt.alloc();
    let mut disk = disk_with(alloc, 0, false, "s/cut/T-1.job")?;
    let first = disk.identity("s/cut/T-1.job")?;
    disk.replace("s/cut/T-1.job", b"67890")?;
    let mut station = opened(&rt, alloc, disk);
    let refused = station.drop_cut("s/cut/T-1.job", first).err();
    assert!(rt; refused == Some(FolderFault::Replaced));
    let second = station.identity_at("s/cut/T-1.job").expect(&rt, "a file");
    assert!(rt; station.drop_cut("s/cut/T-1.job", second).is_ok());
    assert!(rt; station.close().file_of("s/cut/T-1.job").is_none());
    Ok(())
}

/// Whichever call fails, what was written to see whether a job can be kept is taken away, but where that itself fails or the file was made all the same.
#[test]
fn whether_a_job_can_be_kept_is_tried(rt: HostRuntime) -> Result<(), Fail> {
    let alloc = rt.alloc();
    // To make the file, to write it, to put it on disk, and to take it away.
    for fails_at in 0..6 {
        let mut station = opened(&rt, alloc, FailingDisk::new(alloc, fails_at, false));
        let tried = station.try_to_keep(Folder::In, 3);
        assert!(rt; tried.is_err() == (1..=3).contains(&fails_at));
        let disk = station.close();
        assert!(rt; disk.has("s/in/.rje-0.part", b"\0\0\0") == (fails_at == 4));
        assert!(rt; disk.count() == if fails_at == 4 { 2 } else { 1 });
    }
    let mut station = opened(&rt, alloc, FailingDisk::new(alloc, 1, true));
    let full = station.try_to_keep(Folder::In, 3).err();
    assert!(rt; full == Some(FolderFault::Failed(Folder::In, ErrorKind::StorageFull)));
    let longer = station.try_to_keep(Folder::In, 33_554_433).err();
    assert!(rt; longer == Some(FolderFault::Failed(Folder::In, ErrorKind::InvalidInput)));
    Ok(())
}

/// A station that has a fresh folder has its eight folders on disk.
#[test]
fn a_fresh_folder_is_on_disk(rt: HostRuntime) -> Result<(), Fail> {
    let alloc = rt.alloc();
    // To make each of them, and to put them on disk.
    for fails_at in 0..=10 {
        let mut disk = FailingDisk::new(alloc, fails_at, false);
        disk.drop_folders();
        match StationFolder::open(disk, alloc, "s") {
            Ok(station) => assert!(rt; station.close().folders_on_disk() == Some(8)),
            Err(_) => assert!(rt; (1..=9).contains(&fails_at)),
        }
    }
    Ok(())
}
