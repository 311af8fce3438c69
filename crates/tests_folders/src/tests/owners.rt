//! Files of out/ that get no second name, as those of another user don't, and are taken over.
use fake_disk::FailingDisk;
use rje_folder::{Folder, FolderFault, StationFolder};
use rje_store::Disk;
use std::alloc::Global;
use std::io::{self, ErrorKind};
use std::process::Abort;
use std::test::Fail;

/// More calls than the station makes to take a file over.
const MAX_CALLS: usize = 16;

/// The number of the last call that it makes.
const LAST_CALL: usize = 11;

/// The number of the call by which the file gets a hidden name.
const HIDING: usize = 4;

/// The folder of the station on this disk, which has tried some hidden names.
fn opened(rt: &impl Abort, alloc: Global, disk: FailingDisk) -> StationFolder<FailingDisk> {
    let mut station = StationFolder::open(disk, alloc, "s").expect(rt, "a folder");
    let _ = station.finish_taking_over("", None);
    station
}

/// Whether some are left, once some hidden names are tried at this time.
fn is_left(rt: &impl Abort, station: &mut StationFolder<FailingDisk>, now: Option<i64>) -> bool {
    let finished = station.finish_taking_over("", now).expect(rt, "names");
    finished.is_left
}

/// A disk with one file in out/, of another user.
fn disk_of_another(alloc: Global, fails_at: usize, is_done: bool) -> io::Result<FailingDisk> {
    let mut disk = FailingDisk::new(alloc, fails_at, is_done);
    let file = disk.put_bytes("s/out/A.deck", b"12345")?;
    disk.deny(file);
    Ok(disk)
}

/// Lets a station's folder go. Its disk, and how many files lay ready in out/ whose bytes are these.
fn closed(
    rt: &impl Abort,
    alloc: Global,
    station: StationFolder<FailingDisk>,
    bytes: &[u8],
) -> io::Result<(FailingDisk, usize)> {
    let names = station.names_ready().expect(rt, "names");
    let disk = station.close();
    let mut count: usize = 0;
    for name in &names {
        let path = format!(in alloc; "s/out/{name}")?;
        if disk.has(path.as_str(), bytes) {
            count = count.saturating_add(1);
        }
    }
    Ok((disk, count))
}

/// A file of another user that a command has locked isn't taken over: it stays as it is.
#[test]
fn a_file_that_a_command_has_locked_is_not_taken_over(rt: HostRuntime) -> Result<(), Fail> {
    let alloc = rt.alloc();
    let mut disk = disk_of_another(alloc, 0, false)?;
    disk.lock(1);
    let mut station = opened(&rt, alloc, disk);
    let refused = station.take_over("A.deck", 5, None).err();
    assert!(rt; refused == Some(FolderFault::BeingWritten(Folder::Out)));
    let disk = station.close();
    assert!(rt; disk.file_of("s/out/A.deck") == Some(1) && disk.count() == 2);
    Ok(())
}

/// Whichever call fails, done or not, a station that begins then has the file once, as its own.
#[test]
fn a_file_of_another_user_is_taken_over(rt: HostRuntime) -> Result<(), Fail> {
    let alloc = rt.alloc();
    for fails_at in 0..MAX_CALLS {
        for is_done in [false, true] {
            let mut station = opened(&rt, alloc, disk_of_another(alloc, fails_at, is_done)?);
            let taken = station.take_over("A.deck", 5, None);
            let (disk, count) = closed(&rt, alloc, station, b"12345")?;
            assert!(rt; count <= 1);
            if let Ok(path) = &taken {
                assert!(rt; path.as_str() == "s/out/A.deck" && disk.count() == 2);
                assert!(rt; disk.file_of("s/out/A.deck") != Some(1));
            }
            assert!(rt; fails_at != 0 || taken.is_ok());
            // Where it can't be copied nothing is left of the copy. (The lock is there too.)
            assert!(rt; is_done || fails_at == 0 || HIDING <= fails_at || disk.count() == 2);
            let station = opened(&rt, alloc, disk.mended());
            let (disk, count) = closed(&rt, alloc, station, b"12345")?;
            assert!(rt; count == 1 && disk.count() == 2);
        }
    }
    Ok(())
}

/// A station that was ended at any of its calls: the next one has the file once, as its own.
#[test]
fn a_file_that_was_being_taken_over_is_there_once(rt: HostRuntime) -> Result<(), Fail> {
    let alloc = rt.alloc();
    for ends_at in 1..MAX_CALLS {
        let mut disk = disk_of_another(alloc, 0, false)?;
        disk.end_at(ends_at);
        let mut station = opened(&rt, alloc, disk);
        let _ = station.take_over("A.deck", 5, None);
        let station = opened(&rt, alloc, station.close().mended());
        let (disk, count) = closed(&rt, alloc, station, b"12345")?;
        assert!(rt; count == 1);
        assert!(rt; disk.count() == 2 && disk.file_of("s/out/A.deck").is_some());
    }
    Ok(())
}

/// Whenever another file is put under the name it lies ready, and the one that is taken over does where it wasn't put in the place of that.
#[test]
fn a_file_that_is_put_there_meanwhile_stays(rt: HostRuntime) -> Result<(), Fail> {
    let alloc = rt.alloc();
    let mut frees: usize = 0;
    for at in 1..=LAST_CALL {
        let mut disk = disk_of_another(alloc, 0, false)?;
        disk.put_meanwhile(at, "s/out/A.deck")?;
        let mut station = opened(&rt, alloc, disk);
        let taken = station.take_over("A.deck", 5, None);
        assert!(rt; HIDING < at || taken.err() == Some(FolderFault::Replaced));
        let disk = station.close();
        let was_free = disk.was_free();
        assert!(rt; was_free.is_some() && disk.has("s/out/A.deck", b"NEW"));
        let (disk, count) = closed(&rt, alloc, opened(&rt, alloc, disk), b"NEW")?;
        assert!(rt; count == 1);
        let (_, others) = closed(&rt, alloc, opened(&rt, alloc, disk), b"12345")?;
        if was_free == Some(true) {
            frees = frees.saturating_add(1);
            assert!(rt; others == 1);
        }
        assert!(rt; others <= 1);
    }
    assert!(rt; 0 < frees);
    Ok(())
}

#[test]
fn a_file_that_cannot_be_taken_over_stays(rt: HostRuntime) -> Result<(), Fail> {
    let alloc = rt.alloc();
    let mut disk = disk_of_another(alloc, 0, false)?;
    disk.stick(1);
    let mut station = opened(&rt, alloc, disk);
    let longer = station.take_over("A.deck", 4, None).err();
    assert!(rt; longer == Some(FolderFault::TooLarge(Folder::Out)));
    let refused = station.take_over("A.deck", 5, None).err();
    assert!(rt; refused == Some(FolderFault::NoSecondName(ErrorKind::PermissionDenied)));
    let disk = station.close();
    assert!(rt; disk.count() == 2 && disk.file_of("s/out/A.deck") == Some(1));
    Ok(())
}

/// A hidden name is taken away whose file has another one, and left where that isn't found; a file that has it alone gets a number where its name is
/// taken.
#[test]
fn a_hidden_name_is_brought_to_its_end(rt: HostRuntime) -> Result<(), Fail> {
    let mut disk = FailingDisk::new(rt.alloc(), 0, false);
    let sent = disk.put("s/sent/A.2.deck")?;
    disk.link("s/sent/A.2.deck", "s/out/.A.deck.taken-0")?;
    let ready = disk.put("s/out/B.deck")?;
    disk.link("s/out/B.deck", "s/out/.B.deck.taken-3")?;
    let other = disk.put("s/sent/E.deck")?;
    disk.link("s/sent/E.deck", "s/out/.C.deck.taken-0")?;
    let alone = disk.put("s/out/.B.deck.taken-0")?;
    let disk = opened(&rt, rt.alloc(), disk).close();
    assert!(rt; disk.file_of("s/sent/A.2.deck") == Some(sent));
    assert!(rt; disk.file_of("s/out/B.deck") == Some(ready));
    assert!(rt; disk.file_of("s/out/.C.deck.taken-0") == Some(other));
    assert!(rt; disk.file_of("s/out/B.2.deck") == Some(alone));
    assert!(rt; disk.count() == 6);
    Ok(())
}

/// A file of more bytes than are read at once gets its name back where it was being taken over, as the station's own.
#[test]
fn a_long_file_gets_its_name_back(rt: HostRuntime) -> Result<(), Fail> {
    let alloc = rt.alloc();
    let mut bytes = Vec::new(alloc);
    assert!(rt; bytes.resize(70_000, b'A').is_ok());
    let mut disk = FailingDisk::new(alloc, 0, false);
    let file = disk.put_bytes("s/out/.A.deck.taken-0", bytes.as_slice())?;
    disk.deny(file);
    let disk = opened(&rt, alloc, disk).close();
    assert!(rt; disk.file_of("s/out/.A.deck.taken-0").is_none());
    assert!(rt; disk.has("s/out/A.deck", bytes.as_slice()));
    Ok(())
}

/// A hidden file that can't get its name back stays as it is, and keeps no station from beginning.
#[test]
fn a_hidden_file_that_stays_hidden_stops_no_station(rt: HostRuntime) -> Result<(), Fail> {
    let alloc = rt.alloc();
    // The first call is that by which it would get its name.
    let mut disk = FailingDisk::new(alloc, 1, false);
    let file = disk.put_bytes("s/out/.A.deck.taken-0", b"12345")?;
    let disk = opened(&rt, alloc, disk).close();
    assert!(rt; disk.file_of("s/out/.A.deck.taken-0") == Some(file));
    assert!(rt; disk.file_of("s/out/A.deck").is_none());
    Ok(())
}

/// A file that is written to while it is copied is left under a hidden name, and gets its name back, with all its bytes, once it is at rest: its bytes
/// change for the second time two seconds after 1970 there, so it is six seconds after that.
#[test]
fn a_file_that_is_written_to_is_left_hidden_until_it_rests(rt: HostRuntime) -> Result<(), Fail> {
    let alloc = rt.alloc();
    for at in 1..=HIDING {
        let mut disk = disk_of_another(alloc, 0, false)?;
        disk.write_meanwhile(at, "s/out/A.deck")?;
        let mut station = opened(&rt, alloc, disk);
        let refused = station.take_over("A.deck", 5, Some(5)).err();
        assert!(rt; refused == Some(FolderFault::LeftHidden));
        assert!(rt; is_left(&rt, &mut station, Some(5)));
        assert!(rt; station.names_ready().is_ok_and(|names| names.is_empty()));
        assert!(rt; !is_left(&rt, &mut station, Some(6)));
        let (disk, count) = closed(&rt, alloc, station, b"X2345")?;
        assert!(rt; count == 1 && disk.count() == 2);
        assert!(rt; disk.file_of("s/out/A.deck") != Some(1));
    }
    Ok(())
}

/// A file that was written to three seconds ago may be written to still: nothing is done with it.
#[test]
fn a_file_that_may_be_written_to_is_not_taken_over(rt: HostRuntime) -> Result<(), Fail> {
    let alloc = rt.alloc();
    let mut station = opened(&rt, alloc, disk_of_another(alloc, 0, false)?);
    let refused = station.take_over("A.deck", 5, Some(4)).err();
    assert!(rt; refused == Some(FolderFault::BeingWritten(Folder::Out)));
    // (a clock that is behind the disk's tells nothing)
    assert!(rt; station.take_over("A.deck", 5, Some(0)).is_ok());
    let (disk, count) = closed(&rt, alloc, station, b"12345")?;
    assert!(rt; count == 1 && disk.count() == 2);
    Ok(())
}

/// Of many hidden names eight are brought to their end at a time.
#[test]
fn hidden_names_are_brought_to_their_end_in_turn(rt: HostRuntime) -> Result<(), Fail> {
    let alloc = rt.alloc();
    let mut disk = FailingDisk::new(alloc, 0, false);
    for number in 0..17 {
        let path = format!(in alloc; "s/out/.A{number}.deck.taken-0")?;
        disk.put(path.as_str())?;
    }
    let mut station = opened(&rt, alloc, disk);
    for (ready, still) in [(8, true), (16, false)] {
        let names = station.names_ready().expect(&rt, "names");
        assert!(rt; names.len() == ready);
        assert!(rt; is_left(&rt, &mut station, None) == still);
    }
    let names = station.names_ready().expect(&rt, "names");
    assert!(rt; names.len() == 17);
    Ok(())
}

/// Each hidden name is tried in turn, however many can't be brought to their end: those of files with another name that isn't found.
#[test]
fn hidden_names_are_tried_in_turn(rt: HostRuntime) -> Result<(), Fail> {
    let alloc = rt.alloc();
    let mut disk = FailingDisk::new(alloc, 0, false);
    for number in 10..22 {
        let elsewhere = format!(in alloc; "elsewhere/{number}")?;
        let hidden = format!(in alloc; "s/out/.A{number}.deck.taken-1")?;
        disk.put(elsewhere.as_str())?;
        disk.link(elsewhere.as_str(), hidden.as_str())?;
    }
    disk.put("s/out/.B.deck.taken-0")?;
    disk.put("s/out/.C.deck.taken-0")?;
    disk.put("s/out/C.deck")?;
    let mut station = StationFolder::open(disk, alloc, "s").expect(&rt, "a folder");
    let first = station.finish_taking_over("", None).expect(&rt, "names");
    assert!(rt; first.is_left && first.last.as_str() == ".A17.deck.taken-1");
    let next = station
        .finish_taking_over(first.last.as_str(), None)
        .expect(&rt, "names");
    assert!(rt; next.is_left && next.last.as_str() == ".A11.deck.taken-1");
    assert!(rt; first.others.len() == 8 && next.others.len() == 7);
    let numbered = next
        .others
        .iter()
        .find(|other| other.hidden.as_str() == ".C.deck.taken-0");
    assert!(rt;
        numbered.is_some_and(|other| other
            .path
            .as_ref()
            .is_ok_and(|path| path.as_str() == "s/out/C.2.deck"))
    );
    let names = station.names_ready().expect(&rt, "names");
    assert!(rt; names.len() == 3);
    Ok(())
}
