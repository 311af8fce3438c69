//! A station's folder on a disk that fails at each of its calls in turn.
use fake_disk::FailingDisk;
use rje_day::Disposition;
use rje_folder::{Folder, FolderDisk, FolderFault, OutName, Settled, StationFolder};
use rje_store::Disk;
use std::alloc::Global;
use std::io::{self, ErrorKind};
use std::process::Abort;
use std::test::Fail;

/// More calls than the station makes for one file.
const MAX_CALLS: usize = 16;

/// Under which names a file is found.
#[derive(Clone, Copy, Debug, PartialEq, Eq)]
struct Found {
    out: bool,
    doubt: bool,
    sent: bool,
}

/// Where the file of this number is found.
fn find_file(disk: &FailingDisk, file: u64) -> Found {
    Found {
        out: disk.file_of("s/out/A.deck") == Some(file),
        doubt: disk.file_of("s/doubt/A.deck") == Some(file),
        sent: disk.file_of("s/sent/A.deck") == Some(file),
    }
}

/// A disk with one file in out/.
fn disk_with_a_file(alloc: Global, fails_at: usize, is_done: bool) -> io::Result<FailingDisk> {
    let mut disk = FailingDisk::new(alloc, fails_at, is_done);
    disk.put("s/out/A.deck")?;
    Ok(disk)
}

/// The folder of the station on this disk, which has tried some hidden names.
fn opened(rt: &impl Abort, alloc: Global, disk: FailingDisk) -> StationFolder<FailingDisk> {
    let mut station = StationFolder::open(disk, alloc, "s").expect(rt, "a folder");
    let _ = station.finish_taking_over("", None);
    station
}

/// What the folder comes to when a station has it anew, and none of its calls fails.
fn tidied(rt: &impl Abort, alloc: Global, disk: FailingDisk) -> FailingDisk {
    opened(rt, alloc, disk.mended()).close()
}

/// Promises the one file, and settles it so.
fn promised_and_settled(
    station: &mut StationFolder<FailingDisk>,
    disposition: Disposition,
) -> Result<Settled, FolderFault> {
    let file = station.identity("A.deck")?;
    let doubt = station.promise("A.deck", file)?;
    station.settle("A.deck", doubt.as_str(), disposition)
}

/// Whichever call fails, the file has a name, and at a new begin it doesn't both lie ready and stand elsewhere. Where none failed, it is found
/// there.
fn whichever_call_fails(
    rt: &(impl Abort + AllocGlobal),
    disposition: Disposition,
    at_the_end: Found,
) -> Result<(), Fail> {
    let alloc = rt.alloc();
    for fails_at in 0..MAX_CALLS {
        for is_done in [false, true] {
            let mut station = opened(rt, alloc, disk_with_a_file(alloc, fails_at, is_done)?);
            let settled = promised_and_settled(&mut station, disposition);
            let disk = station.close();
            let left = find_file(&disk, 1);
            assert!(rt; left.out || left.doubt || left.sent);
            if let Ok(settled) = settled {
                assert!(rt; disk.file_of(settled.path.as_str()) == Some(1));
                assert!(rt; left == at_the_end || matches!(settled.out, OutName::Left(_)));
            }
            let then = find_file(&tidied(rt, alloc, disk), 1);
            assert!(rt; then.out || then.doubt || then.sent);
            assert!(rt; !then.out || !then.doubt && !then.sent);
            assert!(rt; !then.doubt || !then.sent);
        }
    }
    Ok(())
}

#[test]
fn a_job_that_was_counted_is_sent(rt: HostRuntime) -> Result<(), Fail> {
    let at_the_end = Found {
        out: false,
        doubt: false,
        sent: true,
    };
    whichever_call_fails(&rt, Disposition::Sent, at_the_end)
}

#[test]
fn a_job_that_may_have_arrived_is_in_doubt(rt: HostRuntime) -> Result<(), Fail> {
    let at_the_end = Found {
        out: false,
        doubt: true,
        sent: false,
    };
    whichever_call_fails(&rt, Disposition::InDoubt, at_the_end)
}

#[test]
fn a_job_that_was_not_accepted_lies_ready(rt: HostRuntime) -> Result<(), Fail> {
    let at_the_end = Found {
        out: true,
        doubt: false,
        sent: false,
    };
    whichever_call_fails(&rt, Disposition::Ready, at_the_end)
}

/// A file whose name in doubt/ can't be put on disk hasn't one, and lies ready still.
#[test]
fn a_file_that_cannot_be_promised_lies_ready(rt: HostRuntime) -> Result<(), Fail> {
    let alloc = rt.alloc();
    for fails_at in 1..=4 {
        let mut station = opened(&rt, alloc, disk_with_a_file(alloc, fails_at, false)?);
        let file = station.identity("A.deck").expect(&rt, "a file");
        assert!(rt; station.promise("A.deck", file).is_err());
        assert!(rt; station.names_ready().expect(&rt, "names").len() == 1);
        let left = find_file(&station.close(), 1);
        assert!(rt; left.out && !left.doubt && !left.sent);
    }
    Ok(())
}

/// A file in sent/ whose name in out/ is another user's to take away keeps no station from its folder, and doesn't lie ready.
#[test]
fn a_name_that_stays_keeps_no_station_from_its_folder(rt: HostRuntime) -> Result<(), Fail> {
    let alloc = rt.alloc();
    let mut disk = FailingDisk::new(alloc, 0, false);
    let file = disk.put("s/sent/A.deck")?;
    disk.link("s/sent/A.deck", "s/out/A.deck")?;
    disk.stick(file);
    let station = opened(&rt, alloc, disk);
    assert!(rt; station.names_ready().expect(&rt, "names").is_empty());
    Ok(())
}

#[test]
fn a_job_that_was_counted_never_lies_ready_again(rt: HostRuntime) -> Result<(), Fail> {
    let alloc = rt.alloc();
    // The calls of a promise are the first four.
    for fails_at in 5..MAX_CALLS {
        for is_done in [false, true] {
            let mut station = opened(&rt, alloc, disk_with_a_file(alloc, fails_at, is_done)?);
            let _ = promised_and_settled(&mut station, Disposition::Sent);
            let then = find_file(&tidied(&rt, alloc, station.close()), 1);
            assert!(rt; !then.out && (then.doubt || then.sent));
        }
    }
    Ok(())
}

#[test]
fn a_name_that_is_taken_is_left(rt: HostRuntime) -> Result<(), Fail> {
    let alloc = rt.alloc();
    let mut disk = disk_with_a_file(alloc, 0, false)?;
    let other = disk.put("s/sent/A.deck")?;
    let mut station = opened(&rt, alloc, disk);
    assert!(rt; promised_and_settled(&mut station, Disposition::Sent).is_ok());
    let disk = station.close();
    assert!(rt; disk.file_of("s/sent/A.deck") == Some(other));
    assert!(rt; disk.file_of("s/sent/A.2.deck") == Some(1));
    assert!(rt; disk.file_of("s/out/A.deck").is_none());
    Ok(())
}

#[test]
fn a_file_that_took_the_name_of_a_job_stays(rt: HostRuntime) -> Result<(), Fail> {
    let alloc = rt.alloc();
    let mut station = opened(&rt, alloc, disk_with_a_file(alloc, 0, false)?);
    let file = station.identity("A.deck").expect(&rt, "a file");
    let doubt = station.promise("A.deck", file);
    let doubt = doubt.expect(&rt, "a second name");
    let mut disk = station.close();
    assert!(rt; rje_store::Disk::remove(&mut disk, "s/out/A.deck").is_ok());
    let other = disk.put("s/out/A.deck")?;
    let mut station = opened(&rt, alloc, disk);
    let settled = station.settle("A.deck", doubt.as_str(), Disposition::Sent);
    let settled = settled.expect(&rt, "a path");
    assert!(rt; settled.out == OutName::OfAnother);
    let disk = station.close();
    assert!(rt; disk.file_of("s/out/A.deck") == Some(other));
    assert!(rt; disk.file_of("s/sent/A.deck") == Some(1));
    Ok(())
}

/// The folder of a station that promised its one file, and what is found of it once one of its names was taken away by others and it is settled so.
fn settled_without(
    rt: &impl Abort,
    alloc: Global,
    name: &str,
    disposition: Disposition,
) -> io::Result<(Found, Settled)> {
    let mut station = opened(rt, alloc, disk_with_a_file(alloc, 0, false)?);
    let file = station.identity("A.deck").expect(rt, "a file");
    let doubt = station.promise("A.deck", file).expect(rt, "a second name");
    let mut disk = station.close();
    disk.remove(name)?;
    // Opened on a disk on which the file has one name, so that nothing is tidied up.
    let mut station = opened(rt, alloc, disk);
    let settled = station.settle("A.deck", doubt.as_str(), disposition);
    let settled = settled.expect(rt, "a path");
    Ok((find_file(&station.close(), 1), settled))
}

#[test]
fn a_file_that_was_taken_back_too_late_is_counted(rt: HostRuntime) -> Result<(), Fail> {
    let (found, settled) = settled_without(&rt, rt.alloc(), "s/out/A.deck", Disposition::Sent)?;
    assert!(rt; found.sent && !found.out && !found.doubt);
    assert!(rt; settled.out == OutName::Missing);
    let (found, settled) = settled_without(&rt, rt.alloc(), "s/out/A.deck", Disposition::Ready)?;
    assert!(rt; found.doubt && !found.out);
    assert!(rt; settled.out == OutName::Missing && settled.path.as_str() == "s/doubt/A.deck");
    Ok(())
}

#[test]
fn a_name_that_is_the_last_one_of_its_file_is_left(rt: HostRuntime) -> Result<(), Fail> {
    let (found, settled) = settled_without(
        &rt,
        rt.alloc(),
        "s/doubt/A.deck",
        Disposition::InDoubt,
    )?;
    assert!(rt; found.out && !found.doubt);
    assert!(rt; settled.out == OutName::Left(ErrorKind::NotFound));
    Ok(())
}

/// Puts another file in the place of the one in out/, after that was read. The disk, once the station promised what it read.
fn replaced_and_promised(
    rt: &impl Abort,
    alloc: Global,
    fails_at: usize,
) -> io::Result<(FailingDisk, Result<String, FolderFault>)> {
    let mut disk = disk_with_a_file(alloc, fails_at, false)?;
    let file = disk.identity("s/out/A.deck")?;
    disk.replace("s/out/A.deck", b"NEW")?;
    let mut station = opened(rt, alloc, disk);
    let promised = station.promise("A.deck", file);
    Ok((station.close(), promised))
}

#[test]
fn a_file_that_was_replaced_is_not_promised(rt: HostRuntime) -> Result<(), Fail> {
    let (disk, promised) = replaced_and_promised(&rt, rt.alloc(), 0)?;
    assert!(rt; promised.err() == Some(FolderFault::Replaced));
    assert!(rt; disk.has("s/out/A.deck", b"NEW"));
    assert!(rt; disk.file_of("s/doubt/A.deck").is_none());
    Ok(())
}

#[test]
fn a_file_that_was_written_to_is_not_promised(rt: HostRuntime) -> Result<(), Fail> {
    let alloc = rt.alloc();
    let mut disk = FailingDisk::new(alloc, 0, false);
    let number = disk.put_bytes("s/out/A.deck", b"OLD")?;
    let file = disk.identity("s/out/A.deck")?;
    disk.set(number, 0, b'B');
    let mut station = opened(&rt, alloc, disk);
    assert!(rt; station.promise("A.deck", file).err() == Some(FolderFault::Replaced));
    let refused = station.refuse("A.deck", file).err();
    assert!(rt; refused == Some(FolderFault::Replaced));
    let disk = station.close();
    assert!(rt; disk.count() == 2 && disk.has("s/out/A.deck", b"BLD"));
    Ok(())
}

#[test]
fn a_job_that_was_promised_does_not_lie_ready(rt: HostRuntime) -> Result<(), Fail> {
    let alloc = rt.alloc();
    let mut station = opened(&rt, alloc, disk_with_a_file(alloc, 0, false)?);
    let ready = station.names_ready().expect(&rt, "names");
    assert!(rt; ready.len() == 1 && ready.first().is_some_and(|name| name.as_str() == "A.deck"));
    let file = station.identity("A.deck").expect(&rt, "a file");
    assert!(rt; station.promise("A.deck", file).is_ok());
    assert!(rt; station.names_ready().expect(&rt, "names").is_empty());
    Ok(())
}

#[test]
fn what_came_gets_a_name_of_its_own(rt: HostRuntime) -> Result<(), Fail> {
    let alloc = rt.alloc();
    for fails_at in 0..MAX_CALLS {
        for is_done in [false, true] {
            let mut disk = FailingDisk::new(alloc, fails_at, is_done);
            let first = disk.put("s/in/T-7.job")?;
            let mut station = opened(&rt, alloc, disk);
            let kept = station.keep(Folder::In, "T", 7, ".job", b"1 job");
            let disk = station.close();
            assert!(rt; disk.file_of("s/in/T-7.job") == Some(first));
            assert!(rt; disk.file_of("s/in/T-9.job").is_none());
            if let Ok(kept) = kept {
                assert!(rt; kept.path.as_str() == "s/in/T-8.job" && kept.next == 9);
                assert!(rt; disk.has("s/in/T-8.job", b"1 job"));
            }
        }
    }
    Ok(())
}

#[test]
fn what_cannot_be_sent_is_refused(rt: HostRuntime) -> Result<(), Fail> {
    let alloc = rt.alloc();
    let mut station = opened(&rt, alloc, disk_with_a_file(alloc, 0, false)?);
    let file = station.identity("A.deck").expect(&rt, "a file");
    let refused = station.refuse("A.deck", file).expect(&rt, "a path");
    assert!(rt; refused.as_str() == "s/refused/A.deck");
    assert!(rt; station.names_ready().expect(&rt, "names").is_empty());
    let disk = station.close();
    assert!(rt; disk.file_of("s/refused/A.deck") == Some(1));
    assert!(rt; disk.count() == 2);
    Ok(())
}

#[test]
fn a_numbered_name_of_a_job_that_was_counted_is_taken_away(rt: HostRuntime) -> Result<(), Fail> {
    for second in ["s/doubt/A.2.deck", "s/doubt/A.deck.2"] {
        let mut disk = FailingDisk::new(rt.alloc(), 0, false);
        let other = disk.put("s/doubt/A.deck")?;
        let file = disk.put("s/sent/A.deck")?;
        disk.link("s/sent/A.deck", second)?;
        let disk = tidied(&rt, rt.alloc(), disk);
        assert!(rt; disk.file_of("s/sent/A.deck") == Some(file));
        assert!(rt; disk.file_of(second).is_none());
        assert!(rt; disk.file_of("s/doubt/A.deck") == Some(other));
    }
    Ok(())
}

#[test]
fn a_name_in_out_of_a_file_that_has_a_numbered_one_is_taken_away(
    rt: HostRuntime,
) -> Result<(), Fail> {
    for second in [
        "s/sent/A.2.deck",
        "s/doubt/A.deck.12",
        "s/refused/A.1200.deck",
    ] {
        let mut disk = disk_with_a_file(rt.alloc(), 0, false)?;
        disk.link("s/out/A.deck", second)?;
        let disk = tidied(&rt, rt.alloc(), disk);
        assert!(rt; disk.file_of("s/out/A.deck").is_none());
        assert!(rt; disk.file_of(second) == Some(1));
    }
    Ok(())
}

#[test]
fn a_second_name_elsewhere_leaves_a_file_ready(rt: HostRuntime) -> Result<(), Fail> {
    let mut disk = disk_with_a_file(rt.alloc(), 0, false)?;
    disk.link("s/out/A.deck", "s/sent/B.2.deck")?;
    let station = opened(&rt, rt.alloc(), disk);
    assert!(rt; station.names_ready().expect(&rt, "names").len() == 1);
    Ok(())
}
