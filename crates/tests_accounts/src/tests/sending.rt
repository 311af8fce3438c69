//! What is promised, and what is known to have been kept.
use super::{path, receipt};
use fake_disk::FailingDisk;
use rje_accounts::{AccountsFault, drop_promise, note_sent, promise, read_accounts};
use rje_folder::FolderDisk;
use rje_settle::{JobPlace, Promise, PromiseFault, Receipt, SettleName};
use std::alloc::Global;
use std::io;
use std::process::Abort;
use std::test::Fail;

/// More calls than one of these takes.
const MAX_CALLS: usize = 8;

/// A promise of a deck that is the job of this number.
fn promised(rt: &impl Abort, number: u64) -> Promise {
    Promise {
        receipt: receipt(rt, number, b"JOB"),
        place: JobPlace {
            mark: None,
            is_last: true,
        },
    }
}

/// A disk with a file in out/.
fn disk_with_deck(alloc: Global, fails_at: usize, is_done: bool) -> io::Result<FailingDisk> {
    let mut disk = FailingDisk::new(alloc, fails_at, is_done);
    disk.put_bytes("s/out/A.deck", b"JOB")?;
    Ok(disk)
}

#[test]
fn a_promise_stands_once_it_is_made_and_not_after_it_is_dropped(
    rt: HostRuntime,
) -> Result<(), Fail> {
    let alloc = rt.alloc();
    let one = promised(&rt, 1);
    let second = path(&rt, alloc, SettleName::Out(one));
    for at in 0..MAX_CALLS {
        for is_done in [false, true] {
            let mut disk = disk_with_deck(alloc, at, is_done)?;
            let file = disk.identity("s/out/A.deck")?;
            let made = promise(&mut disk, alloc, "s", "A.deck", file, one);
            let stands = disk.file_of(second.as_str());
            assert!(rt; made.is_err() || stands == disk.file_of("s/out/A.deck"));
            // (one that isn't made leaves no name, if the call that failed did nothing)
            assert!(rt; is_done || made.is_ok() || stands.is_none());
            let dropped = drop_promise(&mut disk, alloc, "s", one);
            assert!(rt; dropped.is_err() || disk.file_of(second.as_str()).is_none());
            assert!(rt; disk.has("s/out/A.deck", b"JOB"));
        }
    }
    Ok(())
}

#[test]
fn another_file_is_not_promised(rt: HostRuntime) -> Result<(), Fail> {
    let alloc = rt.alloc();
    let mut disk = disk_with_deck(alloc, 0, false)?;
    let file = disk.identity("s/out/A.deck")?;
    disk.replace("s/out/A.deck", b"NEW")?;
    let made = promise(&mut disk, alloc, "s", "A.deck", file, promised(&rt, 1));
    assert!(rt; made == Err(AccountsFault::Replaced));
    assert!(rt; disk.count() == 1 && disk.has("s/out/A.deck", b"NEW"));
    Ok(())
}

#[test]
fn the_highest_count_stands_whichever_call_fails(rt: HostRuntime) -> Result<(), Fail> {
    let alloc = rt.alloc();
    let old = receipt(&rt, 1, b"JOB");
    let new = receipt(&rt, 2, b"JOB");
    let old_path = path(&rt, alloc, SettleName::Sent(old));
    let new_path = path(&rt, alloc, SettleName::Sent(new));
    for at in 0..MAX_CALLS {
        for is_done in [false, true] {
            let mut disk = FailingDisk::new(alloc, at, is_done);
            let first = note_sent(&mut disk, alloc, "s", old);
            let second = note_sent(&mut disk, alloc, "s", new);
            let has_new = disk.file_of(new_path.as_str()).is_some();
            assert!(rt; second.is_err() || has_new);
            assert!(rt; first.is_err() || has_new || disk.file_of(old_path.as_str()).is_some());
            assert!(rt; note_sent(&mut disk.mended(), alloc, "s", new).is_ok());
        }
    }
    Ok(())
}

#[test]
fn a_count_that_is_no_older_stays(rt: HostRuntime) -> Result<(), Fail> {
    let alloc = rt.alloc();
    let mut disk = FailingDisk::new(alloc, 0, false);
    for (count, bytes) in [(2, b"JOB"), (2, b"TWO"), (1, b"JOB")] {
        let noted = note_sent(&mut disk, alloc, "s", receipt(&rt, count, bytes));
        assert!(rt; noted.is_ok());
    }
    assert!(rt; disk.count() == 3);
    let found = read_accounts(&mut disk, alloc, "s").err();
    assert!(rt; found == Some(AccountsFault::TwoOfOneNumber));
    let noted = note_sent(&mut disk, alloc, "s", receipt(&rt, 3, b"JOB"));
    assert!(rt; noted.is_ok() && disk.count() == 1);
    Ok(())
}

#[test]
fn accounts_are_restored_from_names_alone(rt: HostRuntime) -> Result<(), Fail> {
    let alloc = rt.alloc();
    let mut disk = disk_with_deck(alloc, 0, false)?;
    let file = disk.identity("s/out/A.deck")?;
    for number in [2, 1] {
        let made = promise(&mut disk, alloc, "s", "A.deck", file, promised(&rt, number));
        assert!(rt; made.is_ok());
    }
    assert!(rt; note_sent(&mut disk, alloc, "s", Receipt::of_none()).is_ok());
    disk.put("s/settle/notes.txt")?;
    let found = read_accounts(&mut disk, alloc, "s").expect(&rt, "accounts");
    assert!(rt; found.others == 1 && found.kept == Receipt::of_none());
    let sending = found.sending(alloc).expect(&rt, "an account");
    assert!(rt; sending.promises() == [promised(&rt, 1), promised(&rt, 2)].as_slice());
    assert!(rt; drop_promise(&mut disk, alloc, "s", promised(&rt, 1)).is_ok());
    let found = read_accounts(&mut disk, alloc, "s").expect(&rt, "accounts");
    assert!(rt; found.sending(alloc).err() == Some(PromiseFault::OutOfOrder));
    Ok(())
}
