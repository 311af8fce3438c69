//! What comes, is kept, and is brought in.
use super::{path, receipt};
use fake_disk::FailingDisk;
use rje_accounts::{AccountsFault, bring_in, finish_job, keep_job, read_accounts};
use rje_settle::{Receipt, SettleName};
use rje_store::Disk;
use std::alloc::Global;
use std::io::ErrorKind;
use std::test::Fail;

/// More calls than a job takes that comes.
const MAX_CALLS: usize = 12;

/// The job JOB comes, and gets its name in in/.
fn take_in(disk: &mut FailingDisk, alloc: Global) -> Result<Receipt, AccountsFault> {
    let kept = keep_job(disk, alloc, "s", Receipt::of_none(), b"JOB")?;
    bring_in(disk, alloc, "s", kept.kept, "T")?;
    Ok(kept)
}

/// How many names the job has, in settle/ and in in/.
fn names_of_job(disk: &FailingDisk) -> usize {
    let mut names: usize = 0;
    for path in ["s/settle/come-1", "s/in/T-1.job", "s/in/U-1.job"] {
        if disk.has(path, b"JOB") {
            names = names.saturating_add(1);
        }
    }
    names
}

#[test]
fn a_job_that_is_counted_has_one_name_whichever_call_fails(rt: HostRuntime) -> Result<(), Fail> {
    let alloc = rt.alloc();
    let noted = path(&rt, alloc, SettleName::Kept(receipt(&rt, 1, b"JOB")));
    for at in 0..MAX_CALLS {
        for is_done in [false, true] {
            let mut disk = FailingDisk::new(alloc, at, is_done);
            let taken = take_in(&mut disk, alloc);
            if disk.file_of(noted.as_str()).is_some() {
                assert!(rt; names_of_job(&disk) == 1);
            } else {
                assert!(rt; taken.is_err() && disk.file_of("s/in/T-1.job").is_none());
            }
            if taken.is_ok() {
                assert!(rt; disk.has("s/in/T-1.job", b"JOB"));
            }
        }
    }
    Ok(())
}

/// Brings to its end what was begun with the jobs that came. How many are kept.
fn finish(disk: &mut FailingDisk, alloc: Global, stamp: &str) -> Result<u64, AccountsFault> {
    let found = read_accounts(disk, alloc, "s")?;
    for number in &found.come {
        finish_job(disk, alloc, "s", stamp, found.kept, *number)?;
    }
    Ok(found.kept.kept)
}

#[test]
fn a_job_comes_once_wherever_the_station_ends_and_ends_again(rt: HostRuntime) -> Result<(), Fail> {
    let alloc = rt.alloc();
    for at in 1..MAX_CALLS {
        for again in 1..MAX_CALLS {
            let mut disk = FailingDisk::new(alloc, 0, false);
            disk.end_at(at);
            let _ = take_in(&mut disk, alloc);
            let mut disk = disk.mended();
            disk.end_at(at.saturating_add(again));
            let _ = finish(&mut disk, alloc, "T");
            let mut disk = disk.mended();
            let kept = finish(&mut disk, alloc, "U").expect(&rt, "accounts");
            assert!(rt; names_of_job(&disk) == kept as usize);
            assert!(rt; disk.file_of("s/settle/come-1").is_none());
        }
    }
    Ok(())
}

#[test]
fn a_taken_name_and_a_full_count_are_refused(rt: HostRuntime) -> Result<(), Fail> {
    let alloc = rt.alloc();
    let mut disk = FailingDisk::new(alloc, 0, false);
    disk.put_bytes("s/settle/come-7", b"JOB")?;
    disk.put_bytes("s/in/T-7.job", b"OTHER")?;
    let taken = bring_in(&mut disk, alloc, "s", 7, "T").err();
    assert!(rt; taken == Some(AccountsFault::Failed(ErrorKind::AlreadyExists)));
    assert!(rt; disk.has("s/in/T-7.job", b"OTHER") && disk.has("s/settle/come-7", b"JOB"));
    let full = Receipt {
        kept: u64::MAX,
        ..Receipt::of_none()
    };
    let refused = keep_job(&mut disk, alloc, "s", full, b"JOB").err();
    assert!(rt; refused == Some(AccountsFault::CountFull));
    Ok(())
}

#[test]
fn a_job_that_has_a_name_in_in_is_not_brought_in_again(rt: HostRuntime) -> Result<(), Fail> {
    let alloc = rt.alloc();
    let mut disk = FailingDisk::new(alloc, 0, false);
    let kept = keep_job(&mut disk, alloc, "s", Receipt::of_none(), b"JOB");
    assert!(rt; kept == Ok(receipt(&rt, 1, b"JOB")));
    disk.link("s/settle/come-1", "s/in/T-1.job")?;
    let brought = bring_in(&mut disk, alloc, "s", 1, "U").expect(&rt, "brought in");
    assert!(rt; brought.was_there && brought.path.as_str() == "s/in/T-1.job");
    assert!(rt; names_of_job(&disk) == 1 && disk.file_of("s/settle/come-1").is_none());
    Ok(())
}
