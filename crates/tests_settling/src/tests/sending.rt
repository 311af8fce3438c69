//! What becomes of a job that may have arrived.
use super::{MAX_CALLS, TestSpool, begun, job_of, receipt_with, saying, stands};
use bsc_link::Rank;
use fake_disk::FailingDisk;
use rje_day::Disposition;
use rje_session::{InHand, Spool};
use rje_settle::Receipt;
use rje_settling::SettlingFault;
use std::alloc::Global;
use std::cell::RefCell;
use std::process::Abort;

/// The receipts of both ends are said, where none was kept yet: the other end's comes, and its own is acknowledged.
fn meet(
    rt: &(impl Abort + AllocGlobal),
    spool: &mut TestSpool<'_>,
    receipt: Receipt,
) -> Result<(), SettlingFault> {
    assert!(rt; spool.next(rt.alloc())?.len() == 1);
    spool.settle(0, Disposition::Sent)?;
    spool.keep(&saying(rt, receipt))
}

/// The one job that lies ready goes out, if it is given. Whether its last block may be said.
fn sends(rt: &(impl Abort + AllocGlobal), spool: &mut TestSpool<'_>) -> bool {
    assert!(rt; spool.seen().ready);
    let Ok(jobs) = spool.next(rt.alloc()) else {
        return false;
    };
    if jobs.is_empty() {
        return false;
    }
    let held = InHand::new(rt.alloc(), Rank::Primary, jobs.as_slice()).expect(rt, "stations");
    assert!(rt; spool.look_on(held.station()));
    spool.goes_out(0).is_ok()
}

/// A station begins, meets the other end, which has kept none, and sends its one job, whose answer doesn't come. Whether the last block may have been
/// said.
fn is_sent(
    rt: &(impl Abort + AllocGlobal),
    alloc: Global,
    disk: &RefCell<FailingDisk>,
) -> Result<bool, SettlingFault> {
    let mut spool = begun(alloc, disk, true)?;
    meet(rt, &mut spool, Receipt::of_none())?;
    if !sends(rt, &mut spool) {
        return Ok(false);
    }
    let _ = spool.settle(0, Disposition::InDoubt);
    spool.disconnect();
    Ok(true)
}

/// A station begins, and the other end's receipt comes.
fn settles(
    rt: &(impl Abort + AllocGlobal),
    alloc: Global,
    disk: &RefCell<FailingDisk>,
    receipt: Receipt,
) -> Result<(), SettlingFault> {
    let mut spool = begun(alloc, disk, true)?;
    meet(rt, &mut spool, receipt)
}

/// The file of the job has just one name in the folders: in sent/, or in out/.
fn assert_settled(rt: &impl Abort, disk: &RefCell<FailingDisk>, is_sent: bool) {
    assert!(rt; stands(disk, "s/sent/a.deck", b"A\n") == is_sent);
    assert!(rt; stands(disk, "s/out/a.deck", b"A\n") != is_sent);
    assert!(rt; !stands(disk, "s/doubt/a.deck", b"A\n"));
    assert!(rt; !stands(disk, "s/sent/a.2.deck", b"A\n"));
    assert!(rt; !stands(disk, "s/out/a.2.deck", b"A\n"));
}

/// Whichever call of the disk fails, done or not, while a job goes out or while a receipt is acted on: the receipt that comes in the end tells whether
/// it came.
#[test]
fn a_receipt_settles_a_job_whichever_call_fails(rt: HostRuntime) {
    let alloc = rt.alloc();
    let all = receipt_with(&rt, Receipt::of_none(), &job_of(&rt, b"A\n"));
    let mut sent: usize = 0;
    for at in 0..MAX_CALLS {
        for is_done in [false, true] {
            for comes in [false, true] {
                let mut disk = FailingDisk::new(alloc, at, is_done);
                assert!(rt; disk.put_bytes("s/out/a.deck", b"A\n").is_ok());
                let disk = RefCell::new(disk);
                let came = comes && is_sent(&rt, alloc, &disk).unwrap_or(false);
                let receipt = if came { all } else { Receipt::of_none() };
                let _ = settles(&rt, alloc, &disk, receipt);
                let mended = RefCell::new(disk.into_inner().mended());
                assert!(rt; settles(&rt, alloc, &mended, receipt).is_ok());
                assert_settled(&rt, &mended, came);
                sent = sent.saturating_add(usize::from(came));
            }
        }
    }
    assert!(rt; sent > MAX_CALLS);
}

/// A job that was counted, and that the receipt hasn't, lies ready again.
#[test]
fn a_counted_job_that_has_not_come_lies_ready_again(rt: HostRuntime) {
    let alloc = rt.alloc();
    let mut disk = FailingDisk::new(alloc, 0, false);
    assert!(rt; disk.put_bytes("s/out/a.deck", b"A\n").is_ok());
    let disk = RefCell::new(disk);
    let mut spool = begun(alloc, &disk, true).expect(&rt, "a spool");
    assert!(rt; meet(&rt, &mut spool, Receipt::of_none()).is_ok());
    assert!(rt; sends(&rt, &mut spool));
    assert!(rt; spool.settle(0, Disposition::Sent).is_ok());
    assert_settled(&rt, &disk, true);
    spool.connect();
    assert!(rt; meet(&rt, &mut spool, Receipt::of_none()).is_ok());
    assert_settled(&rt, &disk, false);
}

/// No job is given before the other end's receipt came, nor after one that doesn't agree.
#[test]
fn nothing_is_given_without_a_receipt_that_agrees(rt: HostRuntime) {
    let alloc = rt.alloc();
    let mut disk = FailingDisk::new(alloc, 0, false);
    assert!(rt; disk.put_bytes("s/out/a.deck", b"A\n").is_ok());
    let disk = RefCell::new(disk);
    let mut spool = begun(alloc, &disk, false).expect(&rt, "a spool");
    assert!(rt; !spool.seen().ready);
    assert!(rt; spool.next(alloc).expect(&rt, "no jobs").is_empty());
    assert!(rt; spool.keep(&saying(&rt, Receipt::of_none())).is_ok());
    assert!(rt; meet_as_called(&rt, &mut spool));
    assert!(rt; spool.seen().ready);
    spool.connect();
    let other = receipt_with(&rt, Receipt::of_none(), &job_of(&rt, b"B\n"));
    assert!(rt; spool.keep(&saying(&rt, other)).is_ok());
    assert!(rt; meet_as_called(&rt, &mut spool));
    assert!(rt; !spool.seen().ready);
    assert!(rt; spool.next(alloc).expect(&rt, "no jobs").is_empty());
}

/// Its own receipt is said once the other one's came.
fn meet_as_called(rt: &(impl Abort + AllocGlobal), spool: &mut TestSpool<'_>) -> bool {
    spool.seen().ready
        && spool.next(rt.alloc()).expect(rt, "a receipt").len() == 1
        && spool.settle(0, Disposition::Sent).is_ok()
}
