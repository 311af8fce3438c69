//! What becomes of a job that comes.
use super::{MAX_CALLS, begun, job_of, receipt_with, saying, stands};
use fake_disk::FailingDisk;
use rje_jobs::Job;
use rje_receipts::receipt_of_job;
use rje_session::Spool;
use rje_settle::Receipt;
use rje_settling::SettlingFault;
use rje_spool::received_file;
use std::alloc::Global;
use std::cell::RefCell;
use std::process::Abort;

/// A station that is called begins, and the other end's receipt comes, and then a job.
fn takes(
    rt: &(impl Abort + AllocGlobal),
    alloc: Global,
    disk: &RefCell<FailingDisk>,
    job: &Job,
) -> Result<(), SettlingFault> {
    let mut spool = begun(alloc, disk, false)?;
    spool.keep(&saying(rt, Receipt::of_none()))?;
    spool.keep(job)
}

/// What a station says that begins, once the other end's receipt came.
fn said(
    rt: &(impl Abort + AllocGlobal),
    alloc: Global,
    disk: &RefCell<FailingDisk>,
) -> Result<Option<Receipt>, SettlingFault> {
    let mut spool = begun(alloc, disk, false)?;
    spool.keep(&saying(rt, Receipt::of_none()))?;
    let jobs = spool.next(alloc)?;
    match jobs.first() {
        Some(job) => Ok(receipt_of_job(job)),
        None => Ok(None),
    }
}

/// Whichever call of the disk fails, done or not, while a job comes: the receipt has it just where it is in in/, and where it was answered it has.
#[test]
fn a_receipt_has_the_job_that_is_in_in(rt: HostRuntime) {
    let alloc = rt.alloc();
    let job = job_of(&rt, b"A\n");
    let bytes = received_file(alloc, &job).expect(&rt, "memory");
    let one = receipt_with(&rt, Receipt::of_none(), &job);
    let path = "s/in/20261128T130509Z-1.job";
    for at in 0..MAX_CALLS {
        for is_done in [false, true] {
            let disk = RefCell::new(FailingDisk::new(alloc, at, is_done));
            let taken = takes(&rt, alloc, &disk, &job);
            let mended = RefCell::new(disk.into_inner().mended());
            let receipt = said(&rt, alloc, &mended).expect(&rt, "a receipt");
            let is_kept = receipt == Some(one);
            assert!(rt; is_kept || receipt == Some(Receipt::of_none()));
            assert!(rt; is_kept || taken.is_err());
            assert!(rt; stands(&mended, path, bytes.as_slice()) == is_kept);
            assert!(rt; !stands(&mended, "s/settle/come-1", bytes.as_slice()));
        }
    }
}
