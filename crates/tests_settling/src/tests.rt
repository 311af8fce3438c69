//! What no clause says of a spool that settles doubt: what becomes of its files by a receipt, whichever call of the disk fails.
mod clock;
mod receiving;
mod sending;

use clock::StoppedClock;
use fake_disk::{FailingDisk, SharedDisk};
use rje_folder::StationFolder;
use rje_jobs::{Job, job_of_deck};
use rje_receipts::receipt_job;
use rje_settle::{JobDigest, Receipt};
use rje_settling::{SettlingFault, SettlingSpool};
use rje_spool::{Console, FolderSpool, SpoolFault, received_file};
use rje_text::{Mode, Select};
use std::alloc::Global;
use std::cell::RefCell;
use std::io::{Sink, sink};
use std::process::Abort;

/// More calls than any of these runs takes.
const MAX_CALLS: usize = 90;

/// A spool of the tests, in the folder `s`.
type TestSpool<'a> = SettlingSpool<SharedDisk<'a>, StoppedClock, Sink, Sink>;

/// The spool of a station that begins on this disk, and is connected: it calls, or is called.
fn begun<'a>(
    alloc: Global,
    disk: &'a RefCell<FailingDisk>,
    calls: bool,
) -> Result<TestSpool<'a>, SettlingFault> {
    let shared = SharedDisk::new(disk);
    let folder = match StationFolder::open(shared, alloc, "s") {
        Ok(folder) => folder,
        Err(fault) => return Err(SettlingFault::from(SpoolFault::from(fault))),
    };
    let console = Console::new(StoppedClock, alloc, sink(), sink(), false);
    let spool = FolderSpool::new(alloc, folder, console);
    let mut spool = SettlingSpool::begin(alloc, "s", shared, spool, calls, 40)?;
    spool.connect();
    Ok(spool)
}

/// The job of a deck.
fn job_of(rt: &(impl Abort + AllocGlobal), deck: &[u8]) -> Job {
    job_of_deck(rt.alloc(), deck, Select::Unset, Mode::Normal).expect(rt, "a deck")
}

/// The receipt of these jobs and one more.
fn receipt_with(rt: &(impl Abort + AllocGlobal), before: Receipt, job: &Job) -> Receipt {
    let file = received_file(rt.alloc(), job).expect(rt, "memory");
    before
        .with(JobDigest::of(file.as_slice()))
        .expect(rt, "a number")
}

/// The job that says a receipt.
fn saying(rt: &(impl Abort + AllocGlobal), receipt: Receipt) -> Job {
    receipt_job(rt.alloc(), receipt).expect(rt, "memory")
}

/// Whether a file of these bytes is there.
fn stands(disk: &RefCell<FailingDisk>, path: &str, bytes: &[u8]) -> bool {
    match SharedDisk::new(disk).seen() {
        Ok(disk) => disk.has(path, bytes),
        Err(_) => false,
    }
}
