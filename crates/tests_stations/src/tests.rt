//! What no clause says of stations: worked examples from the field, and that calls succeed where memory is ample.
mod failing_lines;
mod hostile;
mod pair_stations;
mod refusals;
mod stations;

use arrayvec::ArrayVec;
use bsc_codes::{Block, Closing};
use rje_jobs::Job;
use rje_text::{Action, Mode, Record, Records, Select};
use std::alloc::AllocGlobal;
use std::process::Abort;

/// A buffer of these bytes, for which it has room.
fn buffer<const N: usize>(rt: &impl Abort, bytes: &[u8]) -> ArrayVec<u8, N> {
    let mut buffer = ArrayVec::new();
    assert!(rt; buffer.try_extend_from_slice(bytes).is_ok());
    buffer
}

/// A record of `length` bytes C1.
fn record_of(rt: &impl Abort, length: usize) -> Record {
    let bytes = [0xC1; 144];
    assert!(rt; length <= bytes.len());
    Record {
        action: Action::Plain,
        bytes: buffer(rt, &bytes[..length]),
    }
}

/// A block of this text that ends its job.
fn block(rt: &impl Abort, text: &[u8], transparent: bool) -> Block {
    Block {
        text: buffer(rt, text),
        closing: Closing::Etx,
        transparent,
    }
}

/// A whole, normal job of this many records of `length` bytes C1 for the default device.
fn job_of(rt: &(impl Abort + AllocGlobal), records: usize, length: usize) -> Job {
    let mut job = Job {
        select: Select::Unset,
        mode: Mode::Normal,
        records: Records::new(rt.alloc()),
        whole: true,
    };
    for _i in 0..records {
        assert!(rt; job.records.push(record_of(rt, length)).is_ok());
    }
    job
}

/// A job that can't be sent: its record is too long for the punch.
fn unfit_job(rt: &(impl Abort + AllocGlobal)) -> Job {
    let mut job = job_of(rt, 1, 81);
    job.select = Select::Punch;
    job
}

/// A job that can be sent, and two that can't be, the second of which is cut.
fn bad_jobs(rt: &(impl Abort + AllocGlobal)) -> Vec<Job> {
    let mut cut = job_of(rt, 1, 1);
    cut.whole = false;
    let mut jobs = Vec::new(rt.alloc());
    assert!(rt; jobs.push(job_of(rt, 1, 1)).is_ok());
    assert!(rt; jobs.push(unfit_job(rt)).is_ok());
    assert!(rt; jobs.push(cut).is_ok());
    jobs
}

/// Whether a job was delivered whole as this one.
fn is_same_job(given: &Job, job: &Job) -> bool {
    given.whole
        && given.select == job.select
        && given.mode == job.mode
        && given.records.iter().eq(job.records.iter())
}

/// The jobs are the same, and all are whole.
fn assert_same_jobs(rt: &impl Abort, handed: &[Job], jobs: &[Job]) {
    assert!(rt; handed.len() == jobs.len());
    for (place, given) in handed.iter().enumerate() {
        assert!(rt; is_same_job(given, &jobs[place]));
    }
}
